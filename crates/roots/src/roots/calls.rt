//! The calls of mutators that touch nothing but the roots. Each makes a step of every heap that has these roots.
ghost use Rattle.std.specs.Prelude.{◌≡◌, ℕ, ◌<◌, slice_get, Some, None, IfSome, IfNone, MatchOption};
ghost use Rattle.heap_spec.specs.Replies.{done_reply, slot_reply, word_reply};
ghost use Rattle.roots.specs.Roots.{StepsRoots, HasNoSlot, IsNextSlot};

use super::{Mutators, Roots, pop_of, push_of};
use heap_spec::{Call, Event};
use words::limits::SLOTS;
use words::{Global, Refusal, Reg, Slot};

// The lowest slot that has no mutator.
fn lowest_vacant(mutators: &Mutators) -> Option<Slot>
    ensures some { IfSome result (λ slot. (slice_get mutators.now slot ≡ Some None) × ((k : ℕ) → k < slot → slice_get mutators.now k ≡ Some None → ⊥)) }
    ensures none { IfNone result ((k : ℕ) → slice_get mutators.now k ≡ Some None → ⊥) }
{
    for number in 0..SLOTS {
        if let Some(slot) = Slot::new(number) {
            if mutators[slot.index()].mutator().is_none() {
                return Some(slot);
            }
        }
    }
    None
}

impl Roots {
    /// The lowest slot with no mutator, which the next one to come gets.
    pub fn vacant(&self) -> Option<Slot>
        ensures { MatchOption result (HasNoSlot self.now) (λ slot. IsNextSlot self.now slot) }
    {
        lowest_vacant(&self.mutators)
    }

    /// A mutator comes, into the lowest slot that has none, with registers of 0 and an empty stack.
    pub fn attach(&mut self) -> Result<Slot, Refusal>
        ensures { StepsRoots self.old Event.Attach (slot_reply result) self.new }
    {
        let slot = self.vacant().ok_or(Refusal::NoSlot)?;
        self.mutators[slot.index()].attach();
        Ok(slot)
    }

    /// The mutator of the slot goes.
    pub fn detach(&mut self, slot: Slot) -> Result<(), Refusal>
        ensures { StepsRoots self.old (Event.Mutator slot Call.Detach) (done_reply result) self.new }
    {
        self.attached(slot)?;
        self.mutators[slot.index()].detach();
        Ok(())
    }

    /// Puts a word into a register.
    pub fn set(&mut self, slot: Slot, reg: Reg, word: u64) -> Result<(), Refusal>
        ensures { StepsRoots self.old (Event.Mutator slot (Call.Set reg word)) (done_reply result) self.new }
    {
        self.attached(slot)?;
        self.set_word(slot, reg, word);
        Ok(())
    }

    /// Puts the word of `from` into `into`.
    pub fn copy(&mut self, slot: Slot, into: Reg, from: Reg) -> Result<(), Refusal>
        ensures { StepsRoots self.old (Event.Mutator slot (Call.Copy into from)) (done_reply result) self.new }
    {
        let mutator = self.attached(slot)?;
        let word = mutator.word(from);
        self.set_word(slot, into, word);
        Ok(())
    }

    /// Puts the word of `from` and a number, added, into `into`.
    pub fn add(&mut self, slot: Slot, into: Reg, from: Reg, number: u64) -> Result<(), Refusal>
        ensures { StepsRoots self.old (Event.Mutator slot (Call.Add into from number)) (done_reply result) self.new }
    {
        let mutator = self.attached(slot)?;
        let word = mutator.word(from).wrapping_add(number);
        self.set_word(slot, into, word);
        Ok(())
    }

    /// Puts the word of `from` less that of `less` into `into`.
    pub fn sub(&mut self, slot: Slot, into: Reg, from: Reg, less: Reg) -> Result<(), Refusal>
        ensures { StepsRoots self.old (Event.Mutator slot (Call.Sub into from less)) (done_reply result) self.new }
    {
        let mutator = self.attached(slot)?;
        let word = mutator.word(from).wrapping_sub(mutator.word(less));
        self.set_word(slot, into, word);
        Ok(())
    }

    /// The word of a register.
    pub fn get(&self, slot: Slot, reg: Reg) -> Result<u64, Refusal>
        ensures { StepsRoots self.now (Event.Mutator slot (Call.Get reg)) (word_reply result) self.now }
    {
        let mutator = self.attached(slot)?;
        Ok(mutator.word(reg))
    }

    /// Puts the word of a register on the stack.
    pub fn push(&mut self, slot: Slot, from: Reg) -> Result<(), Refusal>
        ensures { StepsRoots self.old (Event.Mutator slot (Call.Push from)) (done_reply result) self.new }
    {
        let mutator = self.attached(slot)?;
        if mutator.is_full() {
            return Err(Refusal::StackFull);
        }
        push_of(&mut self.mutators, slot, from);
        Ok(())
    }

    /// Takes the top word off the stack into a register.
    pub fn pop(&mut self, slot: Slot, into: Reg) -> Result<u64, Refusal>
        ensures { StepsRoots self.old (Event.Mutator slot (Call.Pop into)) (word_reply result) self.new }
    {
        let mutator = self.attached(slot)?;
        if mutator.is_empty() {
            return Err(Refusal::StackEmpty);
        }
        Ok(pop_of(&mut self.mutators, slot, into))
    }

    /// Puts the word of a global into a register.
    pub fn gget(&mut self, slot: Slot, into: Reg, global: Global) -> Result<u64, Refusal>
        ensures { StepsRoots self.old (Event.Mutator slot (Call.GlobalGet into global)) (word_reply result) self.new }
    {
        self.attached(slot)?;
        let word = self.global(global);
        self.set_word(slot, into, word);
        Ok(word)
    }

    /// Puts the word of a register into a global.
    pub fn gput(&mut self, slot: Slot, global: Global, from: Reg) -> Result<(), Refusal>
        ensures { StepsRoots self.old (Event.Mutator slot (Call.GlobalPut global from)) (done_reply result) self.new }
    {
        let mutator = self.attached(slot)?;
        let word = mutator.word(from);
        self.globals[global.index()] = word;
        Ok(())
    }
}
