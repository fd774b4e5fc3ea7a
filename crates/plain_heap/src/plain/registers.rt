//! The calls that touch nothing but the roots. Each is refused with [`Refusal::NoSlot`] exactly if the slot has no mutator,
//! and else as it says; a refused call changes nothing.
ghost use Rattle.std.specs.Prelude.{◌≡◌};
ghost use Rattle.heap_spec.specs.Replies.{IsStep, done_reply, slot_reply, word_reply};
ghost use Rattle.plain_heap.specs.Standing.{StandsFor};

use super::PlainHeap;
use heap_spec::{Call, Event};
use words::{Global, Refusal, Reg, Slot};

impl PlainHeap {
    /// A mutator comes, into the lowest slot that has none, with registers of 0 and an empty stack.
    #[inline]
    pub fn attach(&mut self) -> Result<Slot, Refusal>
        ensures step { IsStep (StandsFor self.old) Event.Attach (slot_reply result) (StandsFor self.new) }
        ensures origin { self.new.origin ≡ self.old.origin }
    {
        self.roots.attach()
    }

    /// The mutator of the slot goes.
    #[inline]
    pub fn detach(&mut self, slot: Slot) -> Result<(), Refusal>
        ensures step { IsStep (StandsFor self.old) (Event.Mutator slot Call.Detach) (done_reply result) (StandsFor self.new) }
        ensures origin { self.new.origin ≡ self.old.origin }
    {
        self.roots.detach(slot)
    }

    /// Puts a word into a register.
    #[inline]
    pub fn set(&mut self, slot: Slot, reg: Reg, word: u64) -> Result<(), Refusal>
        ensures step { IsStep (StandsFor self.old) (Event.Mutator slot (Call.Set reg word)) (done_reply result) (StandsFor self.new) }
        ensures origin { self.new.origin ≡ self.old.origin }
    {
        self.roots.set(slot, reg, word)
    }

    /// Puts the word of `from` into `into`.
    #[inline]
    pub fn copy(&mut self, slot: Slot, into: Reg, from: Reg) -> Result<(), Refusal>
        ensures step { IsStep (StandsFor self.old) (Event.Mutator slot (Call.Copy into from)) (done_reply result) (StandsFor self.new) }
        ensures origin { self.new.origin ≡ self.old.origin }
    {
        self.roots.copy(slot, into, from)
    }

    /// Puts the word of `from` and a number, added, into `into`.
    #[inline]
    pub fn add(&mut self, slot: Slot, into: Reg, from: Reg, number: u64) -> Result<(), Refusal>
        ensures step { IsStep (StandsFor self.old) (Event.Mutator slot (Call.Add into from number)) (done_reply result) (StandsFor self.new) }
        ensures origin { self.new.origin ≡ self.old.origin }
    {
        self.roots.add(slot, into, from, number)
    }

    /// Puts the word of `from` less that of `less` into `into`.
    #[inline]
    pub fn sub(&mut self, slot: Slot, into: Reg, from: Reg, less: Reg) -> Result<(), Refusal>
        ensures step { IsStep (StandsFor self.old) (Event.Mutator slot (Call.Sub into from less)) (done_reply result) (StandsFor self.new) }
        ensures origin { self.new.origin ≡ self.old.origin }
    {
        self.roots.sub(slot, into, from, less)
    }

    /// The word of a register.
    #[inline]
    pub fn get(&self, slot: Slot, reg: Reg) -> Result<u64, Refusal>
        ensures { IsStep (StandsFor self.now) (Event.Mutator slot (Call.Get reg)) (word_reply result) (StandsFor self.now) }
    {
        self.roots.get(slot, reg)
    }

    /// Puts the word of a register on the stack.
    #[inline]
    pub fn push(&mut self, slot: Slot, from: Reg) -> Result<(), Refusal>
        ensures step { IsStep (StandsFor self.old) (Event.Mutator slot (Call.Push from)) (done_reply result) (StandsFor self.new) }
        ensures origin { self.new.origin ≡ self.old.origin }
    {
        self.roots.push(slot, from)
    }

    /// Takes the top word off the stack into a register.
    #[inline]
    pub fn pop(&mut self, slot: Slot, into: Reg) -> Result<u64, Refusal>
        ensures step { IsStep (StandsFor self.old) (Event.Mutator slot (Call.Pop into)) (word_reply result) (StandsFor self.new) }
        ensures origin { self.new.origin ≡ self.old.origin }
    {
        self.roots.pop(slot, into)
    }

    /// Puts the word of a global into a register.
    #[inline]
    pub fn gget(&mut self, slot: Slot, into: Reg, global: Global) -> Result<u64, Refusal>
        ensures step { IsStep (StandsFor self.old) (Event.Mutator slot (Call.GlobalGet into global)) (word_reply result) (StandsFor self.new) }
        ensures origin { self.new.origin ≡ self.old.origin }
    {
        self.roots.gget(slot, into, global)
    }

    /// Puts the word of a register into a global.
    #[inline]
    pub fn gput(&mut self, slot: Slot, global: Global, from: Reg) -> Result<(), Refusal>
        ensures step { IsStep (StandsFor self.old) (Event.Mutator slot (Call.GlobalPut global from)) (done_reply result) (StandsFor self.new) }
        ensures origin { self.new.origin ≡ self.old.origin }
    {
        self.roots.gput(slot, global, from)
    }
}
