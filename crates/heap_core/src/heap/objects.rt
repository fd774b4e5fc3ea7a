//! The calls that reach objects. A refused call changes nothing of the sequential heap.
ghost use Rattle.std.specs.Prelude.{◌≡◌, ◌*◌, Some, None, IfOk, IfErr, length};
ghost use Rattle.words.specs.declared.limits.TheConstants.{PAGE_WORDS};
ghost use Rattle.heap_spec.specs.Replies.{count_reply, done_reply, word_reply};
ghost use Rattle.block_map.specs.FoundIn.{IsLawful};
ghost use Rattle.object_space.specs.Kept.{kept_in};
ghost use Rattle.heap_core.specs.MutatorCalls.{IsCall};
ghost use Rattle.heap_core.specs.Granted.{granted_reply, HoldsWord};

use super::Core;
use super::beside::{note_free, note_object, note_write};
use block_map::Found;
use heap_spec::{Call, Event};
use marker::Marker;
use object_space::ObjectSpace;
use words::limits::WORD_BYTES;
use words::{Kind, Refusal, Reg, Slot};

// The kept object that a word points into, for a call that is refused where there is none.
#[inline(always)]
pub(crate) fn find_in(objects: &ObjectSpace, marker: &Marker, word: u64) -> Result<Found, Refusal>
    requires pages { length marker.now.dirty ≡ length objects.now.states }
    ensures ok { IfOk result (λ found. Some found ≡ kept_in objects.now.states objects.now.pending marker.now.marks word) }
    ensures err { IfErr result (λ refusal. (refusal ≡ Refusal.NoObject) × (None ≡ kept_in objects.now.states objects.now.pending marker.now.marks word)) }
    ensures lawful { IsLawful objects.now.states }
    ensures long { length objects.now.words ≡ PAGE_WORDS * length objects.now.states }
{
    objects.find(marker, word).ok_or(Refusal::NoObject)
}

impl Core {
    /// Loads the word at the address of `at` and an offset in words into `into`.
    ///
    /// # Errors
    /// [`Refusal::NoSlot`] if the slot has no mutator, else [`Refusal::Misaligned`] if the address isn't that of a word,
    /// and else [`Refusal::NoObject`] if it points into no object.
    #[inline]
    pub fn load(&mut self, slot: Slot, into: Reg, at: Reg, offset: u64) -> Result<u64, Refusal>
        ensures { IsCall self.old (Event.Mutator slot (Call.Load into at offset)) (word_reply result) self.new }
    {
        let mutator = self.roots.attached(slot)?;
        let address = mutator.address(at, offset);
        if address % WORD_BYTES != 0 {
            return Err(Refusal::Misaligned);
        }
        find_in(&self.objects, &self.marker, address)?;
        let word = self.objects.read(address);
        self.roots.set_word(slot, into, word);
        Ok(word)
    }

    /// Stores the word of `from` at the address of `at` and an offset in words.
    ///
    /// # Errors
    /// As [`Core::load`].
    #[inline]
    pub fn store(&mut self, slot: Slot, at: Reg, offset: u64, from: Reg) -> Result<(), Refusal>
        ensures { IsCall self.old (Event.Mutator slot (Call.Store at offset from)) (done_reply result) self.new }
    {
        let mutator = self.roots.attached(slot)?;
        let target = mutator.address(at, offset);
        let word = mutator.word(from);
        if target % WORD_BYTES != 0 {
            return Err(Refusal::Misaligned);
        }
        find_in(&self.objects, &self.marker, target)?;
        self.objects.write(target, word);
        note_write(&mut self.marker, target);
        Ok(())
    }

    /// Sets `into` to the base of the object that `from` points into.
    ///
    /// # Errors
    /// [`Refusal::NoSlot`] if the slot has no mutator, and else [`Refusal::NoObject`] if the word points into no object.
    pub fn base(&mut self, slot: Slot, into: Reg, from: Reg) -> Result<u64, Refusal>
        ensures { IsCall self.old (Event.Mutator slot (Call.Base into from)) (word_reply result) self.new }
    {
        let mutator = self.roots.attached(slot)?;
        let word = mutator.word(from);
        let found = find_in(&self.objects, &self.marker, word)?;
        self.roots.set_word(slot, into, found.base);
        Ok(found.base)
    }

    /// The words of the object that a register points into.
    ///
    /// # Errors
    /// As [`Core::base`].
    pub fn size(&self, slot: Slot, reg: Reg) -> Result<u64, Refusal>
        ensures { IsCall self.now (Event.Mutator slot (Call.Size reg)) (count_reply result) self.now }
    {
        let mutator = self.roots.attached(slot)?;
        let word = mutator.word(reg);
        let found = find_in(&self.objects, &self.marker, word)?;
        Ok(u64::from(found.len))
    }

    /// Allocates an object of at least so many words, all 0, and puts its base into `into`.
    ///
    /// # Errors
    /// [`Refusal::NoSlot`] if the slot has no mutator, else [`Refusal::BadSize`] for a request of no words or of more than
    /// the limit, and else [`Refusal::Full`] exactly if no address has room.
    #[inline(always)]
    pub fn alloc(&mut self, slot: Slot, into: Reg, words: u64, kind: Kind) -> Result<(), Refusal>
        ensures { IsCall self.old (Event.Mutator slot (Call.Alloc into words kind)) (done_reply result) self.new }
    {
        match self.alloc_base(slot, into, words, kind) {
            Ok(_) => Ok(()),
            Err(refusal) => Err(refusal),
        }
    }

    /// The same, and it answers what the register then holds: the base.
    ///
    /// # Errors
    /// As [`Core::alloc`].
    #[inline(always)]
    pub fn alloc_base(
        &mut self,
        slot: Slot,
        into: Reg,
        words: u64,
        kind: Kind,
    ) -> Result<u64, Refusal>
        ensures call { IsCall self.old (Event.Mutator slot (Call.Alloc into words kind)) (granted_reply result) self.new }
        ensures base { IfOk result (λ base. HoldsWord self.new.roots slot into base) }
    {
        self.roots.attached(slot)?;
        let placement = self.roots.placement(words).ok_or(Refusal::BadSize)?;
        let base = self
            .objects
            .allocate(&self.marker, placement, kind)
            .ok_or(Refusal::Full)?;
        note_object(&mut self.marker, self.is_marking, base);
        self.roots.set_word(slot, into, base);
        let Some(mutator) = self.roots.mutator(slot) else {
            unreachable!();
        };
        Ok(mutator.word(into))
    }

    /// Frees the object whose base a register has.
    ///
    /// # Errors
    /// [`Refusal::NoSlot`] if the slot has no mutator, else [`Refusal::NoObject`] if the word points into no object, and
    /// else [`Refusal::NotBase`] if it isn't the object's base.
    #[inline(always)]
    pub fn free(&mut self, slot: Slot, reg: Reg) -> Result<(), Refusal>
        ensures { IsCall self.old (Event.Mutator slot (Call.Free reg)) (done_reply result) self.new }
    {
        let mutator = self.roots.attached(slot)?;
        let word = mutator.word(reg);
        let found = find_in(&self.objects, &self.marker, word)?;
        if found.base != word {
            return Err(Refusal::NotBase);
        }
        // Its clauses tell how many marks there are.
        self.marker.laws();
        self.objects.release(found);
        note_free(&mut self.marker, &mut self.needs_full, word);
        self.objects.take_along(&self.marker, &mut self.links);
        Ok(())
    }
}
