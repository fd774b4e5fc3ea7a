//! The calls of mutators on links. A refused call changes nothing.
ghost use Rattle.heap_spec.specs.Replies.{count_reply, done_reply};
ghost use Rattle.heap_core.specs.MutatorCalls.{IsCall};

use super::Core;
use super::objects::find_in;
use heap_spec::{Call, Event};
use links::is_normal;
use words::limits::WORD_BYTES;
use words::{Refusal, Reg, Slot};

impl Core {
    /// Makes the word at the address of `at` and an offset in words a link to the object that `to` points into. A link that
    /// stands there is replaced, and no word changes.
    ///
    /// # Errors
    /// [`Refusal::NoSlot`] if the slot has no mutator, else [`Refusal::Misaligned`] if the address isn't that of a word,
    /// else [`Refusal::NoObject`] if it points into no object, else [`Refusal::NotPointerFree`] if the collector reads that
    /// object's words, else [`Refusal::NoObject`] if the word of `to` points into no object, and else
    /// [`Refusal::LinksFull`] if as many links stand as there is room for, and none at the address.
    pub fn link(&mut self, slot: Slot, at: Reg, offset: u64, to: Reg) -> Result<(), Refusal>
        ensures { IsCall self.old (Event.Mutator slot (Call.Link at offset to)) (done_reply result) self.new }
    {
        let mutator = self.roots.attached(slot)?;
        let address = mutator.address(at, offset);
        let word = mutator.word(to);
        if address % WORD_BYTES != 0 {
            return Err(Refusal::Misaligned);
        }
        let holder = find_in(&self.objects, &self.marker, address)?;
        if is_normal(holder.kind) {
            return Err(Refusal::NotPointerFree);
        }
        let named = find_in(&self.objects, &self.marker, word)?;
        if !self.links.has_room(address) {
            return Err(Refusal::LinksFull);
        }
        self.links.link(address, named.base);
        Ok(())
    }

    /// Takes the link at the address of `at` and an offset in words away, if one stands there, and leaves its word. Answers
    /// 1 if one stood there, and else 0.
    ///
    /// # Errors
    /// [`Refusal::NoSlot`] if the slot has no mutator.
    pub fn unlink(&mut self, slot: Slot, at: Reg, offset: u64) -> Result<u64, Refusal>
        ensures { IsCall self.old (Event.Mutator slot (Call.Unlink at offset)) (count_reply result) self.new }
    {
        let mutator = self.roots.attached(slot)?;
        let address = mutator.address(at, offset);
        let stood = self.links.has(address);
        self.links.unlink(address);
        if !stood {
            return Ok(0);
        }
        Ok(1)
    }
}
