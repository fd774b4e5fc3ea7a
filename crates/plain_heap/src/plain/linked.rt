//! The calls on links.
ghost use Rattle.std.specs.Prelude.{◌≡◌};
ghost use Rattle.heap_spec.specs.Replies.{IsStep, count_reply, done_reply};
ghost use Rattle.plain_heap.specs.Standing.{StandsFor};

use super::PlainHeap;
use heap_spec::{Call, Event};
use links::is_normal;
use words::limits::WORD_BYTES;
use words::{Refusal, Reg, Slot};

impl PlainHeap {
    /// Makes a word of a pointer-free object a link to the object that a register points into.
    pub fn link(&mut self, slot: Slot, at: Reg, offset: u64, to: Reg) -> Result<(), Refusal>
        ensures step { IsStep (StandsFor self.old) (Event.Mutator slot (Call.Link at offset to)) (done_reply result) (StandsFor self.new) }
        ensures origin { self.new.origin ≡ self.old.origin }
    {
        let mutator = self.roots.attached(slot)?;
        let address = mutator.address(at, offset);
        let word = mutator.word(to);
        if address % WORD_BYTES != 0 {
            return Err(Refusal::Misaligned);
        }
        let holder = self.directory.find(address)?;
        if is_normal(holder.kind) {
            return Err(Refusal::NotPointerFree);
        }
        let named = self.directory.find(word)?;
        if !self.links.has_room(address) {
            return Err(Refusal::LinksFull);
        }
        self.links.link(address, named.base);
        Ok(())
    }

    /// Takes a link away, and answers how many stood there.
    pub fn unlink(&mut self, slot: Slot, at: Reg, offset: u64) -> Result<u64, Refusal>
        ensures step { IsStep (StandsFor self.old) (Event.Mutator slot (Call.Unlink at offset)) (count_reply result) (StandsFor self.new) }
        ensures origin { self.new.origin ≡ self.old.origin }
    {
        let mutator = self.roots.attached(slot)?;
        let address = mutator.address(at, offset);
        let stood = self.links.has(address);
        self.links.unlink(address);
        if !stood {
            return Ok(0);
        }
        Ok(1)
    }
}
