//! The calls that touch objects.
ghost use Rattle.std.specs.Prelude.{◌≡◌, IsTrue, false};
ghost use Rattle.heap_spec.specs.Heap.{Mutator as HeapMutator};
ghost use Rattle.heap_spec.specs.Replies.{IsStep, done_reply, word_reply, count_reply};
ghost use Rattle.roots.specs.Roots.{HasMutator};
ghost use Rattle.plain_heap.specs.Answering.{MayBePut, IsPut, StandsSoundly, IsAllocatedAt, CantAllocateAt, IsAllocatedAnywhere, CantAllocateAnywhere};

use super::PlainHeap;
use crate::along::take_along;
use crate::extent::Extent;
use crate::owners::{fill, word_index};
use heap_spec::{Call, Event};
use words::limits::WORD_BYTES;
use words::{Kind, Refusal, Reg, Slot};

impl PlainHeap {
    ghost use Rattle.plain_heap.specs.Standing.{StandsFor};

    /// Loads a heap word into a register.
    pub fn load(&mut self, slot: Slot, into: Reg, at: Reg, offset: u64) -> Result<u64, Refusal>
        ensures step { IsStep (StandsFor self.old) (Event.Mutator slot (Call.Load into at offset)) (word_reply result) (StandsFor self.new) }
        ensures origin { self.new.origin ≡ self.old.origin }
    {
        let mutator = self.roots.attached(slot)?;
        let address = mutator.address(at, offset);
        if address % WORD_BYTES != 0 {
            return Err(Refusal::Misaligned);
        }
        self.directory.find(address)?;
        let position = word_index(self.directory.origin, address);
        let word = self.words[position];
        self.roots.set_word(slot, into, word);
        Ok(word)
    }

    /// Stores a register's word in the heap.
    pub fn store(&mut self, slot: Slot, at: Reg, offset: u64, from: Reg) -> Result<(), Refusal>
        ensures step { IsStep (StandsFor self.old) (Event.Mutator slot (Call.Store at offset from)) (done_reply result) (StandsFor self.new) }
        ensures origin { self.new.origin ≡ self.old.origin }
    {
        let mutator = self.roots.attached(slot)?;
        let address = mutator.address(at, offset);
        let word = mutator.word(from);
        if address % WORD_BYTES != 0 {
            return Err(Refusal::Misaligned);
        }
        self.directory.find(address)?;
        let position = word_index(self.directory.origin, address);
        self.words[position] = word;
        Ok(())
    }

    // Puts a zeroed object where it may be put, and its base into a register.
    fn put(&mut self, slot: Slot, into: Reg, object: Extent)
        requires mutator { (m : HeapMutator) × HasMutator self.old.roots slot m }
        requires fits { MayBePut self.old object }
        ensures put { IsPut self.old slot into object self.new }
        ensures origin { self.new.origin ≡ self.old.origin }
    {
        let start = word_index(self.directory.origin, object.base);
        fill(&mut self.words, start, object.length as usize, 0);
        self.directory.insert(object);
        self.roots.set_word(slot, into, object.base);
    }

    /// Allocates a zeroed object of at least so many words where its size class has a place, and puts its base into a register.
    /// This is a step of a plain heap that begins where heaps with size classes do and stands for a sound heap.
    pub fn alloc(&mut self, slot: Slot, into: Reg, words: u64, kind: Kind) -> Result<(), Refusal>
        ensures step { StandsSoundly self.old → IsStep (StandsFor self.old) (Event.Mutator slot (Call.Alloc into words kind)) (done_reply result) (StandsFor self.new) }
        ensures origin { self.new.origin ≡ self.old.origin }
    {
        self.mutator(slot).ok_or(Refusal::NoSlot)?;
        let placement = self.roots.placement(words).ok_or(Refusal::BadSize)?;
        let object = self
            .directory
            .place_for(self.pages, placement, kind)
            .ok_or(Refusal::Full)?;
        // Only an object that lies elsewhere than its class places it can be in the way.
        if !self.directory.may_be_put(self.pages, &object) {
            return Err(Refusal::Full);
        }
        self.put(slot, into, object);
        Ok(())
    }

    /// Allocates a zeroed object at this base, if the request is granted there. Else nothing changes. Only a plain heap that begins where
    /// heaps with size classes do grants every request that can be.
    pub fn alloc_at(&mut self, slot: Slot, into: Reg, words: u64, kind: Kind, base: u64) -> bool
        ensures yes { IsTrue result → IsAllocatedAt self.old slot into words kind base self.new }
        ensures no { result ≡ false → CantAllocateAt self.old slot into words kind base }
        ensures same { result ≡ false → self.new ≡ self.old }
        ensures origin { self.new.origin ≡ self.old.origin }
    {
        let Some(_) = self.mutator(slot) else {
            return false;
        };
        let Some(placement) = self.roots.placement(words) else {
            return false;
        };
        let Some(object) = self.directory.place_at(self.pages, placement, kind, base) else {
            return false;
        };
        if !self.directory.may_be_put(self.pages, &object) {
            return false;
        }
        self.put(slot, into, object);
        true
    }

    /// Allocates this object, zeroed, if the request is granted so where objects may lie anywhere. Else nothing changes.
    pub fn alloc_anywhere(&mut self, slot: Slot, into: Reg, words: u64, object: Extent) -> bool
        ensures yes { IsTrue result → IsAllocatedAnywhere self.old slot into words object.kind object.base object.length self.new }
        ensures no { result ≡ false → CantAllocateAnywhere self.old slot into words object.kind object.base object.length }
        ensures same { result ≡ false → self.new ≡ self.old }
        ensures origin { self.new.origin ≡ self.old.origin }
    {
        let Some(_) = self.mutator(slot) else {
            return false;
        };
        if object.length < words {
            return false;
        }
        if !self.directory.may_be_put(self.pages, &object) {
            return false;
        }
        self.put(slot, into, object);
        true
    }

    /// Frees the object whose base a register has.
    pub fn free(&mut self, slot: Slot, at: Reg) -> Result<(), Refusal>
        ensures step { IsStep (StandsFor self.old) (Event.Mutator slot (Call.Free at)) (done_reply result) (StandsFor self.new) }
        ensures origin { self.new.origin ≡ self.old.origin }
    {
        let mutator = self.roots.attached(slot)?;
        let address = mutator.word(at);
        let index = self.directory.index_at(address).ok_or(Refusal::NoObject)?;
        if self.directory.object(index).base != address {
            return Err(Refusal::NotBase);
        }
        let _freed = self.directory.remove(index);
        take_along(&mut self.words, &self.directory, &mut self.links);
        Ok(())
    }

    /// Sets a register to the base of the object that a register points into.
    pub fn base(&mut self, slot: Slot, into: Reg, at: Reg) -> Result<u64, Refusal>
        ensures step { IsStep (StandsFor self.old) (Event.Mutator slot (Call.Base into at)) (word_reply result) (StandsFor self.new) }
        ensures origin { self.new.origin ≡ self.old.origin }
    {
        let mutator = self.roots.attached(slot)?;
        let word = mutator.word(at);
        let object = self.directory.find(word)?;
        self.roots.set_word(slot, into, object.base);
        Ok(object.base)
    }

    /// The length in words of the object that a register points into.
    pub fn size(&self, slot: Slot, at: Reg) -> Result<u64, Refusal>
        ensures { IsStep (StandsFor self.now) (Event.Mutator slot (Call.Size at)) (count_reply result) (StandsFor self.now) }
    {
        let mutator = self.roots.attached(slot)?;
        let word = mutator.word(at);
        let object = self.directory.find(word)?;
        Ok(object.length)
    }
}
