//! What a call would be answered, told without making it.
ghost use Rattle.std.specs.Prelude.{ℕ, IfSome, IfNone};
ghost use Rattle.heap_spec.specs.Heap.{Mutator as HeapMutator};
ghost use Rattle.roots.specs.Roots.{HasMutator, HasNoMutator};
ghost use Rattle.plain_heap.specs.PlainContents.{PlainContents, IsLaidOut};
ghost use Rattle.plain_heap.specs.Answering.{FindsExtent, HoldsWord, FindsNothing, MayAnswer, CanAnswer, CanAttach};

use super::PlainHeap;
use crate::extent::Extent;
use crate::owners::word_index;
use heap_spec::{Call, Reply};
use links::is_normal;
use roots::Mutator;
use words::limits::WORD_BYTES;
use words::{Global, Kind, Refusal, Reg, Slot};

// What a push would be answered.
fn push_answer(mutator: &Mutator) -> Reply
    ensures { (c : PlainContents) (from : ℕ) → MayAnswer c mutator.now (Call.Push from) result }
{
    if mutator.is_full() {
        return Reply::Refused(Refusal::StackFull);
    }
    Reply::Done
}

// What a pop would be answered.
fn pop_answer(mutator: &Mutator) -> Reply
    ensures { (c : PlainContents) (into : ℕ) → MayAnswer c mutator.now (Call.Pop into) result }
{
    let Some(word) = mutator.top() else {
        return Reply::Refused(Refusal::StackEmpty);
    };
    Reply::Word(word)
}

impl PlainHeap {
    // What is true of every plain heap.
    pub(super) fn laws(&self)
        ensures { IsLaidOut self.now }
    {
        let _pages = &self.pages;
    }

    // The mutator of a slot.
    pub(super) fn mutator(&self, slot: Slot) -> Option<&Mutator>
        ensures some { IfSome result (λ m. HasMutator self.now.roots slot m.now) }
        ensures none { IfNone result (HasNoMutator self.now.roots slot) }
    {
        self.roots.mutator(slot)
    }

    // The object that an address points into.
    pub(super) fn found(&self, address: u64) -> Option<Extent>
        ensures some { IfSome result (λ e. FindsExtent self.now address e) }
        ensures none { IfNone result (FindsNothing self.now address) }
    {
        self.directory.object_at(address)
    }

    // The word at an address that points into an object.
    pub(super) fn word_at(&self, address: u64) -> Option<u64>
        ensures some { IfSome result (λ w. HoldsWord self.now address w) }
        ensures none { IfNone result (FindsNothing self.now address) }
    {
        self.directory.object_at(address)?;
        let position = word_index(self.directory.origin, address);
        Some(self.words[position])
    }

    // What a load would be answered.
    fn load_answer(&self, mutator: &Mutator, at: Reg, offset: u64) -> Reply
        ensures { (into : ℕ) → MayAnswer self.now mutator.now (Call.Load into at offset) result }
    {
        let address = mutator.address(at, offset);
        if address % WORD_BYTES != 0 {
            return Reply::Refused(Refusal::Misaligned);
        }
        let Some(word) = self.word_at(address) else {
            return Reply::Refused(Refusal::NoObject);
        };
        Reply::Word(word)
    }

    // What a store would be answered.
    fn store_answer(&self, mutator: &Mutator, at: Reg, offset: u64) -> Reply
        ensures { (from : ℕ) → MayAnswer self.now mutator.now (Call.Store at offset from) result }
    {
        let address = mutator.address(at, offset);
        if address % WORD_BYTES != 0 {
            return Reply::Refused(Refusal::Misaligned);
        }
        let Some(_object) = self.found(address) else {
            return Reply::Refused(Refusal::NoObject);
        };
        Reply::Done
    }

    // What a request for an object would be answered.
    fn alloc_answer(&self, words: u64, kind: Kind) -> Reply
        ensures { (m : HeapMutator) (into : ℕ) → MayAnswer self.now m (Call.Alloc into words kind) result }
    {
        let Some(placement) = self.roots.placement(words) else {
            return Reply::Refused(Refusal::BadSize);
        };
        let Some(_object) = self.directory.place_for(self.pages, placement, kind) else {
            return Reply::Refused(Refusal::Full);
        };
        Reply::Done
    }

    // What the freeing of an object would be answered.
    fn free_answer(&self, mutator: &Mutator, at: Reg) -> Reply
        ensures { MayAnswer self.now mutator.now (Call.Free at) result }
    {
        let address = mutator.word(at);
        let Some(object) = self.found(address) else {
            return Reply::Refused(Refusal::NoObject);
        };
        if object.base != address {
            return Reply::Refused(Refusal::NotBase);
        }
        Reply::Done
    }

    // What a question for a base would be answered.
    fn base_answer(&self, mutator: &Mutator, from: Reg) -> Reply
        ensures { (into : ℕ) → MayAnswer self.now mutator.now (Call.Base into from) result }
    {
        let word = mutator.word(from);
        let Some(object) = self.found(word) else {
            return Reply::Refused(Refusal::NoObject);
        };
        Reply::Word(object.base)
    }

    // What a question for a length would be answered.
    fn size_answer(&self, mutator: &Mutator, at: Reg) -> Reply
        ensures { MayAnswer self.now mutator.now (Call.Size at) result }
    {
        let word = mutator.word(at);
        let Some(object) = self.found(word) else {
            return Reply::Refused(Refusal::NoObject);
        };
        Reply::Count(object.length)
    }

    // What a question for a global would be answered.
    fn global_answer(&self, global: Global) -> Reply
        ensures { (m : HeapMutator) (into : ℕ) → MayAnswer self.now m (Call.GlobalGet into global) result }
    {
        Reply::Word(self.roots.global(global))
    }

    // What a link would be answered.
    fn link_answer(&self, mutator: &Mutator, at: Reg, offset: u64, to: Reg) -> Reply
        ensures { MayAnswer self.now mutator.now (Call.Link at offset to) result }
    {
        let address = mutator.address(at, offset);
        let word = mutator.word(to);
        if address % WORD_BYTES != 0 {
            return Reply::Refused(Refusal::Misaligned);
        }
        let Some(holder) = self.found(address) else {
            return Reply::Refused(Refusal::NoObject);
        };
        if is_normal(holder.kind) {
            return Reply::Refused(Refusal::NotPointerFree);
        }
        let Some(_named) = self.found(word) else {
            return Reply::Refused(Refusal::NoObject);
        };
        if !self.links.has_room(address) {
            return Reply::Refused(Refusal::LinksFull);
        }
        Reply::Done
    }

    // What the taking away of a link would be answered.
    fn unlink_answer(&self, mutator: &Mutator, at: Reg, offset: u64) -> Reply
        ensures { MayAnswer self.now mutator.now (Call.Unlink at offset) result }
    {
        let address = mutator.address(at, offset);
        if !self.links.has(address) {
            return Reply::Count(0);
        }
        Reply::Count(1)
    }

    // What a call of an attached mutator would be answered.
    fn mutator_answer(&self, mutator: &Mutator, call: Call) -> Reply
        ensures { MayAnswer self.now mutator.now call result }
    {
        match call {
            Call::Detach => Reply::Done,
            Call::Set(_, _) => Reply::Done,
            Call::Copy(_, _) => Reply::Done,
            Call::Add(_, _, _) => Reply::Done,
            Call::Sub(_, _, _) => Reply::Done,
            Call::Get(register) => Reply::Word(mutator.word(register)),
            Call::Push(_) => push_answer(mutator),
            Call::Pop(_) => pop_answer(mutator),
            Call::Load(_, at, offset) => self.load_answer(mutator, at, offset),
            Call::Store(at, offset, _) => self.store_answer(mutator, at, offset),
            Call::Alloc(_, words, kind) => self.alloc_answer(words, kind),
            Call::Free(at) => self.free_answer(mutator, at),
            Call::Base(_, from) => self.base_answer(mutator, from),
            Call::Size(at) => self.size_answer(mutator, at),
            Call::GlobalGet(_, global) => self.global_answer(global),
            Call::GlobalPut(_, _) => Reply::Done,
            Call::Link(at, offset, to) => self.link_answer(mutator, at, offset, to),
            Call::Unlink(at, offset) => self.unlink_answer(mutator, at, offset),
        }
    }

    // What the next mutator that comes would be answered.
    pub(super) fn attach_answer(&self) -> Reply
        ensures { CanAttach self.now result }
    {
        let Some(slot) = self.roots.vacant() else {
            return Reply::Refused(Refusal::NoSlot);
        };
        Reply::Slot(slot)
    }

    // What a call of a slot would be answered.
    pub(super) fn answer(&self, slot: Slot, call: Call) -> Reply
        ensures { CanAnswer self.now slot call result }
    {
        let Some(mutator) = self.mutator(slot) else {
            return Reply::Refused(Refusal::NoSlot);
        };
        self.mutator_answer(mutator, call)
    }
}
