//! The calls of mutators that look at objects; `root_calls.rt` has the others. Each is one event of the history, made under the
//! lock. A refused call leaves the heap as it is, and none is refused with [`Refusal::NoSlot`], since a mutator has its slot
//! until its last call.
ghost use Rattle.heap_spec.specs.Replies.{count_reply, done_reply, word_reply};
ghost use Rattle.heap_history.specs.Headline.{Makes};

use crate::heap::SharedHeap;
use crate::replies::{count_result, done_result, word_result};
use crate::tokens::Mutator;
use heap_spec::Call;
use history::Naming;
use std::sync::Wait;
use words::{Kind, Refusal, Reg};

impl<J: Naming> SharedHeap<J> {
    /// Loads the heap word at the address of `at` and an offset in words into `into`.
    ///
    /// # Errors
    /// [`Refusal::Misaligned`] if the address isn't that of a word, and else [`Refusal::NoObject`] if it points into no object.
    pub fn load(
        &self,
        rt: &impl Wait,
        me: &mut Mutator<J>,
        into: Reg,
        at: Reg,
        offset: u64,
    ) -> Result<u64, Refusal>
        ensures { Makes J.origin me.old (Call.Load into at offset) (word_reply result) me.new }
    {
        word_result(self.call(rt, me, Call::Load(into, at, offset)))
    }

    /// Stores the word of `from` in the heap, at the address of `at` and an offset in words.
    ///
    /// # Errors
    /// As [`SharedHeap::load`].
    pub fn store(
        &self,
        rt: &impl Wait,
        me: &mut Mutator<J>,
        at: Reg,
        offset: u64,
        from: Reg,
    ) -> Result<(), Refusal>
        ensures { Makes J.origin me.old (Call.Store at offset from) (done_reply result) me.new }
    {
        done_result(self.call(rt, me, Call::Store(at, offset, from)))
    }

    /// Allocates an object of at least so many words, all 0, and puts its base into `into`.
    ///
    /// # Errors
    /// [`Refusal::BadSize`] for a request of no words or of more than the limit, and else [`Refusal::Full`] exactly if no address
    /// has room.
    pub fn alloc(
        &self,
        rt: &impl Wait,
        me: &mut Mutator<J>,
        into: Reg,
        words: u64,
        kind: Kind,
    ) -> Result<(), Refusal>
        ensures { Makes J.origin me.old (Call.Alloc into words kind) (done_reply result) me.new }
    {
        done_result(self.call(rt, me, Call::Alloc(into, words, kind)))
    }

    /// Frees the object whose base a register has.
    ///
    /// # Errors
    /// [`Refusal::NoObject`] if the word points into no object, and else [`Refusal::NotBase`] if it isn't the object's base.
    pub fn free(&self, rt: &impl Wait, me: &mut Mutator<J>, at: Reg) -> Result<(), Refusal>
        ensures { Makes J.origin me.old (Call.Free at) (done_reply result) me.new }
    {
        done_result(self.call(rt, me, Call::Free(at)))
    }

    /// Puts the base of the object that `at` points into, into `into`.
    ///
    /// # Errors
    /// [`Refusal::NoObject`] if the word points into no object.
    pub fn base(
        &self,
        rt: &impl Wait,
        me: &mut Mutator<J>,
        into: Reg,
        at: Reg,
    ) -> Result<u64, Refusal>
        ensures { Makes J.origin me.old (Call.Base into at) (word_reply result) me.new }
    {
        word_result(self.call(rt, me, Call::Base(into, at)))
    }

    /// The length in words of the object that a register points into.
    ///
    /// # Errors
    /// As [`SharedHeap::base`].
    pub fn size(&self, rt: &impl Wait, me: &mut Mutator<J>, at: Reg) -> Result<u64, Refusal>
        ensures { Makes J.origin me.old (Call.Size at) (count_reply result) me.new }
    {
        count_result(self.call(rt, me, Call::Size(at)))
    }

    /// Makes the word at the address of `at` and an offset in words a link to the object that `to` points into.
    ///
    /// # Errors
    /// As `Core::link` of `heap_core`, but never NoSlot.
    pub fn link(
        &self,
        rt: &impl Wait,
        me: &mut Mutator<J>,
        at: Reg,
        offset: u64,
        to: Reg,
    ) -> Result<(), Refusal>
        ensures { Makes J.origin me.old (Call.Link at offset to) (done_reply result) me.new }
    {
        done_result(self.call(rt, me, Call::Link(at, offset, to)))
    }

    /// Takes the link at the address of `at` and an offset in words away. Answers 1 if one stood there, and else 0.
    ///
    /// # Errors
    /// Never.
    pub fn unlink(
        &self,
        rt: &impl Wait,
        me: &mut Mutator<J>,
        at: Reg,
        offset: u64,
    ) -> Result<u64, Refusal>
        ensures { Makes J.origin me.old (Call.Unlink at offset) (count_reply result) me.new }
    {
        count_result(self.call(rt, me, Call::Unlink(at, offset)))
    }
}
