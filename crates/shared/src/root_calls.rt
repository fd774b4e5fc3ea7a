//! The calls of mutators that touch registers, stacks and globals alone, as those of `calls.rt` are made.
ghost use Rattle.heap_spec.specs.Replies.{done_reply, word_reply};
ghost use Rattle.heap_history.specs.Headline.{Makes};

use crate::heap::SharedHeap;
use crate::replies::{done_result, word_result};
use crate::tokens::Mutator;
use heap_spec::Call;
use history::Naming;
use std::sync::Wait;
use words::{Global, Refusal, Reg};

impl<J: Naming> SharedHeap<J> {
    /// Puts a word into a register.
    ///
    /// # Errors
    /// Never.
    pub fn set(
        &self,
        rt: &impl Wait,
        me: &mut Mutator<J>,
        into: Reg,
        value: u64,
    ) -> Result<(), Refusal>
        ensures { Makes J.origin me.old (Call.Set into value) (done_reply result) me.new }
    {
        done_result(self.call(rt, me, Call::Set(into, value)))
    }

    /// Puts the word of `from` into `into`.
    ///
    /// # Errors
    /// Never.
    pub fn copy(
        &self,
        rt: &impl Wait,
        me: &mut Mutator<J>,
        into: Reg,
        from: Reg,
    ) -> Result<(), Refusal>
        ensures { Makes J.origin me.old (Call.Copy into from) (done_reply result) me.new }
    {
        done_result(self.call(rt, me, Call::Copy(into, from)))
    }

    /// Puts the word of `from` and a number, added modulo 2^64, into `into`.
    ///
    /// # Errors
    /// Never.
    pub fn add(
        &self,
        rt: &impl Wait,
        me: &mut Mutator<J>,
        into: Reg,
        from: Reg,
        number: u64,
    ) -> Result<(), Refusal>
        ensures { Makes J.origin me.old (Call.Add into from number) (done_reply result) me.new }
    {
        done_result(self.call(rt, me, Call::Add(into, from, number)))
    }

    /// Puts the word of `from` less that of `less`, modulo 2^64, into `into`.
    ///
    /// # Errors
    /// Never.
    pub fn sub(
        &self,
        rt: &impl Wait,
        me: &mut Mutator<J>,
        into: Reg,
        from: Reg,
        less: Reg,
    ) -> Result<(), Refusal>
        ensures { Makes J.origin me.old (Call.Sub into from less) (done_reply result) me.new }
    {
        done_result(self.call(rt, me, Call::Sub(into, from, less)))
    }

    /// The word of a register.
    ///
    /// # Errors
    /// Never.
    pub fn get(&self, rt: &impl Wait, me: &mut Mutator<J>, from: Reg) -> Result<u64, Refusal>
        ensures { Makes J.origin me.old (Call.Get from) (word_reply result) me.new }
    {
        word_result(self.call(rt, me, Call::Get(from)))
    }

    /// Puts the word of a register on the stack.
    ///
    /// # Errors
    /// [`Refusal::StackFull`] if the stack has no room for another word.
    pub fn push(&self, rt: &impl Wait, me: &mut Mutator<J>, from: Reg) -> Result<(), Refusal>
        ensures { Makes J.origin me.old (Call.Push from) (done_reply result) me.new }
    {
        done_result(self.call(rt, me, Call::Push(from)))
    }

    /// Takes the top word off the stack into a register.
    ///
    /// # Errors
    /// [`Refusal::StackEmpty`] if the stack has no word.
    pub fn pop(&self, rt: &impl Wait, me: &mut Mutator<J>, into: Reg) -> Result<u64, Refusal>
        ensures { Makes J.origin me.old (Call.Pop into) (word_reply result) me.new }
    {
        word_result(self.call(rt, me, Call::Pop(into)))
    }

    /// Puts the word of a global into a register.
    ///
    /// # Errors
    /// Never.
    pub fn gget(
        &self,
        rt: &impl Wait,
        me: &mut Mutator<J>,
        into: Reg,
        global: Global,
    ) -> Result<u64, Refusal>
        ensures { Makes J.origin me.old (Call.GlobalGet into global) (word_reply result) me.new }
    {
        word_result(self.call(rt, me, Call::GlobalGet(into, global)))
    }

    /// Puts the word of a register into a global.
    ///
    /// # Errors
    /// Never.
    pub fn gput(
        &self,
        rt: &impl Wait,
        me: &mut Mutator<J>,
        global: Global,
        from: Reg,
    ) -> Result<(), Refusal>
        ensures { Makes J.origin me.old (Call.GlobalPut global from) (done_reply result) me.new }
    {
        done_result(self.call(rt, me, Call::GlobalPut(global, from)))
    }
}
