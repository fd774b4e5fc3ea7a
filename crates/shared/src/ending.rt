//! The end of a cycle: the collector alone, or with helpers.
ghost use Rattle.std.specs.Prelude.{true};
ghost use Rattle.std.specs.Fn.{FnOnceReturnsAtMut};
ghost use Rattle.heap_spec.specs.declared.event.Event.TheVariants.{Finish};
ghost use Rattle.heap_spec.specs.declared.reply.Reply.TheVariants.{Count};
ghost use Rattle.history.specs.Objects.{KeepsStates};
ghost use Rattle.heap_core.specs.AsObject.{Stands};
ghost use Rattle.heap_core.specs.Collections.{ClosesMarks, IsGrantedInPhase};
ghost use Rattle.heap_history.specs.Headline.{IsGrantedByOwnEvents};

use crate::heap::SharedHeap;
use crate::replies::count_result;
use crate::tokens::Collector;
use final_pause::{Gate, Helpers};
use heap_core::Core;
use heap_spec::Event;
use history::Naming;
use std::alloc::Global;
use std::sync::Wait;
use std::thread::Threads;
use words::Refusal;

impl<J: Naming> SharedHeap<J> {
    /// Ends the cycle, and answers how many objects it forgot.
    ///
    /// # Errors
    /// [`Refusal::WrongPhase`] exactly while none is marking, which the collector's own events tell.
    pub fn finish(&self, rt: &impl Wait, me: &mut Collector<J>) -> Result<u64, Refusal>
        ensures { IsGrantedByOwnEvents true J.origin me.old Finish Count result me.new }
    {
        self.finish_after(rt, me, |_core| Ok(()))
    }

    /// Ends the cycle as `finish` does, but what is left to mark is marked with helpers at the same time, the last of them on the
    /// calling thread, all under one hold of the lock. Where memory or a thread is refused, the calling thread marks alone, and the answer is the same.
    ///
    /// # Errors
    /// [`Refusal::WrongPhase`] exactly while none is marking, which the collector's own events tell.
    pub fn finish_with<R: Threads + Wait + Sync, G: Gate>(
        &self,
        rt: &R,
        alloc: Global,
        me: &mut Collector<J>,
        helpers: Helpers,
        gate: &G,
    ) -> Result<u64, Refusal>
        ensures { IsGrantedByOwnEvents true J.origin me.old Finish Count result me.new }
    {
        let close = |core: &mut Core| -> Result<(), Refusal>
            ensures { IsGrantedInPhase true core.old result core.new (λ _. ClosesMarks core.old core.new) }
        { core.close_with(rt, alloc, helpers, gate) };
        self.finish_after(rt, me, close)
    }

    // Ends the cycle, after work that is no event.
    fn finish_after<F: FnOnce(&mut Core) -> Result<(), Refusal>>(
        &self,
        rt: &impl Wait,
        me: &mut Collector<J>,
        work: F,
    ) -> Result<u64, Refusal>
        requires can { F.IsAlwaysCallable work }
        requires keeps { KeepsStates Stands (FnOnceReturnsAtMut F.FnOnce work) }
        ensures { IsGrantedByOwnEvents true J.origin me.old Finish Count result me.new }
    {
        let mut guard = self.lock.lock(rt);
        let held = &mut *guard;
        held.learn(&self.log, &mut me.pass);
        if !held.object().is_marking() {
            return Err(Refusal::WrongPhase);
        }
        let _answer = held.quiet_by(work);
        count_result(held.act(&self.log, &mut me.pass, &Event::Finish))
    }
}
