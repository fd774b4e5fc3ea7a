//! The calls of the collector. Granted ones are events; `quiet` and refused ones are none.
ghost use Rattle.std.specs.Prelude.{◌≡◌, false};
ghost use Rattle.heap_spec.specs.declared.event.Event.TheVariants.{Begin, Collect};
ghost use Rattle.heap_spec.specs.declared.reply.Reply.TheVariants.{Done, Count};
ghost use Rattle.heap_core.specs.CoreContents.{CoreContents};
ghost use Rattle.heap_history.specs.Passes.{is_marking};
ghost use Rattle.heap_history.specs.Headline.{Extends, Looks, IsGrantedByOwnEvents, BeginsPartialByEvents};
ghost use Rattle.shared.specs.Lending.{IsLent};

use crate::heap::SharedHeap;
use crate::tokens::Collector;
use heap_core::Core;
use heap_spec::{Event, Reply};
use history::{Naming, Quiet};
use std::sync::Wait;
use words::Refusal;

impl<J: Naming> SharedHeap<J> {
    /// Begins a cycle.
    ///
    /// # Errors
    /// [`Refusal::WrongPhase`] exactly while one is marking, which the collector's own events tell.
    pub fn begin(&self, rt: &impl Wait, me: &mut Collector<J>) -> Result<(), Refusal>
        ensures { IsGrantedByOwnEvents false J.origin me.old Begin (λ _. Done) result me.new }
    {
        let mut guard = self.lock.lock(rt);
        let held = &mut *guard;
        held.learn(&self.log, &mut me.pass);
        if held.object().is_marking() {
            return Err(Refusal::WrongPhase);
        }
        held.act(&self.log, &mut me.pass, &Event::Begin);
        Ok(())
    }

    /// Begins a cycle with the marks of the last one.
    ///
    /// # Errors
    /// [`Refusal::WrongPhase`] exactly while one is marking, which the collector's own events tell, and else
    /// [`Refusal::NeedsFull`] exactly where a full cycle is needed, which all the events tell that the collector has then
    /// seen.
    pub fn begin_partial(&self, rt: &impl Wait, me: &mut Collector<J>) -> Result<(), Refusal>
        ensures { BeginsPartialByEvents J.origin me.old result me.new }
    {
        let mut guard = self.lock.lock(rt);
        let held = &mut *guard;
        held.learn(&self.log, &mut me.pass);
        let core = held.object();
        if core.is_marking() {
            return Err(Refusal::WrongPhase);
        }
        if core.needs_full() {
            return Err(Refusal::NeedsFull);
        }
        held.act(&self.log, &mut me.pass, &Event::BeginPartial);
        Ok(())
    }

    /// Collects in full, in any phase, and answers how many objects it forgot.
    pub fn collect(&self, rt: &impl Wait, me: &mut Collector<J>) -> u64
        ensures { Extends J.origin me.old Collect (Count result) me.new }
    {
        let mut guard = self.lock.lock(rt);
        let held = &mut *guard;
        held.learn(&self.log, &mut me.pass);
        let _object = held.object();
        match held.act(&self.log, &mut me.pass, &Event::Collect) {
            Reply::Count(count) => count,
            _ => unreachable!(),
        }
    }

    /// Runs the caller's own work, which is no event, on the core, under the lock; that core stands for where the history leads which
    /// the collector has then seen, and is marking exactly if its own events say so. What is true of every core is true of
    /// it before and after: while it is marking, the dirty-page invariant holds.
    pub fn quiet<Q: Quiet<Core>>(
        &self,
        rt: &impl Wait,
        me: &mut Collector<J>,
        work: &mut Q,
    ) -> Q::Answer
        ensures gives { (before : CoreContents) × (after : CoreContents) × Q.gives work.old before result work.new after × (before.cycle.is_marking ≡ is_marking me.old.mine)
            × IsLent J.origin me.new.seen before after }
        ensures looks { Looks J.origin me.old me.new }
    {
        let mut guard = self.lock.lock(rt);
        let held = &mut *guard;
        held.learn(&self.log, &mut me.pass);
        held.object().laws();
        let answer = held.quiet(work);
        held.object().laws();
        answer
    }
}
