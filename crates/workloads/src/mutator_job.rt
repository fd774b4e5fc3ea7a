//! A mutator with its calls, as a job for a thread of its own.
ghost use Rattle.std.specs.Prelude.{◌≡◌, ◌%◌, ◌^◌, All, length};
ghost use mathlib.Core.List.{IsPrefix};
ghost use Rattle.heap_history.specs.Headline.{Makes};
ghost use Rattle.heap_history.specs.Passes.{IsLegalPass};
ghost use Rattle.shared.specs.WhileAttached.{IsNoDetach};
ghost use Rattle.workloads.specs.Actors.{Called, Keeps, CanCall, HasCalled};

use each_law::Law;
use final_pause::Gate;
use heap_spec::{Call, Reply};
use history::Naming;
use shared::{Collector, Mutator, SharedHeap};
use std::marker::Model;
use std::sync::Wait;
use words::Slot;

/// A mutator that is detached where it is dropped: so every way out of a run detaches it. Contracts see its pass.
pub(crate) struct Attached<'a, J: Naming, R: Wait> {
    pub(crate) rt: &'a R,
    pub(crate) heap: &'a SharedHeap<J>,
    pub(crate) me: Mutator<J>,
}

impl<'a, J: Naming, R: Wait> Model for Attached<'a, J, R> {
    ghost use Rattle.heap_history.specs.Passes.{HeapPass};

    ghost Value = { HeapPass };

    ghost view = { λ a. a.me };
}

impl<'a, J: Naming, R: Wait> Drop for Attached<'a, J, R> {
    fn drop(self) {
        let Self { rt, heap, me } = self;
        heap.detach(rt, me);
    }
}

/// A mutator with its calls, and room for their replies.
#[derive(Drop)]
pub(crate) struct MutatorJob<'a, J: Naming, R: Wait> {
    pub(crate) attached: Attached<'a, J, R>,
    pub(crate) calls: &'a [Call],
    pub(crate) replies: Vec<Reply>,
}

impl<'a, J: Naming, R: Wait> MutatorJob<'a, J, R> {
    /// The replies that it has. Its mutator is detached.
    pub(crate) fn into_replies(self) -> Vec<Reply>
        ensures { result ≡ self.entry.replies }
    {
        let MutatorJob {
            attached: _,
            calls: _,
            replies,
        } = self;
        replies
    }
}

/// What becomes of a mutator's job: its calls are made, in their order.
#[derive(Clone, Copy)]
pub(crate) struct MakesCalls;

impl<'a, J: Naming, R: Wait> Law<MutatorJob<'a, J, R>> for MakesCalls {
    ghost use Rattle.workloads.specs.Actors.{HasCalled};

    ghost does = { λ law job done. HasCalled job done };
}

/// An actor's call has this number for the gate: its index among the actor's lines, modulo 2^32.
pub(crate) fn call_number(index: usize) -> u32
    ensures { result ≡ index % 2 ^ 32 }
{
    (index % (1 << u32::BITS)) as u32
}

// A heap whose calls go between two calls of a gate.
#[derive(Drop)]
struct Gated<'a, J: Naming, R, G> {
    rt: &'a R,
    heap: &'a SharedHeap<J>,
    gate: &'a G,
}

impl<'a, J: Naming, R: Wait, G: Gate> Gated<'a, J, R, G> {
    // One call, between two calls of the gate.
    fn make(&self, number: u32, me: &mut Mutator<J>, call: Call) -> Reply
        requires { IsNoDetach call }
        ensures { Makes J.origin me.old call result me.new }
    {
        let actor = me.slot().number();
        self.gate.before(actor, number);
        let reply = self.heap.call(self.rt, me, call);
        self.gate.after(actor, number);
        reply
    }

    // Makes the calls in their order, and notes their replies.
    fn make_all(&self, me: &mut Mutator<J>, calls: &[Call], replies: &mut [Reply])
        requires plain { All IsNoDetach calls.now }
        requires room { length replies.old ≡ length calls.now }
        ensures room { length replies.new ≡ length calls.now }
        ensures called { Called me.old calls.now replies.new me.new }
    {
        for i in 0..calls.len() {
            replies[i] = self.make(call_number(i), me, calls[i]);
        }
    }
}

impl<'a, J: Naming, R: Wait> Attached<'a, J, R> {
    /// The mutator's slot.
    pub(crate) fn slot(&self) -> Slot
        ensures { result ≡ self.now.slot }
    {
        self.me.slot()
    }

    /// Both have then seen what one of them had.
    pub(crate) fn meet(&mut self, collector: &mut Collector<J>)
        ensures keeps { Keeps self.old self.new }
        ensures both { self.new.seen ≡ collector.new.seen }
        ensures collector { Keeps collector.old collector.new }
        ensures grows { IsPrefix collector.old.seen collector.new.seen }
        ensures stays { IsPrefix self.old.seen collector.old.seen → collector.new.seen ≡ collector.old.seen }
        ensures fine { IsLegalPass J.origin self.new }
        ensures collector_fine { IsLegalPass J.origin collector.new }
    {
        self.heap.meet_collector(&mut self.me, collector);
    }

    // Makes the calls in their order, and notes their replies.
    fn make<G: Gate>(&mut self, gate: &G, calls: &[Call], replies: &mut [Reply])
        requires plain { All IsNoDetach calls.now }
        requires room { length replies.old ≡ length calls.now }
        ensures room { length replies.new ≡ length calls.now }
        ensures called { Called self.old calls.now replies.new self.new }
    {
        let gated = Gated {
            rt: self.rt,
            heap: self.heap,
            gate,
        };
        gated.make_all(&mut self.me, calls, replies);
    }
}

/// Runs the job to its end.
pub(crate) fn run_mutator<'a, J: Naming, R: Wait, G: Gate>(
    gate: &G,
    job: MutatorJob<'a, J, R>,
) -> MutatorJob<'a, J, R>
    requires { CanCall job }
    ensures { HasCalled job.entry result }
{
    let MutatorJob {
        mut attached,
        calls,
        mut replies,
    } = job;
    attached.make(gate, calls, replies.as_mut_slice());
    MutatorJob {
        attached,
        calls,
        replies,
    }
}
