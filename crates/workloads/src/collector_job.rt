//! The collector with its commands, as a job for a thread of its own.
ghost use Rattle.std.specs.Prelude.{◌≡◌, true, All, length};
ghost use Rattle.history.specs.declared.object.TheConstants.{COLLECTOR as collector};
ghost use Rattle.workloads.specs.Workloads.{is_collectors};
ghost use Rattle.workloads.specs.Actors.{Commanded, CommandedAll, CanCommand, HasCommanded};

use crate::mutator_job::call_number;
use each_law::Law;
use final_pause::{COLLECTOR_ACTOR, Gate, Helpers};
use heap_core::quiet::{Mark, Retrace, Roots, Sweep};
use heap_spec::answers::{count, done};
use heap_spec::{Event, Reply};
use history::Naming;
use shared::{Collector, SharedHeap};
use std::alloc::Global;
use std::sync::Wait;
use std::thread::Threads;

/// The collector with its commands, and room for their replies.
#[derive(Drop)]
pub(crate) struct CollectorJob<'a, J: Naming> {
    pub(crate) collector: Collector<J>,
    pub(crate) commands: &'a [Event],
    pub(crate) replies: Vec<Reply>,
}

/// What becomes of the collector's job: its commands are given, in their order.
#[derive(Clone, Copy)]
pub(crate) struct GivesCommands;

impl<'a, J: Naming> Law<CollectorJob<'a, J>> for GivesCommands {
    ghost use Rattle.workloads.specs.Actors.{HasCommanded};

    ghost does = { λ law job done. HasCommanded J.origin job done };
}

/// A heap whose calls go between two calls of a gate, and whose cycles end with so many helpers.
#[derive(Drop)]
pub(crate) struct GatedHeap<'a, J: Naming, R, G> {
    pub(crate) rt: &'a R,
    pub(crate) alloc: Global,
    pub(crate) heap: &'a SharedHeap<J>,
    pub(crate) helpers: Helpers,
    pub(crate) gate: &'a G,
}

impl<'a, J: Naming, R: Threads + Wait + Sync, G: Gate> GatedHeap<'a, J, R, G> {
    // One command of the collector.
    fn command(&self, me: &mut Collector<J>, command: Event) -> Reply
        requires slot { me.old.slot ≡ collector }
        requires own { is_collectors command ≡ true }
        ensures { Commanded J.origin me.old command result me.new }
    {
        let (rt, heap) = (self.rt, self.heap);
        match command {
            Event::Begin => done(heap.begin(rt, me)),
            Event::BeginPartial => done(heap.begin_partial(rt, me)),
            Event::Roots => done(heap.quiet(rt, me, &mut Roots)),
            Event::Mark(most) => count(heap.quiet(rt, me, &mut Mark(most))),
            Event::Retrace => count(heap.quiet(rt, me, &mut Retrace)),
            Event::Finish => {
                count(heap.finish_with(rt, self.alloc, me, self.helpers, self.gate))
            }
            Event::Sweep => count(heap.quiet(rt, me, &mut Sweep)),
            Event::Collect => Reply::Count(heap.collect(rt, me)),
            Event::Number => Reply::Count(heap.gc_no_of(me)),
            Event::Attach | Event::Mutator(_, _) => unreachable!(),
        }
    }

    // One command, between two calls of the gate.
    fn give(&self, number: u32, me: &mut Collector<J>, given: Event) -> Reply
        requires slot { me.old.slot ≡ collector }
        requires own { is_collectors given ≡ true }
        ensures { Commanded J.origin me.old given result me.new }
    {
        self.gate.before(COLLECTOR_ACTOR, number);
        let reply = self.command(me, given);
        self.gate.after(COLLECTOR_ACTOR, number);
        reply
    }

    // Gives the commands in their order, and notes their replies.
    fn give_all(&self, me: &mut Collector<J>, commands: &[Event], replies: &mut [Reply])
        requires slot { me.old.slot ≡ collector }
        requires own { All (λ command. is_collectors command ≡ true) commands.now }
        requires room { length replies.old ≡ length commands.now }
        ensures room { length replies.new ≡ length commands.now }
        ensures commanded { CommandedAll J.origin me.old commands.now replies.new me.new }
    {
        for i in 0..commands.len() {
            replies[i] = self.give(call_number(i), me, commands[i]);
        }
    }

    /// Runs the collector's job to its end.
    pub(crate) fn run<'b>(&self, job: CollectorJob<'b, J>) -> CollectorJob<'b, J>
        requires { CanCommand job }
        ensures { HasCommanded J.origin job.entry result }
    {
        let CollectorJob {
            mut collector,
            commands,
            mut replies,
        } = job;
        self.give_all(&mut collector, commands, replies.as_mut_slice());
        CollectorJob {
            collector,
            commands,
            replies,
        }
    }
}
