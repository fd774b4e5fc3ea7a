//! How many mutators came: by this number a caller knows that no other did.
ghost use Rattle.std.specs.Prelude.{◌≡◌};
ghost use Rattle.history.specs.Histories.{counted_up};
ghost use Rattle.heap_history.specs.Alone.{attaches};
ghost use Rattle.heap_history.specs.Headline.{Looks};
ghost use Rattle.shared.specs.Journals.{IsOf};

use crate::heap::SharedHeap;
use crate::journal::Journal;
use crate::tokens::{Collector, Mutator};
use heap_core::Core;
use history::{Naming, Pass};
use std::sync::Wait;

impl<J: Naming> SharedHeap<J> {
    /// How many mutators came in the history that the mutator has then seen, itself and those that went again among them,
    /// and 2^64 - 1 where so many or more did.
    pub fn attaches(&self, rt: &impl Wait, me: &mut Mutator<J>) -> u64
        ensures looks { Looks J.origin me.old me.new }
        ensures count { result ≡ counted_up (attaches me.new.seen) }
    {
        self.came(rt, &mut me.pass)
    }

    /// How many mutators came in the history that the collector has then seen, those that went again among them, and
    /// 2^64 - 1 where so many or more did.
    pub fn attaches_of(&self, rt: &impl Wait, collector: &mut Collector<J>) -> u64
        ensures looks { Looks J.origin collector.old collector.new }
        ensures count { result ≡ counted_up (attaches collector.new.seen) }
    {
        self.came(rt, &mut collector.pass)
    }

    /// What `attaches_of` answers, and the journal of the history that the collector has then seen, of which none is kept from then on.
    pub fn take_journal(&self, rt: &impl Wait, collector: &mut Collector<J>) -> (u64, Journal)
        ensures looks { Looks J.origin collector.old collector.new }
        ensures count { result.0 ≡ counted_up (attaches collector.new.seen) }
        ensures journal { IsOf result.1 collector.new.seen }
    {
        let mut guard = self.lock.lock(rt);
        let held = &mut *guard;
        held.learn(&self.log, &mut collector.pass);
        let came = held.firsts();
        (came, held.take_journal())
    }

    // The pass sees the whole history, and how many mutators came in it.
    fn came(&self, rt: &impl Wait, pass: &mut Pass<Core, J>) -> u64
        ensures looks { Looks J.origin pass.old pass.new }
        ensures count { result ≡ counted_up (attaches pass.new.seen) }
    {
        let mut guard = self.lock.lock(rt);
        let held = &mut *guard;
        held.learn(&self.log, pass);
        held.firsts()
    }
}
