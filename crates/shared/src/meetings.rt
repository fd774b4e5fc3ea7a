//! The calls that take no lock and wait for nobody.
ghost use Rattle.std.specs.Prelude.{◌≡◌, ◌≢◌, ◌%◌, ◌^◌, ◌⊎◌};
ghost use mathlib.Core.List.{IsPrefix};
ghost use Rattle.history.specs.Histories.{count, GrowsByOthers};
ghost use Rattle.history.specs.Passes.{longer};
ghost use Rattle.heap_history.specs.Ranks.{rank_of};
ghost use Rattle.heap_history.specs.Passes.{IsLegalPass};
ghost use Rattle.heap_history.specs.Headline.{Looks};

use crate::heap::SharedHeap;
use crate::tokens::{Collector, Departed, Mutator};
use history::Naming;

impl<J: Naming> SharedHeap<J> {
    /// How many collections were granted in the history that the mutator has then seen, modulo 2^64.
    pub fn gc_no(&self, me: &mut Mutator<J>) -> u64
        ensures looks { Looks J.origin me.old me.new }
        ensures count { result ≡ count rank_of me.new.seen % 2 ^ 64 }
    {
        self.log.count(&mut me.pass)
    }

    /// How many collections were granted, modulo 2^64, which the collector's own events tell.
    pub fn gc_no_of(&self, collector: &mut Collector<J>) -> u64
        ensures looks { Looks J.origin collector.old collector.new }
        ensures count { result ≡ count rank_of collector.new.mine % 2 ^ 64 }
    {
        self.log.count(&mut collector.pass)
    }

    /// Both have then seen what one of them had.
    pub fn meet(&self, a: &mut Mutator<J>, b: &mut Mutator<J>)
        ensures apart { a.old.slot ≢ b.old.slot }
        ensures one { GrowsByOthers a.old.slot a.old.seen b.old.seen ⊎ GrowsByOthers b.old.slot b.old.seen a.old.seen }
        ensures a { a.new ≡ record { slot = a.old.slot; seen = longer a.old.seen b.old.seen; mine = a.old.mine } }
        ensures b { b.new ≡ record { slot = b.old.slot; seen = longer a.old.seen b.old.seen; mine = b.old.mine } }
        ensures a_legal { IsLegalPass J.origin a.new }
        ensures b_legal { IsLegalPass J.origin b.new }
    {
        self.log.meet(&mut a.pass, &mut b.pass);
    }

    /// Both have then seen what one of them had.
    pub fn meet_collector(&self, me: &mut Mutator<J>, collector: &mut Collector<J>)
        ensures one { GrowsByOthers me.old.slot me.old.seen collector.old.seen ⊎ GrowsByOthers collector.old.slot collector.old.seen me.old.seen }
        ensures me { me.new ≡ record { slot = me.old.slot; seen = longer me.old.seen collector.old.seen; mine = me.old.mine } }
        ensures collector { collector.new ≡ record { slot = collector.old.slot; seen = longer me.old.seen collector.old.seen; mine = collector.old.mine } }
        ensures me_fine { IsLegalPass J.origin me.new }
        ensures collector_fine { IsLegalPass J.origin collector.new }
    {
        self.log.meet(&mut me.pass, &mut collector.pass);
    }

    /// The mutator has then seen all that the other had when it left.
    pub fn hear(&self, me: &mut Mutator<J>, gone: &mut Departed<J>)
        ensures one { GrowsByOthers me.old.slot me.old.seen gone.old.seen ⊎ IsPrefix gone.old.seen me.old.seen }
        ensures me { me.new ≡ record { slot = me.old.slot; seen = longer me.old.seen gone.old.seen; mine = me.old.mine } }
        ensures gone { gone.new ≡ gone.old }
        ensures fine { IsLegalPass J.origin me.new }
    {
        self.log.hear(&mut me.pass, &mut gone.past);
    }

    /// The collector has then seen all that the mutator had when it left.
    pub fn hear_of(&self, collector: &mut Collector<J>, gone: &mut Departed<J>)
        ensures one { GrowsByOthers collector.old.slot collector.old.seen gone.old.seen ⊎ IsPrefix gone.old.seen collector.old.seen }
        ensures collector { collector.new ≡ record { slot = collector.old.slot; seen = longer collector.old.seen gone.old.seen; mine = collector.old.mine } }
        ensures gone { gone.new ≡ gone.old }
        ensures fine { IsLegalPass J.origin collector.new }
    {
        self.log.hear(&mut collector.pass, &mut gone.past);
    }
}
