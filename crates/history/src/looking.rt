//! The calls that are no events: a pass learns more of the history, which stays as it is. Each has one load by which it learns.
ghost use Rattle.std.specs.Prelude.{◌≡◌, ◌≢◌, ◌%◌, ◌^◌, ◌⊎◌};
ghost use mathlib.Core.List.{IsPrefix};
ghost use Rattle.history.specs.Histories.{count, GrowsByOthers, Legal};
ghost use Rattle.history.specs.Passes.{Agrees, longer};
ghost use Rattle.history.specs.Plays.{Learnt, Saw, Met, Heard};

use crate::log::Log;
use crate::logged::Logged;
use crate::object::Object;
use crate::pass::Pass;
use crate::past::Past;
use crate::rule::Naming;
use crate::view::View;
use atomic_table::Play;
use std::marker::PhantomData;

/// The keeper's guest learns the whole history, which the keeper knows.
pub struct Learns<O> {
    of: PhantomData<O>,
}

impl<O: Object> Play<(), View<O::Call, O::Reply>> for Learns<O> {
    ghost then = { λ s v n w. Learnt O.rank_of v w };
}

/// A pass sees the history as it is when the word is read.
pub struct Sees<O, J> {
    of: PhantomData<(O, J)>,
}

impl<O: Object, J: Naming> Play<(), View<O::Call, O::Reply>> for Sees<O, J> {
    ghost then = { λ s v n w. Saw O.rank_of (Legal (O.opens J.origin) O.step) v n w };
}

/// A pass and the guest at its seat take the longer of what the two have seen.
pub struct Meets<O> {
    of: PhantomData<O>,
}

impl<O: Object> Play<(), View<O::Call, O::Reply>> for Meets<O> {
    ghost then = { λ s v n w. Met O.rank_of v w };
}

/// A pass takes the longer of what it has seen and what its seat was told.
pub struct Hears<O> {
    of: PhantomData<O>,
}

impl<O: Object> Play<(), View<O::Call, O::Reply>> for Hears<O> {
    ghost then = { λ s v n w. Heard O.rank_of v w };
}

impl<O: Object, J: Naming> Log<O, J> {
    /// The pass has then seen the whole history.
    pub fn learn(&self, logged: &mut Logged<O, J>, pass: &mut Pass<O, J>)
        ensures logged { logged.new ≡ logged.old }
        ensures before { GrowsByOthers pass.old.slot pass.old.seen logged.old.history }
        ensures pass { pass.new ≡ record { slot = pass.old.slot; seen = logged.old.history; mine = pass.old.mine } }
        ensures agrees { Agrees O.rank_of (O.opens J.origin) O.step pass.new }
    {
        self.lend(&mut pass.seat, &mut logged.keeper);
        // The pass alone can't know which history it is. The keeper's view says so, and the load lets its guest take it on.
        self.table.shared.load::<Learns<O>>(&mut logged.keeper, 0);
        self.give_back(&mut pass.seat, &mut logged.keeper);
    }

    /// The number of `Counted` events in the history that the pass has then seen, modulo 2^64. It waits for nobody.
    pub fn count(&self, pass: &mut Pass<O, J>) -> u64
        ensures before { GrowsByOthers pass.old.slot pass.old.seen pass.new.seen }
        ensures count { result ≡ count O.rank_of pass.new.seen % 2 ^ 64 }
        ensures pass { pass.new ≡ record { slot = pass.old.slot; seen = pass.new.seen; mine = pass.old.mine } }
        ensures agrees { Agrees O.rank_of (O.opens J.origin) O.step pass.new }
    {
        // The number tells of a history that the same load shows: without a seat it would tell of none.
        self.table.shared.load::<Sees<O, J>>(&mut pass.seat, 0)
    }

    /// Both passes have then seen what one of them had. It waits for nobody.
    pub fn meet(&self, a: &mut Pass<O, J>, b: &mut Pass<O, J>)
        ensures apart { a.old.slot ≢ b.old.slot }
        ensures one { GrowsByOthers a.old.slot a.old.seen b.old.seen ⊎ GrowsByOthers b.old.slot b.old.seen a.old.seen }
        ensures a { a.new ≡ record { slot = a.old.slot; seen = longer a.old.seen b.old.seen; mine = a.old.mine } }
        ensures b { b.new ≡ record { slot = b.old.slot; seen = longer a.old.seen b.old.seen; mine = b.old.mine } }
        ensures a_agrees { Agrees O.rank_of (O.opens J.origin) O.step a.new }
        ensures b_agrees { Agrees O.rank_of (O.opens J.origin) O.step b.new }
    {
        self.lend(&mut b.seat, &mut a.seat);
        // Both have seen beginnings of one history, so one begins the other. A step tells of one seat, so both are at `a`'s for it.
        self.table.shared.load::<Meets<O>>(&mut a.seat, 0);
        self.give_back(&mut b.seat, &mut a.seat);
    }

    /// The pass has then seen all that the other had when it was spent. It waits for nobody.
    pub fn hear(&self, pass: &mut Pass<O, J>, past: &mut Past<O, J>)
        ensures one { GrowsByOthers pass.old.slot pass.old.seen past.old.seen ⊎ IsPrefix past.old.seen pass.old.seen }
        ensures pass { pass.new ≡ record { slot = pass.old.slot; seen = longer pass.old.seen past.old.seen; mine = pass.old.mine } }
        ensures past { past.new ≡ past.old }
        ensures agrees { Agrees O.rank_of (O.opens J.origin) O.step pass.new }
    {
        self.tell(&mut past.seat, &mut pass.seat);
        // What the seat was told is a beginning of the one history, and so is what its pass has seen.
        self.table.shared.load::<Hears<O>>(&mut pass.seat, 0);
    }
}
