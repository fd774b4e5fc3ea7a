//! What a slot's pass had seen when it was spent.
ghost use Rattle.std.specs.Prelude.{◌≡◌};
ghost use Rattle.history.specs.Passes.{Recalls};

use crate::object::Object;
use crate::rule::Naming;
use crate::view::View;
use atomic_table::Seat;
use std::marker::{Model, PhantomData};

/// What a pass had seen when it was spent. It can make no call. Contracts see its `slot`, the history that it had `seen`, its last
/// event the last one there, and its own events in it, `mine`.
#[derive(Drop)]
pub struct Past<O: Object, J: Naming> {
    pub(crate) slot: u8,
    pub(crate) seat: Seat<(), View<O::Call, O::Reply>>,
    pub(crate) of: PhantomData<J>,
}

impl<O: Object, J: Naming> Model for Past<O, J> {
    ghost use Rattle.history.specs.declared.view.Known.{Known};
    ghost use Rattle.history.specs.Histories.{own};
    ghost use Rattle.history.specs.Rules.{IsRecalled};

    ghost Value = { Known O.Call O.Reply };

    ghost view = { λ p. record { slot = p.slot; seen = p.seat.me.0.log; mine = own O.rank_of p.slot p.seat.me.0.log } };

    ghost invariant = { λ p. IsRecalled O.rank_of (O.opens J.origin) O.step J.table p.seat.table_id p.slot p.seat.me.0 };
}

impl<O: Object, J: Naming> Past<O, J> {
    /// The slot that the pass had.
    pub fn slot(&self) -> u8
        ensures slot { result ≡ self.now.slot }
        // At any time what it had seen is legal, and its own events are exactly the slot's in it, with its last.
        ensures recalls { Recalls O.rank_of (O.opens J.origin) O.step self.now }
    {
        self.slot
    }
}
