//! What one slot has seen of the history.
ghost use Rattle.std.specs.Prelude.{◌≡◌};
ghost use Rattle.history.specs.Passes.{Agrees};

use crate::object::Object;
use crate::rule::Naming;
use crate::view::View;
use atomic_table::Seat;
use std::marker::{Model, PhantomData};

/// A slot's pass. Contracts see its `slot`, the history that it has `seen`, and the slot's own events in it, `mine`.
#[derive(Drop)]
pub struct Pass<O: Object, J: Naming> {
    pub(crate) slot: u8,
    pub(crate) seat: Seat<(), View<O::Call, O::Reply>>,
    pub(crate) of: PhantomData<J>,
}

impl<O: Object, J: Naming> Model for Pass<O, J> {
    ghost use Rattle.history.specs.declared.view.Known.{Known};
    ghost use Rattle.history.specs.Rules.{IsHolder};

    ghost Value = { Known O.Call O.Reply };

    ghost view = { λ p. p.seat.me.0.pass };

    ghost invariant = { λ p. IsHolder O.rank_of (O.opens J.origin) O.step J.table p.seat.table_id p.slot p.seat.me.0 };
}

impl<O: Object, J: Naming> Pass<O, J> {
    /// The pass's slot, `COLLECTOR` for the collector's.
    pub fn slot(&self) -> u8
        ensures slot { result ≡ self.now.slot }
        // At any time what a pass has seen is legal, and its own events are exactly the slot's in it.
        ensures agrees { Agrees O.rank_of (O.opens J.origin) O.step self.now }
    {
        self.slot
    }
}
