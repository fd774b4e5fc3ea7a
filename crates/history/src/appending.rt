//! The three steps that make the history longer. Each is one `fetch_add` by the keeper's seat: only its view has the history to
//! append to. The event joins the history and its slot's pass, which is the keeper's guest, in that one moment.
ghost use Rattle.std.specs.Prelude.{◌≡◌, [], ◌∷◌, true, false};
ghost use Rattle.history.specs.Histories.{event, weight, is_first, is_last, is_live, Legal};
ghost use Rattle.history.specs.Plays.{Acted, Began, Ended, MayAppend};

use crate::log::Log;
use crate::object::{Object, Rank};
use crate::rule::Naming;
use crate::view::View;
use atomic_table::{Play, Seat};
use std::marker::{Brand, PhantomData};

/// Which event a step appends. Each call of a step picks it.
pub trait Said<C, R> {
    ghost use Rattle.std.specs.Prelude.{List};
    ghost use Rattle.history.specs.declared.made.Made.{Made};

    ghost said: { List (Made C R) };
}

impl<C, R> Said<C, R> for Brand {
    ghost use Rattle.std.specs.Prelude.{[]};

    ghost said = { [] };
}

/// A call of the keeper's guest.
pub struct Acts<O, E> {
    of: PhantomData<(O, E)>,
}

impl<O: Object, E: Said<O::Call, O::Reply>> Play<(), View<O::Call, O::Reply>> for Acts<O, E> {
    ghost then = { λ s v n w. Acted O.rank_of E.said v w };
}

/// The first call of a slot, whose pass becomes the keeper's guest.
pub struct Begins<O, E> {
    of: PhantomData<(O, E)>,
}

impl<O: Object, E: Said<O::Call, O::Reply>> Play<(), View<O::Call, O::Reply>> for Begins<O, E> {
    ghost then = { λ s v n w. Began O.rank_of E.said v w };
}

/// The last call of the keeper's guest, which is spent.
pub struct Ends<O, E> {
    of: PhantomData<(O, E)>,
}

impl<O: Object, E: Said<O::Call, O::Reply>> Play<(), View<O::Call, O::Reply>> for Ends<O, E> {
    ghost then = { λ s v n w. Ended O.rank_of E.said v w };
}

// What a call of this rank adds to the word.
fn weight_of(rank: &Rank) -> u64
    ensures { result ≡ weight rank.now }
{
    match rank {
        Rank::Counted => 1,
        _ => 0,
    }
}

impl<O: Object, J: Naming> Log<O, J> {
    // The keeper's guest makes a call that is neither its first nor its last.
    pub(crate) fn append<E: Said<O::Call, O::Reply>>(
        &self,
        keeper: &mut Seat<(), View<O::Call, O::Reply>>,
        who: u8,
        call: &O::Call,
        reply: &O::Reply,
    )
        requires here { keeper.old.table_id ≡ J.table }
        requires may { MayAppend O.rank_of (Legal (O.opens J.origin) O.step) E.said (weight (O.rank_of call.now)) keeper.old.me.0
            (event who call.now reply.now) }
        requires guest { (keeper.old.me.0.hosts ≡ true) × (keeper.old.me.0.guest.slot ≡ who) }
        requires rank { (is_first (O.rank_of call.now) ≡ false) × (is_last (O.rank_of call.now) ≡ false) }
        ensures here { keeper.new.table_id ≡ J.table }
        ensures acted { Acted O.rank_of (event who call.now reply.now ∷ []) keeper.old.me keeper.new.me }
    {
        // The guest sees the whole history with the event, and has it as its own: two steps would leave one without the other.
        let add = weight_of(&O::rank(call));
        self.table.shared.fetch_add::<Acts<O, E>>(keeper, 0, add);
    }

    // A slot that has no pass makes its first call, and its new pass becomes the keeper's guest.
    pub(crate) fn begin<E: Said<O::Call, O::Reply>>(
        &self,
        keeper: &mut Seat<(), View<O::Call, O::Reply>>,
        who: u8,
        call: &O::Call,
        reply: &O::Reply,
    )
        requires here { keeper.old.table_id ≡ J.table }
        requires may { MayAppend O.rank_of (Legal (O.opens J.origin) O.step) E.said (weight (O.rank_of call.now)) keeper.old.me.0
            (event who call.now reply.now) }
        requires free { is_live O.rank_of who keeper.old.me.0.log ≡ false }
        requires rank { (is_first (O.rank_of call.now) ≡ true) × (is_last (O.rank_of call.now) ≡ false) }
        ensures here { keeper.new.table_id ≡ J.table }
        ensures began { Began O.rank_of (event who call.now reply.now ∷ []) keeper.old.me keeper.new.me }
    {
        // No seat has a pass of the slot, since its last event, if any, was its last, and every pass would say otherwise.
        let add = weight_of(&O::rank(call));
        self.table.shared.fetch_add::<Begins<O, E>>(keeper, 0, add);
    }

    // The keeper's guest makes its last call.
    pub(crate) fn end<E: Said<O::Call, O::Reply>>(
        &self,
        keeper: &mut Seat<(), View<O::Call, O::Reply>>,
        who: u8,
        call: &O::Call,
        reply: &O::Reply,
    )
        requires here { keeper.old.table_id ≡ J.table }
        requires may { MayAppend O.rank_of (Legal (O.opens J.origin) O.step) E.said (weight (O.rank_of call.now)) keeper.old.me.0
            (event who call.now reply.now) }
        requires guest { (keeper.old.me.0.hosts ≡ true) × (keeper.old.me.0.guest.slot ≡ who) }
        requires rank { is_last (O.rank_of call.now) ≡ true }
        ensures here { keeper.new.table_id ≡ J.table }
        ensures ended { Ended O.rank_of (event who call.now reply.now ∷ []) keeper.old.me keeper.new.me }
    {
        // The guest is spent in the step that appends its last event, so that no pass is left that doesn't have it.
        let add = weight_of(&O::rank(call));
        self.table.shared.fetch_add::<Ends<O, E>>(keeper, 0, add);
    }
}
