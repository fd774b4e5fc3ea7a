//! How the rights of a pass go to another seat and back. Each half is a load of the word, which it ignores: a view changes only at a
//! step. What two seats have together stays the same, so the rule is kept whatever the table is.
ghost use Rattle.std.specs.Prelude.{◌≡◌, []};
ghost use Rattle.history.specs.Views.{without_pass, only_pass, with_guest, without_guest, only_guest, with_pass, itself, only_log, with_log, nobody};

use crate::log::Log;
use crate::object::Object;
use crate::rule::Naming;
use crate::view::View;
use atomic_table::{Join, Seat, Split};

/// A seat's pass becomes the guest of another seat.
pub struct Lends;

impl<C, R> Split<View<C, R>> for Lends {
    ghost left = { without_pass };

    ghost right = { only_pass };
}

impl<C, R> Join<View<C, R>> for Lends {
    ghost both = { with_guest };

    ghost spent = { nobody };
}

/// A seat's guest becomes the pass of another seat.
pub struct Returns;

impl<C, R> Split<View<C, R>> for Returns {
    ghost left = { without_guest };

    ghost right = { only_guest };
}

impl<C, R> Join<View<C, R>> for Returns {
    ghost both = { with_pass };

    ghost spent = { nobody };
}

/// A seat tells another what it knows of the history.
pub struct Recalls;

impl<C, R> Split<View<C, R>> for Recalls {
    ghost left = { itself };

    ghost right = { only_log };
}

impl<C, R> Join<View<C, R>> for Recalls {
    ghost both = { with_log };

    ghost spent = { nobody };
}

impl<O: Object, J: Naming> Log<O, J> {
    // The pass of `owner` becomes the guest of `host`.
    pub(crate) fn lend(
        &self,
        owner: &mut Seat<(), View<O::Call, O::Reply>>,
        host: &mut Seat<(), View<O::Call, O::Reply>>,
    )
        requires owner { owner.old.table_id ≡ J.table }
        requires host { host.old.table_id ≡ J.table }
        ensures owner_here { owner.new.table_id ≡ J.table }
        ensures owner_is { owner.new.me ≡ (without_pass owner.old.me.0, owner.old.me.1) }
        ensures host_here { host.new.table_id ≡ J.table }
        ensures host_is { host.new.me ≡ (with_guest host.old.me.0 (only_pass owner.old.me.0), host.old.me.1) }
    {
        let rights = self.table.shared.split_seat::<Lends>(owner);
        self.table.shared.join_seat::<Lends>(host, rights);
    }

    // The guest of `host` becomes the pass of `owner`, to whom it belongs.
    pub(crate) fn give_back(
        &self,
        owner: &mut Seat<(), View<O::Call, O::Reply>>,
        host: &mut Seat<(), View<O::Call, O::Reply>>,
    )
        requires owner { owner.old.table_id ≡ J.table }
        requires host { host.old.table_id ≡ J.table }
        ensures owner_here { owner.new.table_id ≡ J.table }
        ensures owner_is { owner.new.me ≡ (with_pass owner.old.me.0 (only_guest host.old.me.0), owner.old.me.1) }
        ensures host_here { host.new.table_id ≡ J.table }
        ensures host_is { host.new.me ≡ (without_guest host.old.me.0, host.old.me.1) }
    {
        let rights = self.table.shared.split_seat::<Returns>(host);
        self.table.shared.join_seat::<Returns>(owner, rights);
    }

    // What the seat knows of the history, in a seat of its own.
    pub(crate) fn recall(
        &self,
        knower: &mut Seat<(), View<O::Call, O::Reply>>,
    ) -> Seat<(), View<O::Call, O::Reply>>
        requires knower { knower.old.table_id ≡ J.table }
        ensures knower_here { knower.new.table_id ≡ J.table }
        ensures knower_is { knower.new.me ≡ knower.old.me }
        ensures part_here { result.table_id ≡ J.table }
        ensures part_is { result.me ≡ (only_log knower.old.me.0, []) }
    {
        self.table.shared.split_seat::<Recalls>(knower)
    }

    // What `knower` knows of the history, `other` then knows, too, and it keeps no history itself.
    pub(crate) fn tell(
        &self,
        knower: &mut Seat<(), View<O::Call, O::Reply>>,
        other: &mut Seat<(), View<O::Call, O::Reply>>,
    )
        requires knower { knower.old.table_id ≡ J.table }
        requires other { other.old.table_id ≡ J.table }
        ensures knower_here { knower.new.table_id ≡ J.table }
        ensures knower_is { knower.new.me ≡ knower.old.me }
        ensures other_here { other.new.table_id ≡ J.table }
        ensures other_is { other.new.me ≡ (with_log other.old.me.0 (only_log knower.old.me.0), other.old.me.1) }
    {
        let part = self.recall(knower);
        self.table.shared.join_seat::<Recalls>(other, part);
    }
}
