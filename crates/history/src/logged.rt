//! The object under the lock, with the seat that knows the whole history and a count of how often a slot began.
ghost use Rattle.std.specs.Prelude.{◌≡◌};
ghost use Rattle.std.specs.Fn.{FnOnceReturnsAtMut};
ghost use Rattle.history.specs.Objects.{KeepsStates};
ghost use Rattle.history.specs.Histories.{StandsAfter, counted_up, firsts};

use crate::object::{Object, Quiet};
use crate::rule::Naming;
use crate::view::View;
use atomic_table::Seat;
use std::marker::{Model, PhantomData};

/// The object with the keeper's seat. It lies under the lock. Contracts see the object and the whole history.
#[derive(Drop)]
pub struct Logged<O: Object, J: Naming> {
    pub(crate) object: O,
    pub(crate) begun: u64,
    pub(crate) keeper: Seat<(), View<O::Call, O::Reply>>,
    pub(crate) of: PhantomData<J>,
}

impl<O: Object, J: Naming> Model for Logged<O, J> {
    ghost use Rattle.std.specs.Prelude.{◌≡◌};
    ghost use Rattle.history.specs.Histories.{StandsAfter, counted_up, firsts};
    ghost use Rattle.history.specs.Passes.{Recorded};
    ghost use Rattle.history.specs.Rules.{IsKeeper};

    ghost Value = { Recorded O O.Call O.Reply };

    ghost view = { λ l. record { object = l.object; history = l.keeper.me.0.log } };

    ghost invariant = { λ l. IsKeeper J.table l.keeper.table_id l.keeper.me.0
        × StandsAfter (O.opens J.origin) O.step O.stands l.keeper.me.0.log l.object
        × (l.begun ≡ counted_up (firsts O.rank_of l.keeper.me.0.log)) };
}

impl<O: Object, J: Naming> Logged<O, J> {
    /// The object. It stands for a state that the history leads to.
    pub fn object(&self) -> &O
        ensures object { result.now ≡ self.now.object }
        ensures stands { StandsAfter (O.opens J.origin) O.step O.stands self.now.history self.now.object }
    {
        &self.object
    }

    /// How often a slot's first call was made in the history, and 2^64 - 1 where it was made so often or more.
    pub fn firsts(&self) -> u64
        ensures { result ≡ counted_up (firsts O.rank_of self.now.history) }
    {
        self.begun
    }

    /// Runs work on the object that is no event: the history stays as it is.
    pub fn quiet<Q: Quiet<O>>(&mut self, work: &mut Q) -> Q::Answer
        ensures gives { Q.gives work.old self.old.object result work.new self.new.object }
        ensures keeps { (s : O.State) → O.stands self.old.object s → O.stands self.new.object s }
        ensures history { self.new.history ≡ self.old.history }
    {
        work.run(&mut self.object)
    }

    /// Runs a closure that is no event: the history stays as it is. It is for work that starts threads, which no `run` of a
    /// [`Quiet`] can.
    pub fn quiet_by<A, F: FnOnce(&mut O) -> A>(&mut self, work: F) -> A
        requires can { F.IsAlwaysCallable work }
        requires keeps { KeepsStates O.stands (FnOnceReturnsAtMut F.FnOnce work) }
        ensures gives { FnOnceReturnsAtMut F.FnOnce work self.old.object result self.new.object }
        ensures keeps { (s : O.State) → O.stands self.old.object s → O.stands self.new.object s }
        ensures history { self.new.history ≡ self.old.history }
    {
        work(&mut self.object)
    }
}
