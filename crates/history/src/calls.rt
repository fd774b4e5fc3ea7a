//! The three calls that are events. Each is made under the lock. The object acts first, since the event has its reply, and no other
//! call comes between, since only this lock's holder has the keeper's seat.
ghost use Rattle.std.specs.Prelude.{◌≡◌, ◌<◌, [], ◌∷◌, ◌++◌, false};
ghost use Rattle.history.specs.declared.object.TheConstants.{COLLECTOR as collector};
ghost use Rattle.history.specs.declared.object.Rank.TheVariants.{First, Last};
ghost use Rattle.history.specs.Histories.{event, is_first, is_last, is_live, GrowsByOthers, Legal};
ghost use Rattle.history.specs.Objects.{StepsFrom};
ghost use Rattle.history.specs.Passes.{Agrees, Owned, Recalls};

use crate::lending::Returns;
use crate::log::Log;
use crate::logged::Logged;
use crate::object::Object;
use crate::pass::Pass;
use crate::past::Past;
use crate::rule::Naming;
use std::marker::{Brand, PhantomData};

impl<O: Object, J: Naming> Log<O, J> {
    /// The first call of a slot below the collector's that has no pass: its last event, if any, was a `Last`.
    pub fn first(
        &self,
        logged: &mut Logged<O, J>,
        who: u8,
        call: &O::Call,
    ) -> (Pass<O, J>, O::Reply)
        requires can { O.can logged.old.object who call.now }
        requires rank { O.rank_of call.now ≡ First }
        requires mutator { who < collector }
        requires free { is_live O.rank_of who logged.old.history ≡ false }
        ensures step { StepsFrom O.stands O.step logged.old.object who call.now result.1 logged.new.object }
        ensures history { logged.new.history ≡ logged.old.history ++ event who call.now result.1 ∷ [] }
        ensures pass { result.0 ≡ record {
          slot = who;
          seen = logged.new.history;
          mine = event who call.now result.1 ∷ [];
        } }
        ensures agrees { Agrees O.rank_of (O.opens J.origin) O.step result.0 }
    {
        let reply = logged.object.act(who, call);
        self.begin::<Brand>(&mut logged.keeper, who, call, &reply);
        logged.begun = logged.begun.saturating_add(1);
        let seat = self.table.shared.split_seat::<Returns>(&mut logged.keeper);
        let pass = Pass {
            slot: who,
            seat,
            of: PhantomData,
        };
        (pass, reply)
    }

    /// A call of a pass that is neither its first nor its last.
    #[inline(always)]
    pub fn act(&self, logged: &mut Logged<O, J>, pass: &mut Pass<O, J>, call: &O::Call) -> O::Reply
        requires can { O.can logged.old.object pass.old.slot call.now }
        requires rank { (is_first (O.rank_of call.now) ≡ false) × (is_last (O.rank_of call.now) ≡ false) }
        ensures step { StepsFrom O.stands O.step logged.old.object pass.old.slot call.now result logged.new.object }
        ensures history { logged.new.history ≡ logged.old.history ++ event pass.old.slot call.now result ∷ [] }
        ensures before { GrowsByOthers pass.old.slot pass.old.seen logged.old.history }
        ensures pass { pass.new ≡ record {
          slot = pass.old.slot;
          seen = logged.new.history;
          mine = pass.old.mine ++ event pass.old.slot call.now result ∷ [];
        } }
        ensures agrees { Agrees O.rank_of (O.opens J.origin) O.step pass.new }
    {
        let who = pass.slot;
        let reply = logged.object.act(who, call);
        self.lend(&mut pass.seat, &mut logged.keeper);
        self.append::<Brand>(&mut logged.keeper, who, call, &reply);
        self.give_back(&mut pass.seat, &mut logged.keeper);
        reply
    }

    /// The last call of a pass, which is spent. What it had seen, with this call, stays.
    pub fn last(
        &self,
        logged: &mut Logged<O, J>,
        pass: Pass<O, J>,
        call: &O::Call,
    ) -> (Past<O, J>, O::Reply)
        requires can { O.can logged.old.object pass.slot call.now }
        requires rank { O.rank_of call.now ≡ Last }
        ensures step { StepsFrom O.stands O.step logged.old.object pass.slot call.now result.1 logged.new.object }
        ensures history { logged.new.history ≡ logged.old.history ++ event pass.slot call.now result.1 ∷ [] }
        ensures before { GrowsByOthers pass.slot pass.seen logged.old.history }
        ensures owned { Owned O.rank_of pass.slot logged.old.history pass.mine }
        ensures legal { Legal (O.opens J.origin) O.step logged.new.history }
        ensures past { result.0 ≡ record {
          slot = pass.slot;
          seen = logged.new.history;
          mine = pass.mine ++ event pass.slot call.now result.1 ∷ [];
        } }
        ensures recalls { Recalls O.rank_of (O.opens J.origin) O.step result.0 }
    {
        let Pass {
            slot: who,
            mut seat,
            of: _,
        } = pass;
        let reply = logged.object.act(who, call);
        self.lend(&mut seat, &mut logged.keeper);
        self.end::<Brand>(&mut logged.keeper, who, call, &reply);
        let part = self.recall(&mut logged.keeper);
        let past = Past {
            slot: who,
            seat: part,
            of: PhantomData,
        };
        (past, reply)
    }
}
