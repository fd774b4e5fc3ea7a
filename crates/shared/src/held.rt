//! What lies under the lock: the core with its history, and the journal of that history.
ghost use Rattle.std.specs.Prelude.{◌≡◌, ◌<◌, [], ◌∷◌, ◌++◌, false};
ghost use Rattle.std.specs.Fn.{FnOnceReturnsAtMut};
ghost use Rattle.words.specs.declared.limits.TheConstants.{SLOTS};
ghost use Rattle.history.specs.declared.object.Rank.TheVariants.{First, Last};
ghost use Rattle.history.specs.Histories.{event, is_first, is_last, is_live, counted_up, GrowsByOthers, Legal, StandsAfter};
ghost use Rattle.history.specs.Objects.{StepsFrom, KeepsStates};
ghost use Rattle.history.specs.Passes.{Owned, Recalls};
ghost use Rattle.heap_spec.specs.SequentialObject.{HeapState, Opens, StateStep};
ghost use Rattle.heap_core.specs.AsObject.{Stands, Can};
ghost use Rattle.heap_history.specs.Ranks.{rank_of};
ghost use Rattle.heap_history.specs.Alone.{attaches};
ghost use Rattle.heap_history.specs.Passes.{IsLegalPass};
ghost use Rattle.shared.specs.Journals.{IsOf};

use crate::journal::{Journal, write_down};
use heap_core::Core;
use heap_spec::{Event, Reply};
use history::{Log, Logged, Naming, Pass, Past, Quiet};
use std::marker::Model;
use std::mem::replace;

/// The core and its journal. Each event is noted at the hold of the lock that appends it. Contracts see the core and the whole history.
#[derive(Drop)]
pub(crate) struct Held<J: Naming> {
    logged: Logged<Core, J>,
    journal: Journal,
}

impl<J: Naming> Model for Held<J> {
    ghost use Rattle.history.specs.Passes.{Recorded};
    ghost use Rattle.heap_core.specs.CoreContents.{CoreContents};
    ghost use Rattle.heap_spec.specs.declared.event.Event.{Event};
    ghost use Rattle.heap_spec.specs.declared.reply.Reply.{Reply};
    ghost use Rattle.shared.specs.Journals.{IsOf};

    ghost Value = { Recorded CoreContents Event Reply };

    ghost view = { λ h. h.logged };

    ghost invariant = { λ h. IsOf h.journal h.logged.history };
}

impl<J: Naming> Held<J> {
    /// A core with its history, and a journal of it.
    pub(crate) fn new(logged: Logged<Core, J>, journal: Journal) -> Held<J>
        requires { IsOf journal logged.history }
        ensures { result ≡ logged }
    {
        Held { logged, journal }
    }

    /// The core. It stands for a state that the history leads to.
    pub(crate) fn object(&self) -> &Core
        ensures object { result.now ≡ self.now.object }
        ensures stands { StandsAfter (Opens J.origin) StateStep Stands self.now.history self.now.object }
    {
        self.logged.object()
    }

    /// How many mutators came in the history, and 2^64 - 1 where so many or more did.
    pub(crate) fn firsts(&self) -> u64
        ensures { result ≡ counted_up (attaches self.now.history) }
    {
        self.logged.firsts()
    }

    /// The journal, of which nothing stays.
    pub(crate) fn take_journal(&mut self) -> Journal
        ensures same { self.new ≡ self.old }
        ensures journal { IsOf result self.old.history }
    {
        replace(&mut self.journal, Journal::Off)
    }

    /// As `learn` of the log.
    pub(crate) fn learn(&mut self, log: &Log<Core, J>, pass: &mut Pass<Core, J>)
        ensures same { self.new ≡ self.old }
        ensures before { GrowsByOthers pass.old.slot pass.old.seen self.old.history }
        ensures pass { pass.new ≡ record { slot = pass.old.slot; seen = self.old.history; mine = pass.old.mine } }
        ensures agrees { IsLegalPass J.origin pass.new }
    {
        log.learn(&mut self.logged, pass);
    }

    /// As `first` of the log, and the event is noted.
    pub(crate) fn first(
        &mut self,
        log: &Log<Core, J>,
        who: u8,
        call: &Event,
    ) -> (Pass<Core, J>, Reply)
        requires can { Can self.old.object who call.now }
        requires rank { rank_of call.now ≡ First }
        requires mutator { who < SLOTS }
        requires free { is_live rank_of who self.old.history ≡ false }
        ensures step { StepsFrom Stands StateStep self.old.object who call.now result.1 self.new.object }
        ensures history { self.new.history ≡ self.old.history ++ event who call.now result.1 ∷ [] }
        ensures pass { result.0 ≡ record {
          slot = who;
          seen = self.new.history;
          mine = event who call.now result.1 ∷ [];
        } }
        ensures agrees { IsLegalPass J.origin result.0 }
    {
        let (pass, reply) = log.first(&mut self.logged, who, call);
        write_down(&mut self.journal, self.logged.object(), who, call, &reply);
        (pass, reply)
    }

    /// As `act` of the log, and the event is noted.
    #[inline(always)]
    pub(crate) fn act(
        &mut self,
        log: &Log<Core, J>,
        pass: &mut Pass<Core, J>,
        call: &Event,
    ) -> Reply
        requires can { Can self.old.object pass.old.slot call.now }
        requires rank { (is_first (rank_of call.now) ≡ false) × (is_last (rank_of call.now) ≡ false) }
        ensures step { StepsFrom Stands StateStep self.old.object pass.old.slot call.now result self.new.object }
        ensures history { self.new.history ≡ self.old.history ++ event pass.old.slot call.now result ∷ [] }
        ensures before { GrowsByOthers pass.old.slot pass.old.seen self.old.history }
        ensures pass { pass.new ≡ record {
          slot = pass.old.slot;
          seen = self.new.history;
          mine = pass.old.mine ++ event pass.old.slot call.now result ∷ [];
        } }
        ensures agrees { IsLegalPass J.origin pass.new }
    {
        let who = pass.slot();
        let reply = log.act(&mut self.logged, pass, call);
        write_down(&mut self.journal, self.logged.object(), who, call, &reply);
        reply
    }

    /// As `last` of the log, and the event is noted.
    pub(crate) fn last(
        &mut self,
        log: &Log<Core, J>,
        pass: Pass<Core, J>,
        call: &Event,
    ) -> (Past<Core, J>, Reply)
        requires can { Can self.old.object pass.slot call.now }
        requires rank { rank_of call.now ≡ Last }
        ensures step { StepsFrom Stands StateStep self.old.object pass.slot call.now result.1 self.new.object }
        ensures history { self.new.history ≡ self.old.history ++ event pass.slot call.now result.1 ∷ [] }
        ensures before { GrowsByOthers pass.slot pass.seen self.old.history }
        ensures owned { Owned rank_of pass.slot self.old.history pass.mine }
        ensures legal { Legal (Opens J.origin) StateStep self.new.history }
        ensures past { result.0 ≡ record {
          slot = pass.slot;
          seen = self.new.history;
          mine = pass.mine ++ event pass.slot call.now result.1 ∷ [];
        } }
        ensures recalls { Recalls rank_of (Opens J.origin) StateStep result.0 }
    {
        let who = pass.slot();
        let (past, reply) = log.last(&mut self.logged, pass, call);
        write_down(&mut self.journal, self.logged.object(), who, call, &reply);
        (past, reply)
    }

    /// As `quiet` of the core with its history.
    pub(crate) fn quiet<Q: Quiet<Core>>(&mut self, work: &mut Q) -> Q::Answer
        ensures gives { Q.gives work.old self.old.object result work.new self.new.object }
        ensures keeps { (s : HeapState) → Stands self.old.object s → Stands self.new.object s }
        ensures history { self.new.history ≡ self.old.history }
    {
        self.logged.quiet(work)
    }

    /// As `quiet_by` of the core with its history.
    pub(crate) fn quiet_by<A, F: FnOnce(&mut Core) -> A>(&mut self, work: F) -> A
        requires can { F.IsAlwaysCallable work }
        requires keeps { KeepsStates Stands (FnOnceReturnsAtMut F.FnOnce work) }
        ensures gives { FnOnceReturnsAtMut F.FnOnce work self.old.object result self.new.object }
        ensures keeps { (s : HeapState) → Stands self.old.object s → Stands self.new.object s }
        ensures history { self.new.history ≡ self.old.history }
    {
        self.logged.quiet_by(work)
    }
}
