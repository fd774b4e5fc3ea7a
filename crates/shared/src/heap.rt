//! The heap, and how mutators come and go.
ghost use Rattle.std.specs.Prelude.{◌≡◌, [], MatchResult};
ghost use Rattle.words.specs.declared.limits.TheConstants.{SLOTS};
ghost use Rattle.words.specs.declared.refusal.Refusal.TheVariants.{NoSlot};
ghost use Rattle.heap_history.specs.Headline.{Begun, Departs, Makes};
ghost use Rattle.heap_history.specs.Passes.{HeapPass};
ghost use Rattle.heap_history.specs.Replies.{IsReplyKind};
ghost use Rattle.shared.specs.Journals.{IsOf};
ghost use Rattle.shared.specs.WhileAttached.{IsNoDetach};

use crate::held::Held;
use crate::journal::Journal;
use crate::tokens::{Collector, Departed, Mutator};
use heap_core::Core;
use heap_spec::{Call, Event, Reply};
use history::{Log, Naming, Opened};
use std::sync::{Mutex, Wait};
use words::Refusal;

/// The history's word, and the core under its lock. `J` names the heap: what has that name belongs to it.
#[derive(Drop)]
pub struct SharedHeap<J: Naming> {
    pub(crate) log: Log<Core, J>,
    pub(crate) lock: Mutex<Held<J>>,
}

impl<J: Naming> SharedHeap<J> {
    /// The heap that was opened, under the name that was picked for it, and its collector, which has seen nothing.
    pub fn named(opened: Opened<Core>) -> (SharedHeap<J>, Collector<J>)
        requires table { opened.table ≡ J.table }
        requires pages { opened.origin ≡ J.origin }
        ensures { result.1 ≡ record { slot = SLOTS; seen = []; mine = [] } }
    {
        SharedHeap::with_journal(opened, Journal::Off)
    }

    /// As [`SharedHeap::named`], with a journal of an empty history: [`Journal::Off`], or a new one, in which each event is written down at
    /// the hold of the lock that makes the event, until [`SharedHeap::take_journal`]. A call then takes memory for its entry; where
    /// that is refused the journal is lost, and the call goes on.
    pub fn with_journal(opened: Opened<Core>, journal: Journal) -> (SharedHeap<J>, Collector<J>)
        requires table { opened.table ≡ J.table }
        requires pages { opened.origin ≡ J.origin }
        requires journal { IsOf journal [] }
        ensures { result.1 ≡ record { slot = SLOTS; seen = []; mine = [] } }
    {
        let (log, logged, pass) = opened.named::<J>();
        let lock = Mutex::new(Held::new(logged, journal));
        (SharedHeap { log, lock }, Collector { pass })
    }

    /// A new mutator, in the lowest slot that has none, with registers of 0 and an empty stack.
    ///
    /// # Errors
    /// [`Refusal::NoSlot`]: all slots have a mutator.
    pub fn attach(&self, rt: &impl Wait) -> Result<Mutator<J>, Refusal>
        ensures { MatchResult result (λ m. Begun J.origin m) (λ refusal. refusal ≡ NoSlot) }
    {
        let mut guard = self.lock.lock(rt);
        let held = &mut *guard;
        let Some(slot) = held.object().vacant() else {
            return Err(Refusal::NoSlot);
        };
        let (pass, _reply) = held.first(&self.log, slot.number(), &Event::Attach);
        Ok(Mutator { slot, pass })
    }

    /// A mutator's last call, as [`SharedHeap::depart`], of which nothing stays. Its slot is free from then on.
    pub fn detach(&self, rt: &impl Wait, me: Mutator<J>)
        ensures { (past : HeapPass) × Departs J.origin me past }
    {
        self.depart(rt, me);
    }

    /// A mutator's last call, of which stays what the mutator had seen: those who hear it know all that it did. Its slot is
    /// free from then on.
    pub fn depart(&self, rt: &impl Wait, me: Mutator<J>) -> Departed<J>
        ensures { Departs J.origin me result }
    {
        let Mutator { slot, mut pass } = me;
        let mut guard = self.lock.lock(rt);
        let held = &mut *guard;
        // The history says that the slot is attached, and the core stands for where it leads.
        held.learn(&self.log, &mut pass);
        let _object = held.object();
        let detach = Event::Mutator(slot, Call::Detach);
        let (past, _reply) = held.last(&self.log, pass, &detach);
        Departed { slot, past }
    }

    /// A mutator's call, as a value.
    #[inline(always)]
    pub fn call(&self, rt: &impl Wait, me: &mut Mutator<J>, call: Call) -> Reply
        requires { IsNoDetach call }
        ensures makes { Makes J.origin me.old call result me.new }
        ensures answers { IsReplyKind call result }
    {
        let event = Event::Mutator(me.slot, call);
        let mut guard = self.lock.lock(rt);
        let held = &mut *guard;
        held.learn(&self.log, &mut me.pass);
        let _object = held.object();
        held.act(&self.log, &mut me.pass, &event)
    }
}
