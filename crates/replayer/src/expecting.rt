//! The reply that a heap gives to an event, where only one is open.
ghost use Rattle.std.specs.Prelude.{◌≡◌, IfSome, IfNone, true};
ghost use Rattle.replayer.specs.Expecting.{Expects, MayBeOpen};

use crate::replayer::Replayer;
use heap_spec::{Call, Event, Reply};
use words::{Refusal, Slot};

impl Replayer {
    // The reply to the beginning of a cycle.
    fn begin_reply(&self) -> Reply
        ensures { Expects self.now Event.Begin result }
    {
        if self.is_marking() {
            return Reply::Refused(Refusal::WrongPhase);
        }
        Reply::Done
    }

    // The reply to the beginning of a cycle with the marks of the last one.
    fn begin_partial_reply(&self) -> Reply
        ensures { Expects self.now Event.BeginPartial result }
    {
        if self.is_marking() {
            return Reply::Refused(Refusal::WrongPhase);
        }
        if self.needs_full() {
            return Reply::Refused(Refusal::NeedsFull);
        }
        Reply::Done
    }

    // The reply to the step that marks what root words point into.
    fn roots_reply(&self) -> Reply
        ensures { Expects self.now Event.Roots result }
    {
        if self.is_marking() {
            return Reply::Done;
        }
        Reply::Refused(Refusal::WrongPhase)
    }

    // The reply to a full collection.
    fn collect_reply(&mut self) -> Reply
        ensures reply { Expects self.old Event.Collect result }
        ensures same { self.new ≡ self.old }
    {
        Reply::Count(self.heap.count_unreached())
    }

    // The reply to the end of a cycle where none is marking.
    fn finish_reply(&self) -> Option<Reply>
        ensures reply { IfSome result (λ reply. Expects self.now Event.Finish reply) }
        ensures none { IfNone result (self.now.marking ≡ true) }
    {
        if self.is_marking() {
            return None;
        }
        Some(Reply::Refused(Refusal::WrongPhase))
    }

    // The reply to a mutator that comes.
    fn attach_reply(&self) -> Reply
        ensures { Expects self.now Event.Attach result }
    {
        self.heap.attach_reply()
    }

    // The reply to a call of a mutator.
    fn call_reply(&self, slot: Slot, call: Call) -> Reply
        ensures { Expects self.now (Event.Mutator slot call) result }
    {
        self.heap.call_reply(slot, call)
    }

    // The reply to the question for the count of collections.
    fn number_reply(&self) -> Reply
        ensures { Expects self.now Event.Number result }
    {
        Reply::Count(self.collections())
    }

    // The reply to an event, by its kind.
    fn reply_by_kind(&mut self, event: Event) -> Option<Reply>
        ensures reply { IfSome result (λ reply. Expects self.old event reply) }
        ensures none { IfNone result (MayBeOpen self.old.marking event) }
        ensures same { self.new ≡ self.old }
    {
        match event {
            Event::Attach => Some(self.attach_reply()),
            Event::Mutator(slot, call) => Some(self.call_reply(slot, call)),
            Event::Begin => Some(self.begin_reply()),
            Event::BeginPartial => Some(self.begin_partial_reply()),
            Event::Roots => Some(self.roots_reply()),
            Event::Mark(_) | Event::Retrace | Event::Sweep => None,
            Event::Finish => self.finish_reply(),
            Event::Collect => Some(self.collect_reply()),
            Event::Number => Some(self.number_reply()),
        }
    }

    /// The reply that the event has here, which is the only one. `None` only of a collector's small steps that answer a number, and
    /// of the end of a cycle that is marking, whose reply is open.
    pub fn reply_to(&mut self, event: &Event) -> Option<Reply>
        ensures reply { IfSome result (λ reply. Expects self.old event.now reply) }
        ensures none { IfNone result (MayBeOpen self.old.marking event.now) }
        ensures same { self.new ≡ self.old }
    {
        self.reply_by_kind(*event)
    }
}
