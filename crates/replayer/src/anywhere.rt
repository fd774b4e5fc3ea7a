//! Runs of heaps that place objects anywhere. Only requests answer otherwise there.
ghost use Rattle.std.specs.Prelude.{◌≡◌, ℕ, IfSome, IfNone, IsTrue, false};
ghost use Rattle.replayer.specs.declared.hint.Hint.{Hint as HintValue};
ghost use Rattle.replayer.specs.Anywhere.{IsReplayedAnywhere, IsNoReplayAnywhere, ExpectsAnywhere, MayBeOpenAnywhere};
ghost use Rattle.replayer.specs.Requests.{asks};

use crate::flags::{flag_place, renew};
use crate::hint::Hint;
use crate::replayer::Replayer;
use crate::request::Request;
use heap_spec::{Call, Event, Reply};
use plain_heap::Extent;

impl Replayer {
    // A request that was granted, by an object of `length` words at the base of the hint.
    fn granted_anywhere(&mut self, request: &Request, hint: Hint, length: u64) -> bool
        ensures yes { IsTrue result → IsReplayedAnywhere self.old (asks request.now) Reply.Done hint.entry length self.new }
        ensures no { result ≡ false → IsNoReplayAnywhere self.old (asks request.now) Reply.Done hint.entry length }
        ensures same { result ≡ false → self.new ≡ self.old }
        ensures origin { self.new.heap.origin ≡ self.old.heap.origin }
    {
        self.limits();
        let Hint::Place(base) = hint else {
            return false;
        };
        if self.is_full() {
            return false;
        }
        self.heap.objects_are_apart();
        let kind = request.kind;
        let object = Extent { base, kind, length };
        if !self
            .heap
            .alloc_anywhere(request.slot, request.into, request.words, object)
        {
            return false;
        }
        self.heap.objects_are_apart();
        flag_place(self.marking, &mut self.heap, base, &mut self.touched);
        renew(&self.heap, base, &mut self.aged);
        self.births += 1;
        true
    }

    // A request that was not granted.
    fn refused_anywhere(&mut self, request: &Request, reply: &Reply) -> bool
        requires { reply.now ≡ Reply.Done → ⊥ }
        ensures yes { IsTrue result → (hint : HintValue) (n : ℕ) → IsReplayedAnywhere self.old (asks request.now) reply.now hint n self.new }
        ensures no { result ≡ false → (hint : HintValue) (n : ℕ) → IsNoReplayAnywhere self.old (asks request.now) reply.now hint n }
        ensures same { self.new ≡ self.old }
    {
        self.limits();
        self.heap.objects_are_apart();
        self.heap.may_refuse(request.slot, request.words, reply)
    }

    // A request.
    fn request_anywhere(
        &mut self,
        request: &Request,
        reply: &Reply,
        hint: Hint,
        length: u64,
    ) -> bool
        ensures yes { IsTrue result → IsReplayedAnywhere self.old (asks request.now) reply.now hint.entry length self.new }
        ensures no { result ≡ false → IsNoReplayAnywhere self.old (asks request.now) reply.now hint.entry length }
        ensures same { result ≡ false → self.new ≡ self.old }
        ensures origin { self.new.heap.origin ≡ self.old.heap.origin }
    {
        let Reply::Done = reply else {
            return self.refused_anywhere(request, reply);
        };
        self.granted_anywhere(request, hint, length)
    }

    /// Whether the event with its reply goes on with what was told so far, by the hint, where objects may lie anywhere: the object
    /// of a granted request has `length` words. If so, the replayer goes on to the heap after it, and else it stays where it was.
    pub fn step_anywhere(&mut self, event: &Event, reply: &Reply, hint: Hint, length: u64) -> bool
        ensures yes { IsTrue result → IsReplayedAnywhere self.old event.now reply.now hint.entry length self.new }
        ensures no { result ≡ false → IsNoReplayAnywhere self.old event.now reply.now hint.entry length }
        ensures same { result ≡ false → self.new ≡ self.old }
        ensures origin { self.new.heap.origin ≡ self.old.heap.origin }
    {
        let Event::Mutator(slot, call) = *event else {
            return self.step(event, reply, hint);
        };
        let Call::Alloc(into, words, kind) = call else {
            return self.step(event, reply, hint);
        };
        let request = Request {
            slot,
            into,
            words,
            kind,
        };
        self.request_anywhere(&request, reply, hint, length)
    }

    /// The reply that the event has here where objects may lie anywhere, which is the only one. Of a request none is told, since it
    /// may be refused with Full at any time, and else none only where [`Replayer::reply_to`] tells none.
    pub fn reply_anywhere_to(&mut self, event: &Event) -> Option<Reply>
        ensures reply { IfSome result (λ reply. ExpectsAnywhere self.old event.now reply) }
        ensures none { IfNone result (MayBeOpenAnywhere self.old.marking event.now) }
        ensures same { self.new ≡ self.old }
    {
        let Event::Mutator(_, call) = *event else {
            return self.reply_to(event);
        };
        let Call::Alloc(_, _, _) = call else {
            return self.reply_to(event);
        };
        None
    }
}
