//! Calls that are made only if they have a reply that is given: a checker replays a run by them.
ghost use Rattle.std.specs.Prelude.{◌≡◌, IsTrue, false};
ghost use Rattle.heap_spec.specs.declared.reply.Reply.{Reply as ReplyValue};
ghost use Rattle.heap_spec.specs.Replies.{IsStep};
ghost use Rattle.plain_heap.specs.Standing.{StandsFor};
ghost use Rattle.plain_heap.specs.Answering.{CanAnswer, CanAttach, IsNoStep, MakesCall, HasPlaces, GrantHasPlaces, MayRefuse, CantRefuse};

use super::PlainHeap;
use heap_spec::{Call, Event, Reply};
use words::{Refusal, Slot};

// Whether two replies are the same.
fn is_same(a: &Reply, b: &Reply) -> bool
    ensures yes { IsTrue result → a.now ≡ b.now }
    ensures no { result ≡ false → a.now ≡ b.now → ⊥ }
{
    a == b
}

// What a call answers is known where it is made to be replayed.
fn ignore<T: Drop>(_reply: Result<T, Refusal>) {}

impl PlainHeap {
    /// The reply to the next mutator that comes, which is answered so and not otherwise.
    pub fn attach_reply(&self) -> Reply
        ensures may { CanAttach self.now result }
        ensures only { (other : ReplyValue) → (result ≡ other → ⊥) → IsNoStep self.now Event.Attach other }
    {
        self.attach_answer()
    }

    /// The reply to a call, which is answered so and not otherwise.
    pub fn call_reply(&self, slot: Slot, call: Call) -> Reply
        ensures may { CanAnswer self.now slot call result }
        ensures only { (other : ReplyValue) → (result ≡ other → ⊥) → IsNoStep self.now (Event.Mutator slot call) other }
    {
        self.laws();
        self.answer(slot, call)
    }

    // Makes a call, whatever its reply.
    fn make(&mut self, slot: Slot, call: Call)
        ensures made { HasPlaces self.old call → MakesCall self.old slot call self.new }
        ensures origin { self.new.origin ≡ self.old.origin }
    {
        match call {
            Call::Detach => ignore(self.detach(slot)),
            Call::Set(register, word) => ignore(self.set(slot, register, word)),
            Call::Copy(into, from) => ignore(self.copy(slot, into, from)),
            Call::Add(into, from, number) => ignore(self.add(slot, into, from, number)),
            Call::Sub(into, from, less) => ignore(self.sub(slot, into, from, less)),
            Call::Get(register) => ignore(self.get(slot, register)),
            Call::Push(from) => ignore(self.push(slot, from)),
            Call::Pop(into) => ignore(self.pop(slot, into)),
            Call::Load(into, at, offset) => ignore(self.load(slot, into, at, offset)),
            Call::Store(at, offset, from) => ignore(self.store(slot, at, offset, from)),
            Call::Alloc(into, words, kind) => ignore(self.alloc(slot, into, words, kind)),
            Call::Free(register) => ignore(self.free(slot, register)),
            Call::Base(into, from) => ignore(self.base(slot, into, from)),
            Call::Size(register) => ignore(self.size(slot, register)),
            Call::GlobalGet(into, global) => ignore(self.gget(slot, into, global)),
            Call::GlobalPut(global, from) => ignore(self.gput(slot, global, from)),
            Call::Link(at, offset, to) => ignore(self.link(slot, at, offset, to)),
            Call::Unlink(at, offset) => ignore(self.unlink(slot, at, offset)),
        }
    }

    /// A mutator comes, if this is the reply to it. Else nothing changes.
    pub fn attach_as(&mut self, reply: &Reply) -> bool
        ensures yes { IsTrue result → IsStep (StandsFor self.old) Event.Attach reply.now (StandsFor self.new) }
        ensures no { result ≡ false → IsNoStep self.old Event.Attach reply.now }
        ensures same { result ≡ false → self.new ≡ self.old }
        ensures origin { self.new.origin ≡ self.old.origin }
    {
        if !is_same(&self.attach_answer(), reply) {
            return false;
        }
        let _ = self.attach();
        true
    }

    /// Makes a call, if this is its reply. Else nothing changes. Where a request is granted the plain heap picks the place, which is a
    /// step of a plain heap that begins where heaps with size classes do and stands for a sound heap.
    pub fn call_as(&mut self, slot: Slot, call: &Call, reply: &Reply) -> bool
        ensures yes { IsTrue result → GrantHasPlaces self.old call.now reply.now → IsStep (StandsFor self.old) (Event.Mutator slot call.now) reply.now (StandsFor self.new) }
        ensures no { result ≡ false → IsNoStep self.old (Event.Mutator slot call.now) reply.now }
        ensures same { result ≡ false → self.new ≡ self.old }
        ensures origin { self.new.origin ≡ self.old.origin }
    {
        self.laws();
        if !is_same(&self.answer(slot, *call), reply) {
            return false;
        }
        // A refused call changes nothing.
        let Reply::Refused(_) = reply else {
            self.make(slot, *call);
            return true;
        };
        true
    }

    /// Whether a request may be answered so without being granted, where objects may lie anywhere.
    pub fn may_refuse(&self, slot: Slot, words: u64, reply: &Reply) -> bool
        ensures yes { IsTrue result → MayRefuse self.now slot words reply.now }
        ensures no { result ≡ false → CantRefuse self.now slot words reply.now }
    {
        let Some(_) = self.mutator(slot) else {
            return is_same(reply, &Reply::Refused(Refusal::NoSlot));
        };
        if is_same(reply, &Reply::Refused(Refusal::Full)) {
            return true;
        }
        let None = self.roots.placement(words) else {
            return false;
        };
        is_same(reply, &Reply::Refused(Refusal::BadSize))
    }
}
