//! The replayer, how it is made, and its one question.
ghost use Rattle.std.specs.Prelude.{◌≡◌, ℕ, ◌+◌, ◌*◌, ◌%◌, ◌<◌, ◌≤◌, IfOk, IsTrue, false, []};
ghost use Rattle.words.specs.declared.limits.TheConstants.{FIRST_ADDRESS, MAX_PAGES, PAGE_BYTES, WORD_BYTES};
ghost use Rattle.heap_spec.specs.Layout.{word_end};
ghost use Rattle.heap_spec.specs.Runs.{opening_start, needs_full_after as needs_full_by};
ghost use Rattle.replayer.specs.ReplayerContents.{Follows};
ghost use Rattle.replayer.specs.declared.hint.Hint.{Hint as HintValue};
ghost use Rattle.replayer.specs.Replays.{IsReplayed, IsNoReplay, IsGrant, JudgesGrants};
ghost use Rattle.replayer.specs.Requests.{asks};

use crate::flags::{flag_call, flag_place, renew};
use crate::hint::Hint;
use crate::request::Request;
use heap_spec::{Call, Event, Reply};
use plain_heap::PlainHeap;
use std::alloc::Global;
use std::marker::Model;
use words::limits::{FIRST_ADDRESS, PAGE_WORDS};
use words::{RunError, Slot};

/// A checker of the runs of one heap.
#[derive(Drop)]
pub struct Replayer {
    pub(crate) heap: PlainHeap,
    pub(crate) marking: bool,
    pub(crate) needs_full: bool,
    pub(crate) number: u64,
    pub(crate) births: u64,
    pub(crate) touched: Vec<bool>,
    pub(crate) aged: Vec<bool>,
}

// Whether a full cycle is needed after a call, from whether one was before: a free that was done needs one.
fn needs_full_after(call: &Call, reply: &Reply, before: bool) -> bool
    ensures { (slot : ℕ) → result ≡ needs_full_by (Event.Mutator slot call.now) reply.now before }
{
    let Call::Free(_) = call else {
        return before;
    };
    let Reply::Done = reply else {
        return before;
    };
    true
}

impl Model for Replayer {
    ghost use Rattle.replayer.specs.ReplayerContents.{ReplayerContents};

    ghost Value = { ReplayerContents };

    ghost view = { λ r. record { heap = r.heap; marking = r.marking; needs_full = r.needs_full; number = r.number; births = r.births; touched = r.touched.items; aged = r.aged.items } };
}

impl Replayer {
    /// A checker of a heap of so many pages, of which nothing was told yet. All memory that it ever takes is taken here.
    ///
    /// # Errors
    /// [`RunError::Memory`] where a growth of memory was refused.
    pub fn new(alloc: Global, pages: u32) -> Result<Replayer, RunError>
        requires { (1 ≤ pages) × (pages ≤ MAX_PAGES) }
        ensures opens { IfOk result (λ replayer. Follows replayer (opening_start pages) []) }
        ensures origin { IfOk result (λ replayer. replayer.heap.origin ≡ FIRST_ADDRESS) }
    {
        Replayer::new_from(alloc, FIRST_ADDRESS, pages)
    }

    /// The same of a heap that begins at an address.
    ///
    /// # Errors
    /// [`RunError::Memory`] where a growth of memory was refused.
    pub fn new_from(alloc: Global, origin: u64, pages: u32) -> Result<Replayer, RunError>
        requires pages { (1 ≤ pages) × (pages ≤ MAX_PAGES) }
        requires aligned { origin % WORD_BYTES ≡ 0 }
        requires past_zero { 0 < origin }
        requires fits { origin + PAGE_BYTES * pages < word_end }
        ensures opens { IfOk result (λ replayer. Follows replayer (opening_start pages) []) }
        ensures origin { IfOk result (λ replayer. replayer.heap.origin ≡ origin) }
    {
        let Ok(heap) = PlainHeap::new_from(alloc, origin, pages) else {
            return Err(RunError::Memory);
        };
        let Ok(touched) = vec![in alloc; false; PAGE_WORDS as usize * pages as usize] else {
            return Err(RunError::Memory);
        };
        let Ok(aged) = vec![in alloc; false; PAGE_WORDS as usize * pages as usize] else {
            return Err(RunError::Memory);
        };
        Ok(Replayer {
            heap,
            marking: false,
            needs_full: true,
            number: 0,
            births: 0,
            touched,
            aged,
        })
    }

    // Whether no birth more can be counted.
    pub(crate) fn is_full(&self) -> bool
        ensures yes { IsTrue result → word_end ≤ self.now.births + 1 }
        ensures no { result ≡ false → self.now.births + 1 < word_end }
    {
        self.births == u64::MAX
    }

    // A request that was granted at the base of the hint.
    fn alloc(&mut self, request: &Request, hint: Hint) -> bool
        ensures yes { IsTrue result → IsReplayed self.old (asks request.now) Reply.Done hint.entry self.new }
        ensures no { result ≡ false → self.old.heap.origin ≡ FIRST_ADDRESS → IsNoReplay self.old (asks request.now) Reply.Done hint.entry }
        ensures same { result ≡ false → self.new ≡ self.old }
        ensures origin { self.new.heap.origin ≡ self.old.heap.origin }
    {
        self.limits();
        let Hint::Place(base) = hint else {
            return false;
        };
        if self.is_full() {
            return false;
        }
        self.heap.objects_are_apart();
        if !self.heap.alloc_at(
            request.slot,
            request.into,
            request.words,
            request.kind,
            base,
        ) {
            return false;
        }
        self.heap.objects_are_apart();
        flag_place(self.marking, &mut self.heap, base, &mut self.touched);
        renew(&self.heap, base, &mut self.aged);
        self.births += 1;
        true
    }

    // A call of a mutator that grants no request.
    fn answered(&mut self, slot: Slot, call: &Call, reply: &Reply) -> bool
        requires { IsGrant call.now reply.now → ⊥ }
        ensures yes { IsTrue result → (hint : HintValue) → IsReplayed self.old (Event.Mutator slot call.now) reply.now hint self.new }
        ensures no { result ≡ false → (hint : HintValue) → IsNoReplay self.old (Event.Mutator slot call.now) reply.now hint }
        ensures same { result ≡ false → self.new ≡ self.old }
        ensures origin { self.new.heap.origin ≡ self.old.heap.origin }
    {
        self.limits();
        self.heap.objects_are_apart();
        if !self.heap.call_as(slot, call, reply) {
            return false;
        }
        self.heap.objects_are_apart();
        flag_call(self.marking, &mut self.heap, slot, call, &mut self.touched);
        self.needs_full = needs_full_after(call, reply, self.needs_full);
        true
    }

    // A mutator comes.
    fn attach(&mut self, reply: &Reply) -> bool
        ensures yes { IsTrue result → (hint : HintValue) → IsReplayed self.old Event.Attach reply.now hint self.new }
        ensures no { result ≡ false → (hint : HintValue) → IsNoReplay self.old Event.Attach reply.now hint }
        ensures same { result ≡ false → self.new ≡ self.old }
        ensures origin { self.new.heap.origin ≡ self.old.heap.origin }
    {
        self.limits();
        self.heap.objects_are_apart();
        if !self.heap.attach_as(reply) {
            return false;
        }
        self.heap.objects_are_apart();
        true
    }

    // A call of a mutator.
    fn call(&mut self, slot: Slot, call: &Call, reply: &Reply, hint: Hint) -> bool
        ensures yes { IsTrue result → IsReplayed self.old (Event.Mutator slot call.now) reply.now hint.entry self.new }
        ensures no { result ≡ false → JudgesGrants self.old (Event.Mutator slot call.now) reply.now → IsNoReplay self.old (Event.Mutator slot call.now) reply.now hint.entry }
        ensures same { result ≡ false → self.new ≡ self.old }
        ensures origin { self.new.heap.origin ≡ self.old.heap.origin }
    {
        let Reply::Done = reply else {
            return self.answered(slot, call, reply);
        };
        let Call::Alloc(into, words, kind) = call else {
            return self.answered(slot, call, reply);
        };
        let request = Request {
            slot,
            into: *into,
            words: *words,
            kind: *kind,
        };
        self.alloc(&request, hint)
    }

    // An event, by its kind.
    fn replay(&mut self, event: Event, reply: &Reply, hint: Hint) -> bool
        ensures yes { IsTrue result → IsReplayed self.old event reply.now hint.entry self.new }
        ensures no { result ≡ false → JudgesGrants self.old event reply.now → IsNoReplay self.old event reply.now hint.entry }
        ensures same { result ≡ false → self.new ≡ self.old }
        ensures origin { self.new.heap.origin ≡ self.old.heap.origin }
    {
        self.limits();
        match event {
            Event::Attach => self.attach(reply),
            Event::Mutator(slot, call) => self.call(slot, &call, reply, hint),
            Event::Begin => self.begin(reply),
            Event::BeginPartial => self.begin_partial(reply),
            Event::Roots => self.roots(reply),
            Event::Mark(most) => self.mark(most, reply),
            Event::Retrace => self.retrace(reply),
            Event::Finish => self.finish(reply, hint),
            Event::Sweep => self.sweep(reply),
            Event::Collect => self.collect(reply, hint),
            Event::Number => self.count(reply),
        }
    }

    /// Whether the event with its reply goes on with what was told so far, by the hint. If so, the replayer goes on to the
    /// heap after it, and else it stays where it was. It takes no memory. Size classes place objects in pages from
    /// `FIRST_ADDRESS` on, so of a granted request a no says something only of a heap that begins there.
    pub fn step(&mut self, event: &Event, reply: &Reply, hint: Hint) -> bool
        ensures yes { IsTrue result → IsReplayed self.old event.now reply.now hint.entry self.new }
        ensures no { result ≡ false → JudgesGrants self.old event.now reply.now → IsNoReplay self.old event.now reply.now hint.entry }
        ensures same { result ≡ false → self.new ≡ self.old }
        ensures origin { self.new.heap.origin ≡ self.old.heap.origin }
    {
        self.replay(*event, reply, hint)
    }
}
