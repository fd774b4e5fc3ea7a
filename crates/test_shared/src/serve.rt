//! Commands as calls of a shared heap, in one thread.

use heap_core::quiet::{Mark, Retrace, Roots, Sweep};
use heap_spec::answers::{count, done, word};
use heap_spec::{Call, Event, Reply};
use history::Naming;
use shared::{Collector, Mutator, SharedHeap};
use std::sync::Wait;
use words::limits::REGISTERS;
use words::{Refusal, Reg};

/// A heap's one mutator, and its collector.
pub struct Actors<J: Naming> {
    pub me: Mutator<J>,
    pub collector: Collector<J>,
}

/// Both leave: the mutator is detached.
pub fn leave<J: Naming>(rt: &impl Wait, heap: &SharedHeap<J>, actors: Actors<J>) {
    let Actors { me, collector: _ } = actors;
    heap.detach(rt, me);
}

/// The register of this number, counted round.
pub fn reg(number: u8) -> Reg {
    let Some(reg) = Reg::new(number % REGISTERS) else {
        unreachable!();
    };
    reg
}

/// Makes a mutator's call. Its detach spends the mutator, so here it is refused.
pub fn serve_call<J: Naming>(
    rt: &impl Wait,
    heap: &SharedHeap<J>,
    me: &mut Mutator<J>,
    call: Call,
) -> Reply {
    match call {
        Call::Detach => Reply::Refused(Refusal::NoSlot),
        Call::Set(into, value) => done(heap.set(rt, me, into, value)),
        Call::Copy(into, from) => done(heap.copy(rt, me, into, from)),
        Call::Add(into, from, number) => done(heap.add(rt, me, into, from, number)),
        Call::Sub(into, from, less) => done(heap.sub(rt, me, into, from, less)),
        Call::Get(from) => word(heap.get(rt, me, from)),
        Call::Push(from) => done(heap.push(rt, me, from)),
        Call::Pop(into) => word(heap.pop(rt, me, into)),
        Call::Load(into, at, offset) => word(heap.load(rt, me, into, at, offset)),
        Call::Store(at, offset, from) => done(heap.store(rt, me, at, offset, from)),
        Call::Alloc(into, words, kind) => done(heap.alloc(rt, me, into, words, kind)),
        Call::Free(at) => done(heap.free(rt, me, at)),
        Call::Base(into, at) => word(heap.base(rt, me, into, at)),
        Call::Size(at) => count(heap.size(rt, me, at)),
        Call::GlobalGet(into, global) => word(heap.gget(rt, me, into, global)),
        Call::GlobalPut(global, from) => done(heap.gput(rt, me, global, from)),
        Call::Link(at, offset, to) => done(heap.link(rt, me, at, offset, to)),
        Call::Unlink(at, offset) => count(heap.unlink(rt, me, at, offset)),
    }
}

/// Makes the call that a command is, of the one mutator or of the collector.
pub fn serve<J: Naming>(
    rt: &impl Wait,
    heap: &SharedHeap<J>,
    actors: &mut Actors<J>,
    event: Event,
) -> Reply {
    let me = &mut actors.me;
    let collector = &mut actors.collector;
    match event {
        Event::Attach => Reply::Slot(me.slot()),
        Event::Mutator(_, call) => serve_call(rt, heap, me, call),
        Event::Begin => done(heap.begin(rt, collector)),
        Event::BeginPartial => done(heap.begin_partial(rt, collector)),
        Event::Roots => done(heap.quiet(rt, collector, &mut Roots)),
        Event::Mark(most) => count(heap.quiet(rt, collector, &mut Mark(most))),
        Event::Retrace => count(heap.quiet(rt, collector, &mut Retrace)),
        Event::Finish => count(heap.finish(rt, collector)),
        Event::Sweep => count(heap.quiet(rt, collector, &mut Sweep)),
        Event::Collect => Reply::Count(heap.collect(rt, collector)),
        Event::Number => Reply::Count(heap.gc_no_of(collector)),
    }
}
