//! What contracts leave to a mutator that comes and goes inside of a call: that none came shows in how many did, and that
//! none did anything to a live object shows in the object.
ghost use Rattle.std.specs.Prelude.{◌≡◌};

use crate::serve::{Actors, leave, reg, serve, serve_call};
use final_pause::{Helpers, Open};
use heap_core::Core;
use heap_spec::answers::count;
use heap_spec::{Call, Event, Reply};
use history::{Naming, Opened};
use shared::{Mutator, SharedHeap, open};
use std::alloc::Global;
use std::marker::Brand;
use std::process::Abort;
use std::sync::Wait;
use std::test::Fail;
use std::thread::Threads;
use words::{Kind, Slot};

// What is asked of a heap that has one live object.
#[derive(Clone, Copy)]
enum Asked {
    Alone(Event),
    /// The end of a cycle with helpers.
    WithHelpers(Helpers),
}

// The mutators that came: one that went again, and the object's.
const CAME: u64 = 2;

// The object's words.
const FIRST: u64 = 77;

const SECOND: u64 = 78;

fn make<J: Naming, R: Threads + Wait + Sync>(
    rt: &R,
    alloc: Global,
    heap: &SharedHeap<J>,
    actors: &mut Actors<J>,
    asked: Asked,
) -> Reply {
    match asked {
        Asked::Alone(event) => serve(rt, heap, actors, event),
        Asked::WithHelpers(helpers) => {
            count(heap.finish_with(rt, alloc, &mut actors.collector, helpers, &Open))
        }
    }
}

// The object, in register 1.
fn put<J: Naming>(rt: &impl Wait, heap: &SharedHeap<J>, me: &mut Mutator<J>) {
    serve_call(rt, heap, me, Call::Alloc(reg(1), 2, Kind::Normal));
    serve_call(rt, heap, me, Call::Set(reg(2), FIRST));
    serve_call(rt, heap, me, Call::Store(reg(1), 0, reg(2)));
    serve_call(rt, heap, me, Call::Set(reg(2), SECOND));
    serve_call(rt, heap, me, Call::Store(reg(1), 1, reg(2)));
}

// The object is whole, and no other mutator came than those that were asked to.
fn is_untouched<J: Naming>(rt: &impl Wait, heap: &SharedHeap<J>, actors: &mut Actors<J>) -> bool {
    let Actors { me, collector } = actors;
    let size = serve_call(rt, heap, me, Call::Size(reg(1)));
    let first = serve_call(rt, heap, me, Call::Load(reg(9), reg(1), 0));
    let second = serve_call(rt, heap, me, Call::Load(reg(9), reg(1), 1));
    let object = [size, first, second]
        == [Reply::Count(2), Reply::Word(FIRST), Reply::Word(SECOND)];
    let came = [heap.attaches(rt, me), heap.attaches_of(rt, collector)];
    object && came == [CAME, CAME]
}

// The first call that is refused, or after which the object isn't whole or another mutator came.
fn first_wrong<J: Naming, R: Threads + Wait + Sync>(
    rt: &R,
    alloc: Global,
    heap: &SharedHeap<J>,
    actors: &mut Actors<J>,
    calls: &[Asked],
) -> Option<usize> {
    for i in 0..calls.len() {
        let reply = make(rt, alloc, heap, actors, calls[i]);
        if matches!(reply, Reply::Refused(_)) || !is_untouched(rt, heap, actors) {
            return Some(i);
        }
    }
    None
}

fn check<J: Naming, R: Threads + Wait + Abort + Sync>(
    rt: &R,
    alloc: Global,
    opened: Opened<Core>,
    calls: &[Asked],
)
    requires { (opened.table ≡ J.table) × (opened.origin ≡ J.origin) }
{
    let (heap, collector) = SharedHeap::<J>::named(opened);
    let gone = heap.attach(rt).ok().expect(rt, "a slot");
    heap.detach(rt, gone);
    let mut me = heap.attach(rt).ok().expect(rt, "a slot");
    put(rt, &heap, &mut me);
    let mut actors = Actors { me, collector };
    let wrong = first_wrong(rt, alloc, &heap, &mut actors, calls);
    leave(rt, &heap, actors);
    assert_eq!(rt; wrong, None);
}

// Each call that leaves the object and its register, in one of its granted forms.
fn calls(slot: Slot, global: words::Global, helpers: Helpers) -> [Asked; 25] {
    let by_mutator = |call: Call| Asked::Alone(Event::Mutator(slot, call));
    [
        by_mutator(Call::Set(reg(3), 1)),
        by_mutator(Call::Copy(reg(4), reg(3))),
        by_mutator(Call::Add(reg(4), reg(3), 1)),
        by_mutator(Call::Sub(reg(4), reg(4), reg(3))),
        by_mutator(Call::Get(reg(1))),
        by_mutator(Call::Push(reg(3))),
        by_mutator(Call::Pop(reg(4))),
        by_mutator(Call::Alloc(reg(5), 2, Kind::Normal)),
        by_mutator(Call::Store(reg(5), 0, reg(3))),
        by_mutator(Call::Load(reg(4), reg(5), 0)),
        by_mutator(Call::Base(reg(4), reg(5))),
        by_mutator(Call::Size(reg(5))),
        by_mutator(Call::Free(reg(5))),
        Asked::Alone(Event::Begin),
        Asked::Alone(Event::Roots),
        Asked::Alone(Event::Mark(8)),
        Asked::Alone(Event::Retrace),
        Asked::Alone(Event::Finish),
        Asked::Alone(Event::Sweep),
        Asked::Alone(Event::Begin),
        Asked::WithHelpers(helpers),
        Asked::Alone(Event::Collect),
        Asked::Alone(Event::Number),
        by_mutator(Call::GlobalPut(global, reg(3))),
        by_mutator(Call::GlobalGet(reg(4), global)),
    ]
}

#[test]
fn no_call_brings_a_mutator(rt: HostRuntime) -> Result<(), Fail> {
    let slot = Slot::new(0).ok_or("a slot")?;
    let global = words::Global::new(0).ok_or("a global")?;
    let helpers = Helpers::new(2).ok_or("two helpers")?;
    let opened = open(rt.alloc(), 4).ok().ok_or("a heap")?;
    check::<Brand, _>(&rt, rt.alloc(), opened, &calls(slot, global, helpers));
    Ok(())
}
