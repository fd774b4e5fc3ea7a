//! A mutator that left: its slot is free, what it stored is there, and whoever hears of it makes its calls as before.
ghost use Rattle.std.specs.Prelude.{◌≡◌};

use crate::serve::{reg, serve_call};
use heap_core::Core;
use heap_spec::{Call, Reply};
use history::{Naming, Opened};
use shared::{Collector, Departed, Mutator, SharedHeap, open};
use std::marker::Brand;
use std::process::Abort;
use std::sync::Wait;
use std::test::Fail;
use words::{Global, Kind};

// The word that the mutator leaves behind.
const LEFT: u64 = 4_711;

// A mutator comes, leaves an object with the word in a global, and goes while a cycle marks.
fn come_and_go<J: Naming, R: Wait + Abort>(
    rt: &R,
    heap: &SharedHeap<J>,
    global: Global,
) -> Departed<J> {
    let mut me = heap.attach(rt).ok().expect(rt, "a slot");
    serve_call(rt, heap, &mut me, Call::Alloc(reg(1), 2, Kind::Normal));
    serve_call(rt, heap, &mut me, Call::Set(reg(2), LEFT));
    serve_call(rt, heap, &mut me, Call::Store(reg(1), 0, reg(2)));
    serve_call(rt, heap, &mut me, Call::GlobalPut(global, reg(1)));
    heap.depart(rt, me)
}

// Ends the cycle, after which the word is where the mutator left it. Answers how many collections both count.
fn end<J: Naming, R: Wait + Abort>(
    rt: &R,
    heap: &SharedHeap<J>,
    me: &mut Mutator<J>,
    collector: &mut Collector<J>,
    global: Global,
) -> (u64, u64) {
    let _gone = heap.finish(rt, collector).ok().expect(rt, "an end");
    serve_call(rt, heap, me, Call::GlobalGet(reg(3), global));
    let left = serve_call(rt, heap, me, Call::Load(reg(4), reg(3), 0));
    assert_eq!(rt; left, Reply::Word(LEFT));
    (heap.gc_no(me), heap.gc_no_of(collector))
}

fn check<J: Naming, R: Wait + Abort>(rt: &R, opened: Opened<Core>, global: Global)
    requires { (opened.table ≡ J.table) × (opened.origin ≡ J.origin) }
{
    let (heap, mut collector) = SharedHeap::<J>::named(opened);
    let mut me = heap.attach(rt).ok().expect(rt, "a slot");
    heap.begin(rt, &mut collector).ok().expect(rt, "a begin");
    let mut gone = come_and_go(rt, &heap, global);
    heap.hear(&mut me, &mut gone);
    heap.hear_of(&mut collector, &mut gone);
    let counts = end(rt, &heap, &mut me, &mut collector, global);
    // What it had seen is older by now: to hear it again changes nothing.
    heap.hear(&mut me, &mut gone);
    let again = (heap.gc_no(&mut me), heap.gc_no_of(&mut collector));
    let next = heap.attach(rt).ok().expect(rt, "a slot");
    let slots = [gone.slot().number(), next.slot().number()];
    let came = heap.attaches(rt, &mut me);
    heap.detach(rt, next);
    heap.detach(rt, me);
    assert_eq!(rt; [counts, again], [(1, 1), (1, 1)]);
    assert_eq!(rt; slots, [1, 1]);
    assert_eq!(rt; came, 3);
}

#[test]
fn a_mutator_that_left_is_heard(rt: HostRuntime) -> Result<(), Fail> {
    let global = Global::new(0).ok_or("a global")?;
    let opened = open(rt.alloc(), 4).ok().ok_or("a heap")?;
    check::<Brand, _>(&rt, opened, global);
    Ok(())
}
