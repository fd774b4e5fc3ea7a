//! Mutators that come and go, and what passes learn from one another, in one thread.
ghost use Rattle.std.specs.Prelude.{◌≡◌};

use heap_core::Core;
use history::{Naming, Opened};
use shared::{Collector, Mutator, SharedHeap, open};
use std::marker::Brand;
use std::process::Abort;
use std::sync::Wait;
use std::test::Fail;
use words::{OpenError, Reg};

// Two at a time, of which one makes a call before the other comes. All but the first come while a cycle is marking.
fn come_and_go<J: Naming, R: Wait + Abort>(rt: &R, opened: Opened<Core>)
    requires { (opened.table ≡ J.table) × (opened.origin ≡ J.origin) }
{
    let (heap, mut collector) = SharedHeap::<J>::named(opened);
    let register = Reg::new(2).expect(rt, "a register");
    for turn in 0..17 {
        let mut first = heap.attach(rt).ok().expect(rt, "a slot");
        let _done = heap.set(rt, &mut first, register, turn);
        let second = heap.attach(rt).ok().expect(rt, "a slot");
        let _begun = heap.begin(rt, &mut collector);
        heap.detach(rt, first);
        heap.detach(rt, second);
    }
}

#[test]
fn seventeen_pairs_come_and_go(rt: HostRuntime) -> Result<(), Fail> {
    let opened = open(rt.alloc(), 1).ok().ok_or("a heap")?;
    come_and_go::<Brand, _>(&rt, opened);
    Ok(())
}

// The count after two collections, as each of two mutators and the collector tells it.
fn count_two<J: Naming>(
    rt: &impl Wait,
    heap: &SharedHeap<J>,
    a: &mut Mutator<J>,
    b: &mut Mutator<J>,
    collector: &mut Collector<J>,
) -> [u64; 3] {
    heap.collect(rt, collector);
    heap.collect(rt, collector);
    heap.meet_collector(a, collector);
    let by_a = heap.gc_no(a);
    heap.meet(a, b);
    let by_b = heap.gc_no(b);
    [by_a, by_b, heap.gc_no_of(collector)]
}

fn count_in_a_row<J: Naming, R: Wait + Abort>(rt: &R, opened: Opened<Core>)
    requires { (opened.table ≡ J.table) × (opened.origin ≡ J.origin) }
{
    let (heap, mut collector) = SharedHeap::<J>::named(opened);
    let mut a = heap.attach(rt).ok().expect(rt, "a slot");
    let mut b = heap.attach(rt).ok().expect(rt, "a slot");
    let counts = count_two(rt, &heap, &mut a, &mut b, &mut collector);
    heap.detach(rt, a);
    heap.detach(rt, b);
    assert_eq!(rt; counts, [2, 2, 2]);
}

// Where memory is refused, at whichever request, the answer is that, and the same call made again opens a heap. By itself
// this runs with ample memory; `rt try --test --fail-alloc N` refuses the N-th request.
#[test]
fn a_refused_open_can_be_made_again(rt: HostRuntime) -> Result<(), Fail> {
    let opened = match open(rt.alloc(), 4) {
        Ok(opened) => opened,
        Err(refused) => {
            assert_eq!(rt; refused, OpenError::Memory);
            open(rt.alloc(), 4).ok().ok_or("a heap")?
        }
    };
    count_in_a_row::<Brand, _>(&rt, opened);
    Ok(())
}
