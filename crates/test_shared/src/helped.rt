//! Cycles that end with helpers give the replies of those that end without.
ghost use Rattle.std.specs.Prelude.{◌≡◌};

use crate::serve::{Actors, leave, reg, serve_call};
use final_pause::{Helpers, Open};
use heap_core::Core;
use heap_core::quiet::{Mark, Roots};
use heap_spec::{Call, Reply};
use history::{Naming, Opened};
use shared::{Collector, Mutator, SharedHeap, open};
use std::alloc::Global;
use std::marker::Brand;
use std::process::Abort;
use std::sync::Wait;
use std::test::Fail;
use std::thread::Threads;
use words::limits::MAX_HELPERS;
use words::{Kind, Refusal};

// How many nodes are in the list before the cycle begins, and how many come while it is marking.
const FIRST: u64 = 40;

const MORE: u64 = 20;

// How many nodes leave the list before the next cycle begins.
const FEWER: u64 = 10;

// What the ends of cycles answered, and the words of the list at last.
#[derive(Clone, Copy, Debug, PartialEq, Eq)]
struct Outcome {
    early: Result<u64, Refusal>,
    first: Result<u64, Refusal>,
    second: Result<u64, Refusal>,
    late: Result<u64, Refusal>,
    sum: u64,
}

// Ends the cycle with so many helpers, or alone.
fn end<J: Naming, R: Threads + Wait + Sync>(
    rt: &R,
    alloc: Global,
    heap: &SharedHeap<J>,
    collector: &mut Collector<J>,
    helpers: &Option<Helpers>,
) -> Result<u64, Refusal> {
    match helpers {
        Some(helpers) => heap.finish_with(rt, alloc, collector, *helpers, &Open),
        None => heap.finish(rt, collector),
    }
}

// A node in front of the list of register 1, with its number.
fn push_node<J: Naming>(rt: &impl Wait, heap: &SharedHeap<J>, me: &mut Mutator<J>, number: u64) {
    serve_call(rt, heap, me, Call::Alloc(reg(2), 2, Kind::Normal));
    serve_call(rt, heap, me, Call::Set(reg(3), number));
    serve_call(rt, heap, me, Call::Store(reg(2), 0, reg(3)));
    serve_call(rt, heap, me, Call::Store(reg(2), 1, reg(1)));
    serve_call(rt, heap, me, Call::Copy(reg(1), reg(2)));
}

// Nodes with these numbers, and after each a node that nothing points into.
fn push<J: Naming>(rt: &impl Wait, heap: &SharedHeap<J>, me: &mut Mutator<J>, from: u64, to: u64) {
    for number in from..to {
        push_node(rt, heap, me, number);
        serve_call(rt, heap, me, Call::Alloc(reg(2), 4, Kind::Normal));
        serve_call(rt, heap, me, Call::Set(reg(2), 0));
    }
}

// Takes so many nodes off the list, and answers the sum of their numbers.
fn pop<J: Naming>(rt: &impl Wait, heap: &SharedHeap<J>, me: &mut Mutator<J>, nodes: u64) -> u64 {
    let mut sum: u64 = 0;
    for _ in 0..nodes {
        if let Reply::Word(number) = serve_call(rt, heap, me, Call::Load(reg(3), reg(1), 0)) {
            sum = sum.wrapping_add(number);
        }
        serve_call(rt, heap, me, Call::Load(reg(1), reg(1), 1));
    }
    sum
}

// A cycle begins.
fn begin<J: Naming>(rt: &impl Wait, heap: &SharedHeap<J>, collector: &mut Collector<J>) {
    let _begun = heap.begin(rt, collector);
}

// It marks a little.
fn mark<J: Naming>(rt: &impl Wait, heap: &SharedHeap<J>, collector: &mut Collector<J>) {
    let _roots = heap.quiet(rt, collector, &mut Roots);
    let _some = heap.quiet(rt, collector, &mut Mark(3));
}

fn end_two<J: Naming, R: Threads + Wait + Sync>(
    rt: &R,
    alloc: Global,
    heap: &SharedHeap<J>,
    actors: &mut Actors<J>,
    helpers: &Option<Helpers>,
) -> Outcome {
    let Actors { me, collector } = actors;
    let early = end(rt, alloc, heap, collector, helpers);
    push(rt, heap, me, 0, FIRST);
    begin(rt, heap, collector);
    mark(rt, heap, collector);
    push(rt, heap, me, FIRST, FIRST + MORE);
    let first = end(rt, alloc, heap, collector, helpers);
    let popped = pop(rt, heap, me, FEWER);
    begin(rt, heap, collector);
    let second = end(rt, alloc, heap, collector, helpers);
    let late = end(rt, alloc, heap, collector, helpers);
    let rest = pop(rt, heap, me, FIRST + MORE - FEWER);
    Outcome {
        early,
        first,
        second,
        late,
        sum: popped.wrapping_add(rest),
    }
}

fn end_cycles<J: Naming, R: Threads + Wait + Abort + Sync>(
    rt: &R,
    alloc: Global,
    opened: Opened<Core>,
    helpers: Option<Helpers>,
) -> Outcome
    requires { (opened.table ≡ J.table) × (opened.origin ≡ J.origin) }
{
    let (heap, collector) = SharedHeap::<J>::named(opened);
    let me = heap.attach(rt).ok().expect(rt, "a slot");
    let mut actors = Actors { me, collector };
    let outcome = end_two(rt, alloc, &heap, &mut actors, &helpers);
    leave(rt, &heap, actors);
    outcome
}

// What each way to end a cycle is to answer: nodes that nothing points into go, those that came while it was marking only
// with the next one.
const WANTED: Outcome = Outcome {
    early: Err(Refusal::WrongPhase),
    first: Ok(FIRST),
    second: Ok(MORE + FEWER),
    late: Err(Refusal::WrongPhase),
    sum: (FIRST + MORE) * (FIRST + MORE - 1) / 2,
};

#[test]
fn a_cycle_ends_alone(rt: HostRuntime) -> Result<(), Fail> {
    let opened = open(rt.alloc(), 4).ok().ok_or("a heap")?;
    let alone = end_cycles::<Brand, _>(&rt, rt.alloc(), opened, None);
    assert_eq!(rt; alone, WANTED);
    Ok(())
}

#[test]
fn any_number_of_helpers_ends_it_alike(rt: HostRuntime) -> Result<(), Fail> {
    for number in 1..=MAX_HELPERS {
        let helpers = Helpers::new(number).ok_or("helpers")?;
        let opened = open(rt.alloc(), 4).ok().ok_or("a heap")?;
        let helped = end_cycles::<Brand, _>(&rt, rt.alloc(), opened, Some(helpers));
        assert_eq!(rt; helped, WANTED, "{number} helpers");
    }
    Ok(())
}

// Where memory is refused once the heap is open, at whichever request, the replies are the usual ones. By itself this runs
// with ample memory; `rt try --test --fail-alloc N` refuses the N-th request.
#[test]
fn refused_memory(rt: HostRuntime) -> Result<(), Fail> {
    let helpers = Helpers::new(2).ok_or("two helpers")?;
    let Ok(opened) = open(rt.alloc(), 4) else {
        return Ok(());
    };
    let helped = end_cycles::<Brand, _>(&rt, rt.alloc(), opened, Some(helpers));
    assert_eq!(rt; helped, WANTED);
    Ok(())
}
