//! A collector that ends cycle after cycle, in a thread of its own.
use crate::stress::CALLS;
use heap_core::quiet::{Mark, Retrace, Roots, Sweep};
use history::Naming;
use shared::{Collector, SharedHeap};
use std::sync::Wait;

/// The calls of a cycle.
pub(crate) const CALLS_A_CYCLE: u64 = 8;

/// The collector with its heap.
#[derive(Drop)]
pub(crate) struct Cycles<'a, J: Naming, R: Wait> {
    pub(crate) rt: &'a R,
    pub(crate) heap: &'a SharedHeap<J>,
    pub(crate) collector: Collector<J>,
    pub(crate) ended: u64,
}

fn begin<J: Naming>(rt: &impl Wait, heap: &SharedHeap<J>, collector: &mut Collector<J>) {
    let _begun = heap.begin(rt, collector);
    let _roots = heap.quiet(rt, collector, &mut Roots);
}

fn mark<J: Naming>(rt: &impl Wait, heap: &SharedHeap<J>, collector: &mut Collector<J>) {
    let _some = heap.quiet(rt, collector, &mut Mark(16));
    let _page = heap.quiet(rt, collector, &mut Retrace);
    let _more = heap.quiet(rt, collector, &mut Mark(64));
}

// Answers the cycles that ended.
fn end<J: Naming>(rt: &impl Wait, heap: &SharedHeap<J>, collector: &mut Collector<J>) -> u64 {
    let _count = heap.finish(rt, collector);
    let _swept = heap.quiet(rt, collector, &mut Sweep);
    heap.gc_no_of(collector)
}

/// Ends as many cycles as it takes.
pub(crate) fn cycle<'a, J: Naming, R: Wait>(cycles: Cycles<'a, J, R>) -> Cycles<'a, J, R> {
    let mut cycles = cycles;
    for _ in 0..CALLS / CALLS_A_CYCLE {
        begin(cycles.rt, cycles.heap, &mut cycles.collector);
        mark(cycles.rt, cycles.heap, &mut cycles.collector);
        cycles.ended = end(cycles.rt, cycles.heap, &mut cycles.collector);
    }
    cycles
}
