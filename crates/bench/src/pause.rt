//! The pause alone and with helpers.
use crate::figures::{report, since};
use crate::heap::Heap;
use crate::marking::{LISTS, fill, link, object};
use final_pause::Helpers;
use std::alloc::Global;
use std::io;
use std::marker::Sync;
use std::rt::Clock;
use std::sync::Wait;
use std::thread::Threads;
use std::time::Instant;
use words::limits::MAX_PAGES;

const ROUNDS: u32 = 30;

// The roots of many lists, or of the one list or tree.
fn put_roots(shape: &str, count: u64, roots: &mut [u64]) {
    let lists = if shape == "lists" { LISTS } else { 1 };
    for i in 0..roots.len() as u64 {
        if i < lists {
            roots[i as usize] = object((count / lists).wrapping_mul(i));
        }
    }
}

// A pause that is timed: over so many objects of a shape, from these roots, by so many helpers.
#[derive(Clone, Copy)]
struct Timed<'a> {
    shape: &'a str,
    count: u64,
    roots: &'a [u64],
    number: u8,
}

// Marks all in one pause, and prints the least time of all rounds.
fn time_pause<R: Threads + Wait + Sync + Eprint + Clock>(
    rt: &R,
    alloc: Global,
    name: &str,
    heap: &mut Heap,
    timed: Timed,
) -> io::Result<()> {
    let mut least = u128::MAX;
    for _ in 0..ROUNDS {
        let start = Instant::now(rt)?;
        heap.pause(
            rt,
            alloc,
            timed.roots,
            Helpers::new(timed.number).map(|helpers| helpers.where_it_pays()),
        );
        least = least.min(since(rt, start)?);
    }
    report(rt, name, least, timed.count, u64::from(timed.number))
}

// The pause by so many helpers, on a line with a name of its own.
fn time_named<R: Threads + Wait + Sync + Eprint + Clock>(
    rt: &R,
    alloc: Global,
    heap: &mut Heap,
    timed: Timed,
) -> io::Result<()> {
    let (shape, count, number) = (timed.shape, timed.count, timed.number);
    let name = format!(in alloc; "pause_{shape}_{count}_by_{number}")?;
    time_pause(rt, alloc, name.as_str(), heap, timed)
}

// The pause alone, and by 1, 2 and 4 helpers.
fn time_shape<R: Threads + Wait + Sync + Eprint + Clock>(
    rt: &R,
    alloc: Global,
    shape: &str,
    heap: &mut Heap,
    count: u64,
) -> io::Result<()> {
    let mut roots = [0; LISTS as usize];
    put_roots(shape, count, &mut roots);
    for number in [0, 1, 2, 4] {
        let timed = Timed {
            shape,
            count,
            roots: &roots,
            number,
        };
        time_named(rt, alloc, heap, timed)?;
    }
    Ok(())
}

fn measure_shape<R: Threads + Wait + Sync + Eprint + Clock>(
    rt: &R,
    alloc: Global,
    shape: &str,
    count: u64,
) -> io::Result<()> {
    let Some(mut heap) = Heap::open(alloc, MAX_PAGES, 0) else {
        return Ok(());
    };
    fill(&mut heap, count);
    link(&mut heap, shape, count);
    time_shape(rt, alloc, shape, &mut heap, count)
}

/// Pauses over many lists, a tree and a list; with no helper they are the calling thread's alone.
pub(crate) fn measure<R: Threads + Wait + Sync + Eprint + Clock>(
    rt: &R,
    alloc: Global,
) -> io::Result<()> {
    for (shape, count) in [
        ("lists", 100_000),
        ("tree", 100_000),
        ("list", 100_000),
        ("lists", 640),
        ("lists", 6_400),
    ] {
        measure_shape(rt, alloc, shape, count)?;
    }
    Ok(())
}
