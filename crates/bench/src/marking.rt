//! Marking of words and of objects.
use crate::figures::{report, since};
use crate::heap::Heap;
use fixtures::Random;
use std::alloc::Global;
use std::io;
use std::rt::Clock;
use std::time::Instant;
use words::limits::{FIRST_ADDRESS, GRANULE_BYTES, PAGE_GRANULES, PAGE_WORDS, WORD_BYTES};

const WORDS: u64 = 262_144;

const WORD_PAGES: u32 = (WORDS / PAGE_WORDS) as u32;

const ROUNDS: u32 = 30;

/// How many lists there are where the shape has many.
pub(crate) const LISTS: u64 = 64;

// Words below the heap, drawn anew for each place.
fn draw(heap: &mut Heap) {
    let mut random = Random::new(1);
    for place in 0..WORDS {
        heap.write(
            FIRST_ADDRESS + WORD_BYTES * place,
            random.below(FIRST_ADDRESS),
        );
    }
}

/// The base of an object of two words. Those of a page leave no word over.
pub(crate) fn object(number: u64) -> u64 {
    FIRST_ADDRESS.wrapping_add(number.wrapping_mul(GRANULE_BYTES))
}

/// Which objects the two words of an object read.
pub(crate) fn targets(shape: &str, number: u64, count: u64) -> (u64, u64) {
    let count = count.max(1);
    let spread = number.wrapping_mul(1_741).wrapping_add(54_321) % count;
    match shape {
        "lists" if number.wrapping_add(1) % (count / LISTS).max(1) == 0 => (count, count),
        "lists" => (number.wrapping_add(1), count),
        "list" => (number.wrapping_add(1), count),
        "tree" => (
            number.wrapping_mul(2).wrapping_add(1),
            number.wrapping_mul(2).wrapping_add(2),
        ),
        "every_other" => (number.wrapping_add(2), count),
        _ => (spread, number.wrapping_mul(7_919).wrapping_add(3) % count),
    }
}

/// Allocates objects of two words.
pub(crate) fn fill(heap: &mut Heap, count: u64) {
    for number in 0..count {
        let page = u32::try_from(number / PAGE_GRANULES).unwrap_or(0);
        if number % PAGE_GRANULES == 0 {
            heap.cut(page);
        }
        heap.take(page);
    }
}

// A pointer to an object, and 0 where there is none with that number.
fn pointer(number: u64, count: u64) -> u64 {
    if number < count { object(number) } else { 0 }
}

/// Writes the words of all objects.
pub(crate) fn link(heap: &mut Heap, shape: &str, count: u64) {
    for number in 0..count {
        let (first, second) = targets(shape, number, count);
        let base = object(number);
        heap.write(base, pointer(first, count));
        heap.write(base.wrapping_add(WORD_BYTES), pointer(second, count));
    }
}

// Marks from the first object, where nothing is marked, and prints the least time of all rounds.
fn time_marking<R: Eprint + Clock>(
    rt: &R,
    name: &str,
    heap: &mut Heap,
    count: u64,
) -> io::Result<()> {
    let mut least = u128::MAX;
    let mut read = 0;
    for _ in 0..ROUNDS {
        let start = Instant::now(rt)?;
        read = heap.mark(&[FIRST_ADDRESS]);
        least = least.min(since(rt, start)?);
    }
    report(rt, name, least, count, read)
}

// An object at a time, each reads others as the shape says.
fn measure_objects<R: Eprint + Clock>(
    rt: &R,
    alloc: Global,
    name: &str,
    shape: &str,
    count: u64,
) -> io::Result<()> {
    let Some(mut heap) = Heap::open(alloc, 400, 0) else {
        return Ok(());
    };
    fill(&mut heap, count);
    link(&mut heap, shape, count);
    time_marking(rt, name, &mut heap, count)
}

// One object of many words.
fn measure_words<R: Eprint + Clock>(rt: &R, alloc: Global) -> io::Result<()> {
    let Some(mut heap) = Heap::open(alloc, WORD_PAGES, WORD_PAGES) else {
        return Ok(());
    };
    draw(&mut heap);
    time_marking(rt, "mark_words", &mut heap, WORDS)
}

/// Marking of one object of many words, and of lists, trees and graphs.
pub(crate) fn measure<R: Eprint + Clock>(rt: &R, alloc: Global) -> io::Result<()> {
    measure_words(rt, alloc)?;
    for (shape, count, name) in [
        ("list", 1_000, "mark_list_1000"),
        ("list", 10_000, "mark_list_10000"),
        ("list", 100_000, "mark_list_100000"),
        ("tree", 1_000, "mark_tree_1000"),
        ("tree", 10_000, "mark_tree_10000"),
        ("tree", 100_000, "mark_tree_100000"),
        ("graph", 1_000, "mark_graph_1000"),
        ("graph", 10_000, "mark_graph_10000"),
        ("graph", 100_000, "mark_graph_100000"),
    ] {
        measure_objects(rt, alloc, name, shape, count)?;
    }
    Ok(())
}
