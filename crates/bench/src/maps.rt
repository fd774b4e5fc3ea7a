//! The map and the pool of a heap of the most pages.
use crate::figures::{report, since};
use block_map::BlockMap;
use fixtures::{BlockSpace, Random};
use pages::PagePool;
use std::alloc::Global;
use std::io;
use std::rt::Clock;
use std::time::Instant;
use words::limits::{FIRST_ADDRESS, MAX_PAGES, PAGE_BYTES, WORD_BYTES};
use words::{Kind, PageNo, page_start};

const WORDS: usize = 4_096;

const ROUNDS: u32 = 200;

const HALF: u32 = MAX_PAGES / 2;

fn find_all(map: &BlockMap, words: &[u64]) -> u64 {
    let mut sum: u64 = 0;
    for _ in 0..ROUNDS {
        for word in words {
            if let Some(found) = map.find(*word) {
                sum = sum.wrapping_add(found.base);
            }
        }
    }
    sum
}

// The objects of all pages in their order.
fn walk_all(map: &BlockMap) -> u64 {
    let mut count: u64 = 0;
    for page in 0..map.len() {
        let start = page_start(page);
        let mut from = start;
        for _ in 0..257 {
            let Some(found) = map.next_on_page(page, start.max(from)) else {
                break;
            };
            count = count.wrapping_add(1);
            from = found.base.wrapping_add(WORD_BYTES * u64::from(found.len));
        }
    }
    count
}

// Runs of three pages, in a pool in which every third page is used, but for the last pages.
fn take_runs(pool: &mut PagePool) -> u64 {
    let mut sum: u64 = 0;
    for _ in 0..ROUNDS {
        let Some(first) = pool.take_run(3) else {
            return sum;
        };
        sum = sum.wrapping_add(u64::from(first));
        pool.give(first, 3);
    }
    sum
}

// A page is cut for six words, and three cells of four are allocated.
fn lay_page(space: &mut BlockSpace, page: PageNo) {
    space.cut(page, 6, Kind::Normal);
    space.fill(page);
    for fourth in 0..21 {
        space.put(page, 4 * fourth + 3);
    }
}

// The lower half is cut so, and the upper half is one large object.
fn lay_out(space: &mut BlockSpace) {
    space.cut_large(HALF, HALF, Kind::Normal);
    for page in 0..HALF {
        lay_page(space, page);
    }
}

// Nearly all pages are used, and then two of each three become free, but for the last ones.
fn scatter(pool: &mut PagePool) {
    for _ in 0..340 {
        let _first = pool.take_run(1);
        let _second = pool.take_run(2);
    }
    for third in 0..330 {
        pool.give(3 * third + 1, 2);
    }
}

// Words from an address on, drawn from so many bytes.
fn draw(random: &mut Random, words: &mut [u64], from: u64, bytes: u64) {
    for word in words.iter_mut() {
        *word = from.wrapping_add(random.below(bytes.max(1)));
    }
}

// Words that read cells, words that read the large object, and words that read nothing.
fn time_map<R: Eprint + Clock>(rt: &R, map: &BlockMap, words: &mut [u64]) -> io::Result<()> {
    let mut random = Random::new(1);
    let half = PAGE_BYTES * u64::from(HALF);
    for (name, from, bytes) in [
        ("find_cell", FIRST_ADDRESS, half),
        ("find_large", FIRST_ADDRESS + half, half),
        ("find_none", 0, FIRST_ADDRESS),
    ] {
        draw(&mut random, words, from, bytes);
        let start = Instant::now(rt)?;
        let answer = find_all(map, words);
        let calls = u64::from(ROUNDS) * WORDS as u64;
        report(rt, name, since(rt, start)?, calls, answer)?;
    }
    let start = Instant::now(rt)?;
    let count = walk_all(map);
    report(rt, "next_on_page", since(rt, start)?, count, count)
}

fn measure_map<R: Eprint + Clock>(rt: &R, alloc: Global, words: &mut [u64]) -> io::Result<()> {
    let Some(mut space) = BlockSpace::open(alloc, MAX_PAGES) else {
        return Ok(());
    };
    lay_out(&mut space);
    time_map(rt, space.map(), words)
}

fn time_pool<R: Eprint + Clock>(rt: &R, pool: &mut PagePool) -> io::Result<()> {
    scatter(pool);
    let start = Instant::now(rt)?;
    let answer = take_runs(pool);
    report(rt, "take_run", since(rt, start)?, u64::from(ROUNDS), answer)
}

fn measure_pool<R: Eprint + Clock>(rt: &R, alloc: Global) -> io::Result<()> {
    let Ok(mut pool) = PagePool::new(alloc, MAX_PAGES) else {
        return Ok(());
    };
    time_pool(rt, &mut pool)
}

/// Lookups in a map, a walk over its objects, and runs of a pool.
pub(crate) fn measure<R: Eprint + Clock>(rt: &R, alloc: Global) -> io::Result<()> {
    let mut words = vec![in alloc; 0u64; WORDS]?;
    measure_map(rt, alloc, words.as_mut_slice())?;
    measure_pool(rt, alloc)
}
