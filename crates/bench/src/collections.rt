//! Collections of a heap of 10,000 objects of two words: a full one, the pause of a cycle that has marked beside the
//! mutator, what an allocation costs after it, and lookups while pages are pending.
use crate::figures::{report, since};
use crate::marking::targets;
use crate::user::User;
use std::alloc::Global;
use std::io;
use std::rt::Clock;
use std::time::Instant;

const OBJECTS: usize = 10_000;

const ROUNDS: u32 = 10;

const FINDS: u32 = 40;

// A base, and 0 where there is no object with that number.
fn base_of(bases: &[u64], number: u64) -> u64 {
    usize::try_from(number)
        .ok()
        .and_then(|i| bases.get(i).copied())
        .unwrap_or(0)
}

// Allocates the objects, each with its words as the shape says. The first reaches the others.
fn build(user: &mut User, bases: &mut [u64], shape: &str) {
    for base in bases.iter_mut() {
        *base = user.allocate(2);
    }
    for number in 0..OBJECTS as u64 {
        let (first, second) = targets(shape, number, OBJECTS as u64);
        let base = base_of(bases, number);
        user.link(base, 0, base_of(bases, first));
        user.link(base, 1, base_of(bases, second));
    }
    user.keep(base_of(bases, 0));
}

// Full collections in which all objects stay that were reached, the fastest of some.
fn time_collect<R: Eprint + Clock>(rt: &R, name: &str, user: &mut User) -> io::Result<()> {
    let mut least = u128::MAX;
    let _first = user.collect();
    for _ in 0..ROUNDS {
        let start = Instant::now(rt)?;
        let _gone = user.collect();
        least = least.min(since(rt, start)?);
    }
    report(rt, name, least, OBJECTS as u64, 0)
}

// So many stores, into objects that stand seven apart.
fn link_some(user: &mut User, bases: &[u64], stores: u64) {
    for number in 0..stores {
        let place = number.wrapping_mul(7);
        user.link(
            base_of(bases, place),
            0,
            base_of(bases, place.wrapping_add(1)),
        );
    }
}

// The pause alone, with so many stores since all was marked, the fastest of some.
fn time_finish<R: Eprint + Clock>(
    rt: &R,
    name: &str,
    user: &mut User,
    bases: &[u64],
    stores: u64,
) -> io::Result<()> {
    let mut least = u128::MAX;
    for _ in 0..ROUNDS {
        user.mark_all();
        link_some(user, bases, stores);
        user.keep(base_of(bases, 0));
        let start = Instant::now(rt)?;
        let _gone = user.finish();
        least = least.min(since(rt, start)?);
    }
    report(rt, name, least, 1, stores)
}

// A cycle in which all objects go. Answers how many.
fn lose_all(user: &mut User) -> u64 {
    user.keep(0);
    user.mark_all();
    user.finish()
}

// Allocations after the pause in which all objects went.
fn time_allocs<R: Eprint + Clock>(rt: &R, user: &mut User, bases: &mut [u64]) -> io::Result<()> {
    let gone = lose_all(user);
    let start = Instant::now(rt)?;
    user.allocate_each(2, bases);
    let calls = OBJECTS as u64;
    report(rt, "alloc_after_cycle", since(rt, start)?, calls, gone)
}

// The longest of them.
fn time_longest<R: Eprint + Clock>(rt: &R, user: &mut User, bases: &mut [u64]) -> io::Result<()> {
    let gone = lose_all(user);
    let mut longest: u128 = 0;
    for base in bases.iter_mut() {
        let start = Instant::now(rt)?;
        *base = user.allocate(2);
        longest = longest.max(since(rt, start)?);
    }
    report(rt, "alloc_longest", longest, 1, gone)
}

// Lookups of the objects that are left, every second one.
fn time_finds<R: Eprint + Clock>(
    rt: &R,
    name: &str,
    user: &mut User,
    bases: &[u64],
) -> io::Result<()> {
    let mut sum: u64 = 0;
    let start = Instant::now(rt)?;
    for _ in 0..FINDS {
        sum = sum.wrapping_add(user.sizes(bases));
    }
    let calls = u64::from(FINDS) * OBJECTS as u64 / 2;
    report(rt, name, since(rt, start)?, calls, sum)
}

// Lookups while each page has dead objects that aren't swept, and when they are.
fn time_pending<R: Eprint + Clock>(rt: &R, user: &mut User, bases: &mut [u64]) -> io::Result<()> {
    build(user, bases, "every_other");
    user.mark_all();
    let _gone = user.finish();
    time_finds(rt, "find_pending", user, bases)?;
    let _swept = user.sweep_all();
    time_finds(rt, "find_swept", user, bases)
}

fn time_list<R: Eprint + Clock>(rt: &R, user: &mut User, bases: &mut [u64]) -> io::Result<()> {
    build(user, bases, "list");
    time_collect(rt, "collect_list", user)?;
    for (stores, name) in [
        (0, "finish_stores_0"),
        (10, "finish_stores_10"),
        (100, "finish_stores_100"),
        (1_000, "finish_stores_1000"),
    ] {
        time_finish(rt, name, user, bases, stores)?;
    }
    time_allocs(rt, user, bases)?;
    time_longest(rt, user, bases)
}

fn measure_shape<R: Eprint + Clock>(
    rt: &R,
    alloc: Global,
    name: &str,
    shape: &str,
    bases: &mut [u64],
) -> io::Result<()> {
    let Some(mut user) = User::new(alloc) else {
        return Ok(());
    };
    build(&mut user, bases, shape);
    time_collect(rt, name, &mut user)
}

fn measure_list<R: Eprint + Clock>(rt: &R, alloc: Global, bases: &mut [u64]) -> io::Result<()> {
    let Some(mut user) = User::new(alloc) else {
        return Ok(());
    };
    time_list(rt, &mut user, bases)
}

fn measure_finds<R: Eprint + Clock>(rt: &R, alloc: Global, bases: &mut [u64]) -> io::Result<()> {
    let Some(mut user) = User::new(alloc) else {
        return Ok(());
    };
    time_pending(rt, &mut user, bases)
}

fn measure_all<R: Eprint + Clock>(rt: &R, alloc: Global, bases: &mut [u64]) -> io::Result<()> {
    measure_shape(rt, alloc, "collect_tree", "tree", bases)?;
    measure_shape(rt, alloc, "collect_graph", "graph", bases)?;
    measure_list(rt, alloc, bases)?;
    measure_finds(rt, alloc, bases)
}

/// Full collections, pauses, allocations after them, and lookups.
pub(crate) fn measure<R: Eprint + Clock>(rt: &R, alloc: Global) -> io::Result<()> {
    let mut bases = vec![in alloc; 0u64; OBJECTS]?;
    measure_all(rt, alloc, bases.as_mut_slice())
}
