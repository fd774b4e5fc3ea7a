//! Full and partial cycles of a heap with 100,000 old objects of two words, between which 1,000 new ones come, of which one in
//! ten is kept: what their marking takes, and how many words it reads off entries.
use crate::figures::{report, since};
use crate::user::User;
use std::alloc::Global;
use std::io;
use std::rt::Clock;
use std::time::Instant;

const OLD: u64 = 100_000;

const YOUNG: u64 = 1_000;

const ROUNDS: u32 = 10;

// Objects of two words, each of which points to the one before it. Answers the base of the last one.
fn chain(user: &mut User, count: u64, first: u64) -> u64 {
    let mut last = first;
    for _ in 0..count {
        let base = user.allocate(2);
        user.link(base, 0, last);
        user.keep(base);
        last = base;
    }
    last
}

// New objects, of which one in ten is kept. Answers the base of the last one that is.
fn renew(user: &mut User, first: u64) -> u64 {
    let mut last = first;
    for number in 0..YOUNG {
        if number % 10 == 0 {
            last = chain(user, 1, last);
        } else {
            let _lost = user.allocate(2);
        }
    }
    user.keep(last);
    last
}

// Marks in cycles between which new objects come, and prints the least time of all.
fn time_cycles<R: Eprint + Clock>(
    rt: &R,
    name: &str,
    user: &mut User,
    is_partial: bool,
) -> io::Result<()> {
    let mut last = chain(user, OLD, 0);
    let _gone = user.collect();
    let (mut least, mut read) = (u128::MAX, 0);
    for _ in 0..ROUNDS {
        last = renew(user, last);
        let start = Instant::now(rt)?;
        read = user.mark_cycle(is_partial);
        least = least.min(since(rt, start)?);
        let _gone = user.finish();
    }
    report(rt, name, least, 1, read)
}

fn measure_cycles<R: Eprint + Clock>(
    rt: &R,
    alloc: Global,
    name: &str,
    is_partial: bool,
) -> io::Result<()> {
    let Some(mut user) = User::new(alloc) else {
        return Ok(());
    };
    time_cycles(rt, name, &mut user, is_partial)
}

/// The marking of full cycles, and of partial ones.
pub(crate) fn measure<R: Eprint + Clock>(rt: &R, alloc: Global) -> io::Result<()> {
    measure_cycles(rt, alloc, "mark_full_cycle", false)?;
    measure_cycles(rt, alloc, "mark_partial_cycle", true)
}
