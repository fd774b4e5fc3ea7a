//! Lines of workloads, each mutator's in a thread of its own, and random scripts.

use crate::figures::{report, since};
use final_pause::{Helpers, Open};
use scripts::Std;
use std::alloc::{AllocError, Global};
use std::io;
use std::rt::Clock;
use std::sync::Wait;
use std::thread::Threads;
use std::time::Instant;
use workloads::limits::MAX_STEPS;
use workloads::{Workload, make_stress, run_threads};

// A store and a load of each mutator.
const PAIRS: u32 = 50_000;

const LINES: u64 = 100_000;

const ROUNDS: u8 = 5;

const PAGES: u32 = 8;

// A store and a load.
fn put_pair(lines: &mut String, slot: u32) -> Result<(), AllocError> {
    write!(lines, "{slot} store 1 0 2\n{slot} load 3 1 0\n")?;
    Ok(())
}

// A mutator's lines: it has an object of its own, which it stores to and loads from.
fn put_lines(lines: &mut String, slot: u32) -> Result<(), AllocError> {
    write!(lines, "{slot} alloc 1 2 normal\n")?;
    for _ in 0..PAIRS {
        put_pair(lines, slot)?;
    }
    Ok(())
}

// So many mutators, each with its lines.
fn put_all(lines: &mut String, mutators: u32) -> Result<(), AllocError> {
    for _ in 0..mutators {
        lines.push_str("attach\n")?;
    }
    for slot in 0..mutators {
        put_lines(lines, slot)?;
    }
    Ok(())
}

// Nanoseconds of a run, the replies of which are not printed. A run that memory is refused to tells nothing.
fn cost<R: Threads + Wait + Sync + Clock>(
    rt: &R,
    alloc: Global,
    workload: &Workload,
    helpers: Helpers,
) -> io::Result<u128> {
    let start = Instant::now(rt)?;
    match run_threads(rt, alloc, workload, PAGES, helpers, &Open) {
        Ok(_replies) => since(rt, start),
        Err(_) => Ok(u128::MAX),
    }
}

fn time_workload<R: Threads + Wait + Sync + Eprint + Clock>(
    rt: &R,
    alloc: Global,
    name: &str,
    workload: &Workload,
    lines: u64,
) -> io::Result<()> {
    let Some(helpers) = Helpers::new(1) else {
        return Ok(());
    };
    let mut least = u128::MAX;
    for _ in 0..ROUNDS {
        least = least.min(cost(rt, alloc, workload, helpers.where_it_pays())?);
    }
    report(rt, name, least, lines, 0)
}

fn time_lines<R: Threads + Wait + Sync + Eprint + Clock>(
    rt: &R,
    alloc: Global,
    name: &str,
    mutators: u32,
) -> io::Result<()> {
    let mut text = String::new(alloc);
    put_all(&mut text, mutators)?;
    let Ok(workload) = Workload::read(alloc, &mut Std::new(text.as_bytes())) else {
        return Ok(());
    };
    time_workload(rt, alloc, name, &workload, LINES * u64::from(mutators))
}

// A line of a random script, read as a line of a workload.
fn time_read<R: Eprint + Clock>(rt: &R, alloc: Global, text: &[u8]) -> io::Result<()> {
    let start = Instant::now(rt)?;
    let Ok(_workload) = Workload::read(alloc, &mut Std::new(text)) else {
        return Ok(());
    };
    let read = since(rt, start)?;
    report(rt, "workload_line_read", read, u64::from(MAX_STEPS), 0)
}

// A line of a random script, made, and read.
fn time_random<R: Eprint + Clock>(rt: &R, alloc: Global) -> io::Result<()> {
    let start = Instant::now(rt)?;
    let Ok(text) = make_stress(alloc, 1, 16, MAX_STEPS) else {
        return Ok(());
    };
    let made = since(rt, start)?;
    report(rt, "stress_line", made, u64::from(MAX_STEPS), 0)?;
    time_read(rt, alloc, text.as_slice())
}

/// Lines of one, two and four mutators, and of random scripts.
pub(crate) fn measure<R: Threads + Wait + Sync + Eprint + Clock>(
    rt: &R,
    alloc: Global,
) -> io::Result<()> {
    for (mutators, name) in [
        (4u32, "workload_line_by_4"),
        (2, "workload_line_by_2"),
        (1, "workload_line_by_1"),
    ] {
        time_lines(rt, alloc, name, mutators)?;
    }
    time_random(rt, alloc)
}
