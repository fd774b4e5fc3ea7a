//! Mutators in threads of their own.
ghost use Rattle.std.specs.Prelude.{◌≡◌};

use crate::attached::{Attached, attach};
use crate::serve::reg;
use each_law::{Law, run_each};
use heap_core::Core;
use heap_spec::{Call, Reply};
use history::{Naming, Opened};
use shared::{SharedHeap, open};
use std::alloc::{AllocError, Global};
use std::marker::Brand;
use std::process::Abort;
use std::sync::Wait;
use std::sync::atomic::{AtomicU64, Ordering};
use std::test::Fail;
use std::thread::Threads;
use words::Kind;
use words::limits::SLOTS;

// How often a mutator looks for the other's flag before it gives up.
const TURNS: u64 = 1_000_000_000;

// A mutator in a thread, and what it found.
#[derive(Drop)]
struct Job<'a, J: Naming, R: Wait> {
    me: Attached<'a, J, R>,
    flags: &'a [AtomicU64; 2],
    word: Reply,
    seen: bool,
}

// What becomes of a job is looked at by the test.
struct Runs;

impl<'a, J: Naming, R: Wait> Law<Job<'a, J, R>> for Runs {
    ghost does = { λ law job done. Unit {0} };
}

/// Whether the flag was raised within so many turns.
pub fn look(flag: &AtomicU64) -> bool {
    for _ in 0..TURNS {
        if flag.load(Ordering::SeqCst) == 1 {
            return true;
        }
    }
    false
}

// Stores a word of its own, raises its flag, looks for the other's, and loads.
fn run_job<'a, J: Naming, R: Wait>(job: Job<'a, J, R>) -> Job<'a, J, R> {
    let Job { mut me, flags, .. } = job;
    let slot = me.slot();
    me.call(Call::Alloc(reg(1), 2, Kind::Normal));
    me.call(Call::Set(reg(2), 7 + u64::from(slot)));
    me.call(Call::Store(reg(1), 0, reg(2)));
    let (mine, other) = if slot == 0 {
        (&flags[0], &flags[1])
    } else {
        (&flags[1], &flags[0])
    };
    mine.store(1, Ordering::SeqCst);
    let seen = look(other);
    let word = me.call(Call::Load(reg(3), reg(1), 0));
    Job {
        me,
        flags,
        word,
        seen,
    }
}

fn make_job<'a, J: Naming, R: Wait + Abort>(
    rt: &'a R,
    heap: &'a SharedHeap<J>,
    flags: &'a [AtomicU64; 2],
) -> Job<'a, J, R> {
    Job {
        me: attach(rt, heap),
        flags,
        word: Reply::Done,
        seen: false,
    }
}

// So many mutators come.
fn come<'a, J: Naming, R: Wait + Abort>(
    rt: &'a R,
    alloc: Global,
    heap: &'a SharedHeap<J>,
    flags: &'a [AtomicU64; 2],
    count: u8,
) -> Result<Vec<Job<'a, J, R>>, AllocError> {
    let mut jobs = Vec::new(alloc);
    for _ in 0..count {
        jobs.push(make_job(rt, heap, flags))?;
    }
    Ok(jobs)
}

// What the job with this number found.
fn found_by<J: Naming, R: Wait>(jobs: &[Job<'_, J, R>], number: usize) -> (Reply, bool) {
    match jobs.get(number) {
        Some(job) => (job.word, job.seen),
        None => (Reply::Done, false),
    }
}

fn run_both<J: Naming + Send + Sync, R: Threads + Wait + Abort + Sync>(
    rt: &R,
    alloc: Global,
    heap: &SharedHeap<J>,
) -> Result<[(Reply, bool); 2], AllocError> {
    let flags = [AtomicU64::new(0), AtomicU64::new(0)];
    let jobs = come(rt, alloc, heap, &flags, 2)?;
    let jobs = run_each::<_, _, Runs, _>(rt, alloc, &Runs, &run_job, jobs)?;
    Ok([found_by(jobs.as_slice(), 0), found_by(jobs.as_slice(), 1)])
}

fn two_mutators<J: Naming + Send + Sync, R: Threads + Wait + Abort + Sync>(
    rt: &R,
    alloc: Global,
    opened: Opened<Core>,
) -> Result<[(Reply, bool); 2], AllocError>
    requires { (opened.table ≡ J.table) × (opened.origin ≡ J.origin) }
{
    let (heap, _collector) = SharedHeap::<J>::named(opened);
    run_both(rt, alloc, &heap)
}

// Two threads with one mutator each run at once, and each loads what it stored.
#[test]
fn each_mutator_loads_its_own_word(rt: HostRuntime) -> Result<(), Fail> {
    let opened = open(rt.alloc(), 4).ok().ok_or("a heap")?;
    let found = two_mutators::<Brand, _>(&rt, rt.alloc(), opened)?;
    assert_eq!(rt; found, [(Reply::Word(7), true), (Reply::Word(8), true)]);
    Ok(())
}

// A mutator in a thread allocates.
fn allocate<'a, J: Naming, R: Wait>(job: Job<'a, J, R>) -> Job<'a, J, R> {
    let mut job = job;
    job.word = job.me.call(Call::Alloc(reg(1), 2, Kind::Normal));
    job
}

// Sixteen mutators come, each gets a thread of its own or one is refused it, and all go.
fn run_sixteen<J: Naming + Send + Sync, R: Threads + Wait + Abort + Sync>(
    rt: &R,
    alloc: Global,
    heap: &SharedHeap<J>,
) -> Result<(), AllocError> {
    let flags = [AtomicU64::new(0), AtomicU64::new(0)];
    let jobs = come(rt, alloc, heap, &flags, SLOTS)?;
    let _answer = run_each::<_, _, Runs, _>(rt, alloc, &Runs, &allocate, jobs);
    Ok(())
}

fn run_twice<J: Naming + Send + Sync, R: Threads + Wait + Abort + Sync>(
    rt: &R,
    alloc: Global,
    opened: Opened<Core>,
) -> Result<(), AllocError>
    requires { (opened.table ≡ J.table) × (opened.origin ≡ J.origin) }
{
    let (heap, _collector) = SharedHeap::<J>::named(opened);
    run_sixteen(rt, alloc, &heap)?;
    run_sixteen(rt, alloc, &heap)
}

// Whether or not a thread is refused, every slot is vacant afterwards: sixteen come again. By itself this runs with threads
// enough; `tests/refused_threads.sh` refuses each thread in turn.
#[test]
fn refused_thread(rt: HostRuntime) -> Result<(), Fail> {
    let opened = open(rt.alloc(), 4).ok().ok_or("a heap")?;
    run_twice::<Brand, _>(&rt, rt.alloc(), opened)?;
    Ok(())
}
