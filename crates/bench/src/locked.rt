//! Calls of a heap behind its lock, by mutators in threads of their own, and the count, which takes no lock.
ghost use Rattle.std.specs.Prelude.{◌≡◌};

use crate::figures::{report, since};
use heap_core::Core;
use history::{Naming, Opened};
use shared::{Mutator, SharedHeap, open};
use std::alloc::{AllocError, Global};
use std::marker::{Brand, Sync};
use std::rt::Clock;
use std::sync::Wait;
use std::thread::Threads;
use std::time::Instant;
use std::{io, thread};
use words::limits::MAX_PAGES;
use words::{Kind, Reg};

// The calls of each mutator.
const CALLS: u64 = 200_000;

const ROUNDS: u8 = 10;

// The most mutators at once.
const CREW: usize = 4;

// A mutator with an object of its own. It is detached where it is dropped.
struct Caller<'a, J: Naming, R: Wait> {
    rt: &'a R,
    heap: &'a SharedHeap<J>,
    me: Mutator<J>,
    object: Reg,
    word: Reg,
}

impl<'a, J: Naming, R: Wait> Drop for Caller<'a, J, R> {
    fn drop(self) {
        let Self {
            rt,
            heap,
            me,
            object: _,
            word: _,
        } = self;
        heap.detach(rt, me);
    }
}

impl<'a, J: Naming, R: Wait> Caller<'a, J, R> {
    // `None` where no mutator may come.
    fn new(rt: &'a R, heap: &'a SharedHeap<J>) -> Option<Self> {
        let object = Reg::new(1)?;
        let word = Reg::new(2)?;
        let mut me = heap.attach(rt).ok()?;
        let _made = heap.alloc(rt, &mut me, object, 2, Kind::Normal);
        Some(Caller {
            rt,
            heap,
            me,
            object,
            word,
        })
    }

    fn store_often(&mut self) {
        for _ in 0..CALLS {
            let _stored = self
                .heap
                .store(self.rt, &mut self.me, self.object, 0, self.word);
        }
    }

    fn load_often(&mut self) {
        for _ in 0..CALLS {
            let _word = self
                .heap
                .load(self.rt, &mut self.me, self.word, self.object, 0);
        }
    }

    // Answers the sum of the counts.
    fn count_often(&mut self) -> u64 {
        let mut sum: u64 = 0;
        for _ in 0..CALLS {
            sum = sum.wrapping_add(self.heap.gc_no(&mut self.me));
        }
        sum
    }
}

// Nanoseconds of the stores of all callers, each in a thread of its own.
fn time_stores<J: Naming + Send + Sync, R: Threads + Wait + Sync + Clock>(
    rt: &R,
    crew: &mut [Caller<J, R>],
) -> io::Result<u128> {
    let start = Instant::now(rt)?;
    thread::for_each_mut(
        rt,
        crew,
        CREW,
        &|_, caller: &mut Caller<J, R>| {
            caller.store_often();
        },
    );
    since(rt, start)
}

// Of their loads.
fn time_loads<J: Naming + Send + Sync, R: Threads + Wait + Sync + Clock>(
    rt: &R,
    crew: &mut [Caller<J, R>],
) -> io::Result<u128> {
    let start = Instant::now(rt)?;
    thread::for_each_mut(
        rt,
        crew,
        CREW,
        &|_, caller: &mut Caller<J, R>| {
            caller.load_often();
        },
    );
    since(rt, start)
}

// The least of some rounds.
fn least_cost<J: Naming + Send + Sync, R: Threads + Wait + Sync + Clock>(
    rt: &R,
    crew: &mut [Caller<J, R>],
) -> io::Result<(u128, u128)> {
    let mut least = (u128::MAX, u128::MAX);
    for _ in 0..ROUNDS {
        let stores = time_stores(rt, crew)?;
        let loads = time_loads(rt, crew)?;
        least = (least.0.min(stores), least.1.min(loads));
    }
    Ok(least)
}

// Stores and loads, a line each.
fn report_both<R: Eprint>(
    rt: &R,
    store: &str,
    load: &str,
    least: (u128, u128),
    calls: u64,
) -> io::Result<()> {
    report(rt, store, least.0, calls, 0)?;
    report(rt, load, least.1, calls, 0)
}

// The least cost of both.
fn time_crew<J: Naming + Send + Sync, R: Threads + Wait + Sync + Eprint + Clock>(
    rt: &R,
    crew: &mut [Caller<J, R>],
    store: &str,
    load: &str,
    calls: u64,
) -> io::Result<()> {
    let least = least_cost(rt, crew)?;
    report_both(rt, store, load, least, calls)
}

// Four mutators, or fewer where no more may come.
fn hire<'a, J: Naming, R: Wait>(
    rt: &'a R,
    alloc: Global,
    heap: &'a SharedHeap<J>,
) -> Result<Vec<Caller<'a, J, R>>, AllocError> {
    let mut crew = Vec::new(alloc);
    for _ in 0..CREW {
        if let Some(caller) = Caller::new(rt, heap) {
            crew.push(caller)?;
        }
    }
    Ok(crew)
}

fn time_words<J: Naming + Send + Sync, R: Threads + Wait + Sync + Eprint + Clock>(
    rt: &R,
    alloc: Global,
    heap: &SharedHeap<J>,
) -> io::Result<()> {
    let mut crew = hire(rt, alloc, heap)?;
    for (callers, store, load) in [
        (4usize, "locked_store_by_4", "locked_load_by_4"),
        (2, "locked_store_by_2", "locked_load_by_2"),
        (1, "locked_store_by_1", "locked_load_by_1"),
    ] {
        crew.truncate(callers);
        time_crew(rt, crew.as_mut_slice(), store, load, CALLS * callers as u64)?;
    }
    Ok(())
}

fn time_comings<J: Naming, R: Wait + Eprint + Clock>(
    rt: &R,
    heap: &SharedHeap<J>,
) -> io::Result<()> {
    let start = Instant::now(rt)?;
    for _ in 0..CALLS {
        if let Ok(me) = heap.attach(rt) {
            heap.detach(rt, me);
        }
    }
    report(rt, "attach_and_detach", since(rt, start)?, CALLS, 0)
}

fn time_counts<J: Naming, R: Wait + Eprint + Clock>(
    rt: &R,
    heap: &SharedHeap<J>,
) -> io::Result<()> {
    let Some(mut caller) = Caller::new(rt, heap) else {
        return Ok(());
    };
    let start = Instant::now(rt)?;
    let sum = caller.count_often();
    report(rt, "gc_no", since(rt, start)?, CALLS, sum)
}

fn measure_named<J: Naming + Send + Sync, R: Threads + Wait + Sync + Eprint + Clock>(
    rt: &R,
    alloc: Global,
    opened: Opened<Core>,
) -> io::Result<()>
    requires { (opened.table ≡ J.table) × (opened.origin ≡ J.origin) }
{
    let (heap, _collector) = SharedHeap::<J>::named(opened);
    time_words(rt, alloc, &heap)?;
    time_comings(rt, &heap)?;
    time_counts(rt, &heap)
}

/// Loads and stores by one, two and four threads, comings and goings, and the count.
pub(crate) fn measure<R: Threads + Wait + Sync + Eprint + Clock>(
    rt: &R,
    alloc: Global,
) -> io::Result<()> {
    let Ok(opened) = open(alloc, MAX_PAGES) else {
        return Ok(());
    };
    measure_named::<Brand, _>(rt, alloc, opened)
}
