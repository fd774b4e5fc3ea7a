//! The calls that take no lock answer while another thread has it.
ghost use Rattle.std.specs.Prelude.{◌≡◌};

use crate::threads::look;
use each_law::{Law, run_each_beside};
use heap_core::Core;
use history::{Naming, Opened, Quiet};
use shared::{Collector, Mutator, SharedHeap, open};
use std::alloc::{AllocError, Global};
use std::marker::Brand;
use std::process::Abort;
use std::sync::Wait;
use std::sync::atomic::{AtomicU64, Ordering};
use std::test::Fail;
use std::thread::Threads;

// The lock is held, and the calls have answered.
#[derive(Drop)]
struct Flags {
    held: AtomicU64,
    answered: AtomicU64,
}

// Work under the lock that lasts until the calls have answered, or for the most turns. Answers whether they have.
#[derive(Drop)]
struct Holding<'a> {
    flags: &'a Flags,
}

impl Quiet<Core> for Holding<'_> {
    type Answer = bool;

    ghost use Rattle.std.specs.Prelude.{◌≡◌};

    ghost gives = { λ work core answer after_work after. after ≡ core };

    fn run(&mut self, _object: &mut Core) -> bool {
        self.flags.held.store(1, Ordering::SeqCst);
        look(&self.flags.answered)
    }
}

// The collector, which holds the lock, and whether it saw that the calls have answered.
#[derive(Drop)]
struct Holder<'a, J: Naming, R: Wait> {
    rt: &'a R,
    heap: &'a SharedHeap<J>,
    collector: Collector<J>,
    flags: &'a Flags,
    seen: bool,
}

// Two mutators, which make the calls meanwhile, and whether they saw that the lock was held. They are detached where they are dropped.
struct Asker<'a, J: Naming, R: Wait> {
    rt: &'a R,
    heap: &'a SharedHeap<J>,
    me: Mutator<J>,
    other: Mutator<J>,
    flags: &'a Flags,
    seen: bool,
}

impl<'a, J: Naming, R: Wait> Drop for Asker<'a, J, R> {
    fn drop(self) {
        let Self {
            rt,
            heap,
            me,
            other,
            flags: _,
            seen: _,
        } = self;
        heap.detach(rt, me);
        heap.detach(rt, other);
    }
}

// What becomes of either is looked at by the test.
struct Runs;

impl<T> Law<T> for Runs {
    ghost does = { λ law job done. Unit {0} };
}

fn hold<'a, J: Naming, R: Wait>(holder: Holder<'a, J, R>) -> Holder<'a, J, R> {
    let mut holder = holder;
    let mut work = Holding {
        flags: holder.flags,
    };
    holder.seen = holder
        .heap
        .quiet(holder.rt, &mut holder.collector, &mut work);
    holder
}

// The calls, which answer nothing that isn't known.
fn make_calls<J: Naming>(heap: &SharedHeap<J>, me: &mut Mutator<J>, other: &mut Mutator<J>) {
    heap.gc_no(me);
    heap.meet(me, other);
}

fn ask<'a, J: Naming, R: Wait>(asker: Asker<'a, J, R>) -> Asker<'a, J, R> {
    let mut asker = asker;
    asker.seen = look(&asker.flags.held);
    let Asker {
        heap,
        me,
        other,
        flags,
        ..
    } = &mut asker;
    make_calls(heap, me, other);
    flags.answered.store(1, Ordering::SeqCst);
    asker
}

// Two mutators come.
fn come<'a, J: Naming, R: Wait + Abort>(
    rt: &'a R,
    heap: &'a SharedHeap<J>,
    flags: &'a Flags,
) -> Asker<'a, J, R> {
    let me = heap.attach(rt).ok().expect(rt, "a slot");
    let other = heap.attach(rt).ok().expect(rt, "a slot");
    Asker {
        rt,
        heap,
        me,
        other,
        flags,
        seen: false,
    }
}

fn one<'a, J: Naming, R: Wait>(
    alloc: Global,
    asker: Asker<'a, J, R>,
) -> Result<Vec<Asker<'a, J, R>>, AllocError> {
    let mut askers = Vec::new(alloc);
    askers.push(asker)?;
    Ok(askers)
}

// Whether each saw what the other did.
fn ask_beside<'a, J: Naming + Send + Sync, R: Threads + Wait + Sync>(
    rt: &R,
    alloc: Global,
    askers: Vec<Asker<'a, J, R>>,
    holder: Holder<'a, J, R>,
) -> Result<bool, AllocError> {
    let (askers, holder) = run_each_beside::<_, _, Runs, _, _, Runs, _>(
        rt, alloc, &Runs, &ask, askers, &Runs, &hold, holder,
    )?;
    Ok(holder.seen && askers.as_slice().iter().all(|asker| asker.seen))
}

fn run_both<'a, J: Naming + Send + Sync, R: Threads + Wait + Abort + Sync>(
    rt: &'a R,
    alloc: Global,
    heap: &'a SharedHeap<J>,
    collector: Collector<J>,
    flags: &'a Flags,
) -> Result<bool, AllocError> {
    let askers = one(alloc, come(rt, heap, flags))?;
    let holder = Holder {
        rt,
        heap,
        collector,
        flags,
        seen: false,
    };
    ask_beside(rt, alloc, askers, holder)
}

fn ask_a_held_heap<J: Naming + Send + Sync, R: Threads + Wait + Abort + Sync>(
    rt: &R,
    alloc: Global,
    opened: Opened<Core>,
) -> Result<bool, AllocError>
    requires { (opened.table ≡ J.table) × (opened.origin ≡ J.origin) }
{
    let flags = Flags {
        held: AtomicU64::new(0),
        answered: AtomicU64::new(0),
    };
    let (heap, collector) = SharedHeap::<J>::named(opened);
    run_both(rt, alloc, &heap, collector, &flags)
}

#[test]
fn answers_come_while_the_lock_is_held(rt: HostRuntime) -> Result<(), Fail> {
    let opened = open(rt.alloc(), 4).ok().ok_or("a heap")?;
    assert!(rt; ask_a_held_heap::<Brand, _>(&rt, rt.alloc(), opened)?);
    Ok(())
}
