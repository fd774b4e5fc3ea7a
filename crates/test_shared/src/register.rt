//! Mutators of a register behind a lock, and the one history that they leave.
ghost use Rattle.std.specs.Prelude.{◌≡◌, IfOk};
ghost use Rattle.shared_register.specs.LockedCalls.{AreReady};

use history::{Naming, Opened};
use shared_register::{
    Call, Collector, Job, Mutator, ReadValue, Register, Reply, SharedRegister, open,
    run_to_one_history,
};
use std::alloc::{AllocError, Global};
use std::marker::Brand;
use std::process::Abort;
use std::sync::Wait;
use std::test::Fail;
use std::thread::Threads;
use words::OpenError;

const CALLS: usize = 10_000;

// Calls, and room for their replies.
#[derive(Drop)]
struct Lines {
    calls: Vec<Call>,
    replies: Vec<Reply>,
}

fn additions(alloc: Global, count: usize) -> Result<Lines, AllocError>
    ensures { IfOk result (λ l. AreReady l.calls.items l.replies.items) }
{
    let calls = vec![in alloc; Call::Add(1); count]?;
    let replies = vec![in alloc; Reply::Done; count]?;
    Ok(Lines { calls, replies })
}

// Those of two mutators.
#[derive(Drop)]
struct Pair {
    a: Lines,
    b: Lines,
}

fn twice(alloc: Global, count: usize) -> Result<Pair, AllocError>
    ensures { IfOk result (λ l. AreReady l.a.calls.items l.a.replies.items × AreReady l.b.calls.items l.b.replies.items) }
{
    let a = additions(alloc, count)?;
    let b = additions(alloc, count)?;
    Ok(Pair { a, b })
}

// The numbers that the additions found, each counted once, in the mutator's order.
fn count_found(replies: &[Reply], found: &mut [bool]) -> bool {
    let mut last = None;
    for reply in replies {
        let Reply::Value(n) = reply else {
            return false;
        };
        let at = *n as usize;
        if at >= found.len() || found[at] || last.is_some_and(|m| m >= at) {
            return false;
        }
        found[at] = true;
        last = Some(at);
    }
    true
}

fn job<J: Naming, R: Wait + Abort>(rt: &R, shared: &SharedRegister<J>, lines: Lines) -> Job<J>
    ensures { (result.calls ≡ lines.calls) × (result.replies ≡ lines.replies) }
{
    let me = shared.attach(rt).expect(rt, "a slot");
    let Lines { calls, replies } = lines;
    Job { me, calls, replies }
}

fn leave<J: Naming>(rt: &impl Wait, shared: &SharedRegister<J>, job: Job<J>) {
    let Job { me, calls, replies } = job;
    drop(calls);
    drop(replies);
    shared.detach(rt, me);
}

fn leave_all<J: Naming>(rt: &impl Wait, shared: &SharedRegister<J>, jobs: [Job<J>; 4]) {
    let [a, b, c, d] = jobs;
    leave(rt, shared, a);
    leave(rt, shared, b);
    leave(rt, shared, c);
    leave(rt, shared, d);
}

fn add_in_threads<J: Naming + Send + Sync, R: Threads + Wait + Abort + Sync>(
    rt: &R,
    opened: Opened<Register>,
    first: Pair,
    second: Pair,
    found: &mut [bool],
) -> u64
    requires table { (opened.table ≡ J.table) × (opened.origin ≡ J.origin) }
    requires a { AreReady first.a.calls.items first.a.replies.items }
    requires b { AreReady first.b.calls.items first.b.replies.items }
    requires c { AreReady second.a.calls.items second.a.replies.items }
    requires d { AreReady second.b.calls.items second.b.replies.items }
{
    let (shared, mut collector) = SharedRegister::<J>::new(opened);
    let Pair { a, b } = first;
    let Pair { a: c, b: d } = second;
    let mut jobs = [
        job(rt, &shared, a),
        job(rt, &shared, b),
        job(rt, &shared, c),
        job(rt, &shared, d),
    ];
    run_to_one_history(rt, &shared, &mut collector, &mut jobs);
    for job in &jobs {
        assert!(rt; count_found(job.replies.as_slice(), found));
    }
    let sum = shared.call(rt, &mut jobs[0].me, &Call::Get);
    leave_all(rt, &shared, jobs);
    match sum {
        Reply::Value(n) => n,
        _ => 0,
    }
}

// Every addition finds a number of its own, each mutator finds ever larger ones, and none is lost.
#[test]
fn threads_leave_one_history(rt: HostRuntime) -> Result<(), Fail> {
    let alloc = rt.alloc();
    let first = twice(alloc, CALLS)?;
    let second = twice(alloc, CALLS)?;
    let mut found = vec![in alloc; false; 4 * CALLS]?;
    let opened = open(alloc, 0)?;
    let sum = add_in_threads::<Brand, _>(&rt, opened, first, second, found.as_mut_slice());
    assert_eq!(rt; sum, 40_000);
    assert!(rt; found.iter().all(|&there| there));
    Ok(())
}

// The count after two collections, as each of two mutators and the collector tells it.
fn count_two<J: Naming>(
    rt: &impl Wait,
    shared: &SharedRegister<J>,
    a: &mut Mutator<J>,
    b: &mut Mutator<J>,
    collector: &mut Collector<J>,
) -> [u64; 3] {
    shared.collect(rt, collector);
    shared.collect(rt, collector);
    shared.meet_collector(a, collector);
    let by_a = shared.cycles(a);
    shared.meet(a, b);
    let by_b = shared.cycles(b);
    [by_a, by_b, shared.cycles_of(collector)]
}

fn count_in_a_row<J: Naming, R: Wait + Abort>(rt: &R, opened: Opened<Register>)
    requires { (opened.table ≡ J.table) × (opened.origin ≡ J.origin) }
{
    let (shared, mut collector) = SharedRegister::<J>::new(opened);
    let mut a = shared.attach(rt).expect(rt, "a slot");
    let mut b = shared.attach(rt).expect(rt, "a slot");
    let counts = count_two(rt, &shared, &mut a, &mut b, &mut collector);
    shared.detach(rt, a);
    shared.detach(rt, b);
    assert_eq!(rt; counts, [2, 2, 2]);
}

#[test]
fn two_collections_are_counted_by_all(rt: HostRuntime) -> Result<(), Fail> {
    let opened = open(rt.alloc(), 0).ok().ok_or("a register")?;
    count_in_a_row::<Brand, _>(&rt, opened);
    Ok(())
}

// A cycle that hasn't begun doesn't end, and one that has doesn't begin.
fn begin_once<J: Naming>(
    rt: &impl Wait,
    shared: &SharedRegister<J>,
    collector: &mut Collector<J>,
) -> [bool; 3] {
    let idle = shared.finish(rt, collector);
    let begun = shared.begin(rt, collector);
    [idle, begun, shared.begin(rt, collector)]
}

// What is read while it runs, whether it ends, and the cycles that ended.
fn end_once<J: Naming>(
    rt: &impl Wait,
    shared: &SharedRegister<J>,
    collector: &mut Collector<J>,
) -> (u64, bool, u64) {
    let value = shared.quiet(rt, collector, &mut ReadValue);
    let ended = shared.finish(rt, collector);
    (value, ended, shared.cycles_of(collector))
}

fn run_cycles<J: Naming, R: Wait + Abort>(rt: &R, opened: Opened<Register>)
    requires { (opened.table ≡ J.table) × (opened.origin ≡ J.origin) }
{
    let (shared, mut collector) = SharedRegister::<J>::new(opened);
    let mut a = shared.attach(rt).expect(rt, "a slot");
    let begun = begin_once(rt, &shared, &mut collector);
    shared.call(rt, &mut a, &Call::Set(7));
    let ended = end_once(rt, &shared, &mut collector);
    shared.detach(rt, a);
    assert_eq!(rt; begun, [false, true, false]);
    assert_eq!(rt; ended, (7, true, 1));
}

#[test]
fn a_cycle_begins_and_ends_once(rt: HostRuntime) -> Result<(), Fail> {
    let opened = open(rt.alloc(), 0).ok().ok_or("a register")?;
    run_cycles::<Brand, _>(&rt, opened);
    Ok(())
}

// Mutators come and go, one after another, more than there are slots.
fn come_and_go<J: Naming, R: Wait + Abort>(rt: &R, opened: Opened<Register>)
    requires { (opened.table ≡ J.table) × (opened.origin ≡ J.origin) }
{
    let (shared, _collector) = SharedRegister::<J>::new(opened);
    for _ in 0..17 {
        let me = shared.attach(rt).expect(rt, "a slot");
        shared.detach(rt, me);
    }
}

// With the first allocation refused, the first call answers its error, and the second one opens.
#[test]
fn a_refused_open_can_be_made_again(rt: HostRuntime) -> Result<(), Fail> {
    let opened = match open(rt.alloc(), 0) {
        Ok(opened) => opened,
        Err(refused) => {
            assert_eq!(rt; refused, OpenError::Memory);
            open(rt.alloc(), 0).ok().ok_or("a register")?
        }
    };
    come_and_go::<Brand, _>(&rt, opened);
    Ok(())
}
