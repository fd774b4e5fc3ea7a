//! Reads and allocations that fail.

use crate::gates::Counts;
use crate::runs::{mutators_of, run_read, setting};
use scripts::ScriptError;
use std::alloc::Global;
use std::process::Abort;
use std::sync::Wait;
use std::sync::atomic::Ordering;
use std::test::Fail;
use std::thread::Threads;
use test_io::{Script, Taken};
use workloads::{RunError, make_stress};

const WORKLOAD: &str = "attach\nattach\n0 alloc 1 3 normal\ngc begin\n1 set 2 77\ngc finish\n";

// A reader that fails at one of its calls is asked no more.
fn check_read_fault(rt: &impl Abort, alloc: Global, input: &mut Script<'_>, call: usize) {
    assert_eq!(rt; mutators_of(alloc, input), Err(ScriptError::Read));
    assert_eq!(rt; input.calls, call.saturating_add(1));
}

#[test]
fn every_read_fails(rt: HostRuntime) {
    for (most, calls) in [(1usize, WORKLOAD.len()), (7, 9), (4_096, 2)] {
        for call in 0..calls {
            let mut input = Script::failing_at(WORKLOAD.as_bytes(), most, call);
            check_read_fault(&rt, rt.alloc(), &mut input, call);
        }
    }
}

// A workload that isn't read to its end is not run: no call begins, and nothing is written.
fn check_not_run<R: Threads + Wait + Abort + Sync>(
    rt: &R,
    alloc: Global,
    input: &mut Script<'_>,
    fault: ScriptError,
    output: &mut Taken,
) {
    let gate = Counts::new();
    let answer = run_read(&setting(rt, alloc, &gate, 4, 1), input, output);
    assert_eq!(rt; answer, Err(fault));
    assert_eq!(rt; gate.began.load(Ordering::SeqCst), 0);
    assert_eq!(rt; output.calls, 0);
}

#[test]
fn no_thread_starts_before_all_is_read(rt: HostRuntime) -> Result<(), Fail> {
    let mut output = Taken::new(rt.alloc())?;
    let bad = "attach\n0 alloc 1 3 normal\ngc begin\ngc finish\n0 detach\n";
    let mut input = Script::new(bad.as_bytes());
    let bad_line = ScriptError::BadLine(5);
    check_not_run(&rt, rt.alloc(), &mut input, bad_line, &mut output);
    // All bytes came before the call that fails.
    let mut failing = Script::failing_at(WORKLOAD.as_bytes(), usize::MAX, 1);
    check_not_run(
        &rt,
        rt.alloc(),
        &mut failing,
        ScriptError::Read,
        &mut output,
    );
    Ok(())
}

// One byte a call is read as all at once.
#[test]
fn short_reads(rt: HostRuntime) {
    let mut input = Script::failing_at(WORKLOAD.as_bytes(), 1, usize::MAX);
    assert_eq!(rt; mutators_of(rt.alloc(), &mut input), Ok(2));
}

// The number of mutators, asked for again where memory is refused.
fn mutators_again(alloc: Global) -> Result<usize, ScriptError> {
    match mutators_of(alloc, &mut Script::new(WORKLOAD.as_bytes())) {
        Err(ScriptError::Memory) => mutators_of(alloc, &mut Script::new(WORKLOAD.as_bytes())),
        answer => answer,
    }
}

// A drawn script, drawn again where memory is refused.
fn draw_again(alloc: Global) -> Result<Vec<u8>, RunError> {
    match make_stress(alloc, 1, 2, 100) {
        Err(RunError::Memory) => make_stress(alloc, 1, 2, 100),
        answer => answer,
    }
}

fn lines_of(text: &[u8]) -> usize {
    text.iter().filter(|byte| **byte == b'\n').count()
}

// Where memory is refused, at whichever request, the answer is that, and the same call made again gives the usual one. By itself this
// runs with ample memory; `rt try --test --fail-alloc N` refuses the N-th request.
#[test]
fn refused_memory(rt: HostRuntime) -> Result<(), Fail> {
    assert_eq!(&rt; mutators_again(rt.alloc()), Ok(2));
    let first = draw_again(rt.alloc()).ok().ok_or("a script")?;
    let second = draw_again(rt.alloc()).ok().ok_or("a script")?;
    assert_eq!(&rt; lines_of(first.as_slice()), 102);
    assert!(&rt; first.as_slice() == second.as_slice());
    Ok(())
}
