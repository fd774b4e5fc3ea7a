//! A cycle that runs while a mutator is held back, ended with helpers that meet, and memory that is refused then.

use crate::gates::{HeldPause, TURNS};
use crate::runs::{run, setting};
use scripts::ScriptError;
use std::alloc::Global;
use std::process::Abort;
use std::sync::Wait;
use std::sync::atomic::Ordering;
use std::test::Fail;
use std::thread::Threads;
use test_io::Taken;

const PAGES: u32 = 4;

// Two of the three objects stay in registers, so a pause has two claims.
const LINES: &str =
    "attach\n0 alloc 1 2 normal\n0 alloc 2 2 normal\n0 alloc 3 2 normal\n0 set 3 0\n0 load 4 1 0\ngc begin\ngc finish\n";

const REPLIES: &str = "mutator 0\nok\nok\nok\nok\n0\ncollector\nok\n1\n";

fn check_pause<R: Threads + Wait + Abort + Sync>(
    rt: &R,
    alloc: Global,
    numbers: (u8, u64),
    output: &mut Taken,
) {
    let (helpers, claimers) = numbers;
    let gate = HeldPause::new(claimers, TURNS);
    let setting = setting(rt, alloc, &gate, PAGES, helpers);
    let answer = run(&setting, LINES, output);
    assert_eq!(rt; answer, Ok(()));
    assert_eq!(rt; gate.missed.load(Ordering::SeqCst), 0);
    assert_eq!(rt; gate.claiming.load(Ordering::SeqCst), claimers);
    assert_eq!(rt; gate.ended.load(Ordering::SeqCst), 1);
    assert_eq!(rt; output.text(), Some(REPLIES), "{helpers} helpers");
}

// The registers that hold objects are read by two helpers, where there are two or more.
#[test]
fn parallel_pause(rt: HostRuntime) -> Result<(), Fail> {
    let mut output = Taken::new(rt.alloc())?;
    for numbers in [(1u8, 1u64), (2, 2), (8, 2)] {
        check_pause(&rt, rt.alloc(), numbers, &mut output);
    }
    Ok(())
}

// How often the mutator looks for the cycle's end where memory is refused: the collector may not be there, and no reply of the row
// depends on it.
const FEW_TURNS: u64 = 1_000;

// The row, with two helpers that don't wait for each other.
fn run_row<R: Threads + Wait + Abort + Sync>(
    rt: &R,
    alloc: Global,
    output: &mut Taken,
) -> Result<(), ScriptError> {
    let gate = HeldPause::new(0, FEW_TURNS);
    run(&setting(rt, alloc, &gate, PAGES, 2), LINES, output)
}

fn check_memory<R: Threads + Wait + Abort + Sync>(rt: &R, alloc: Global, output: &mut Taken) {
    let mut answer = run_row(rt, alloc, output);
    if answer == Err(ScriptError::Memory) {
        assert!(rt; output.bytes.is_empty());
        answer = run_row(rt, alloc, output);
    }
    assert_eq!(rt; answer, Ok(()));
    assert_eq!(rt; output.text(), Some(REPLIES));
}

// Where memory or a thread is refused, the answer is that, nothing is printed, and the same call made again prints the replies; where
// only the helpers' is, the pause goes on without them. By itself this runs with ample memory; `rt try --test --fail-alloc N` refuses
// the N-th request.
#[test]
fn refused_memory(rt: HostRuntime) {
    let Ok(mut output) = Taken::new(rt.alloc()) else {
        return;
    };
    check_memory(&rt, rt.alloc(), &mut output);
}
