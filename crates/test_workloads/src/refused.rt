//! Memory or threads that are refused. By itself this runs with ample memory and threads enough; `rt try --test --fail-alloc N` refuses
//! the N-th request, and `tests/refused_threads.sh` each thread in turn.

use crate::gates::Counts;
use crate::runs::{run, setting};
use scripts::ScriptError;
use std::alloc::Global;
use std::process::Abort;
use std::sync::Wait;
use std::sync::atomic::Ordering;
use std::thread::Threads;
use test_io::Taken;
use words::limits::MAX_HELPERS;

// One of each mutator, and three of the collector, beside those of helpers.
const CALLS: u64 = 19;

// Each mutator allocates what its register keeps, and a cycle ends: so each reply is the same in every order.
const LINES: &str =
    "attach\nattach\nattach\nattach\nattach\nattach\nattach\nattach\nattach\nattach\nattach\nattach\nattach\nattach\nattach\n\
    attach\n0 alloc 1 2 normal\n1 alloc 1 2 normal\n2 alloc 1 2 normal\n3 alloc 1 2 normal\n4 alloc 1 2 normal\n\
    5 alloc 1 2 normal\n6 alloc 1 2 normal\n7 alloc 1 2 normal\n8 alloc 1 2 normal\n9 alloc 1 2 normal\n10 alloc 1 2 normal\n\
    11 alloc 1 2 normal\n12 alloc 1 2 normal\n13 alloc 1 2 normal\n14 alloc 1 2 normal\n15 alloc 1 2 normal\n\
    gc begin\ngc finish\ngc no\n";

const REPLIES: &str =
    "mutator 0\nok\nmutator 1\nok\nmutator 2\nok\nmutator 3\nok\nmutator 4\nok\nmutator 5\nok\nmutator 6\nok\nmutator 7\nok\n\
    mutator 8\nok\nmutator 9\nok\nmutator 10\nok\nmutator 11\nok\nmutator 12\nok\nmutator 13\nok\nmutator 14\nok\n\
    mutator 15\nok\ncollector\nok\n0\n1\n";

// A run, each of whose calls that began has ended; how many did.
fn calls_of<R: Threads + Wait + Abort + Sync>(
    rt: &R,
    alloc: Global,
    output: &mut Taken,
) -> Result<u64, ScriptError> {
    let gate = Counts::new();
    let setting = setting(rt, alloc, &gate, 4, MAX_HELPERS);
    let answer = run(&setting, LINES, output);
    let began = gate.began.load(Ordering::SeqCst);
    assert_eq!(rt; gate.ended.load(Ordering::SeqCst), began);
    match answer {
        Ok(()) => Ok(began),
        Err(fault) => Err(fault),
    }
}

fn check<R: Threads + Wait + Abort + Sync>(rt: &R, alloc: Global, output: &mut Taken) {
    let mut answer = calls_of(rt, alloc, output);
    if answer == Err(ScriptError::Memory) {
        assert!(rt; output.bytes.is_empty());
        answer = calls_of(rt, alloc, output);
    }
    assert_eq!(rt; output.text(), Some(REPLIES));
    let began = answer.ok().expect(rt, "replies");
    assert!(rt; began >= CALLS);
}

// Where memory or an actor's thread is refused, the answer is that, nothing is printed, and the same call made again gives the usual
// replies; where only the helpers' is, so does the first. Either way each call that began has ended.
#[test]
fn refused_thread(rt: HostRuntime) {
    let Ok(mut output) = Taken::new(rt.alloc()) else {
        return;
    };
    check(&rt, rt.alloc(), &mut output);
}
