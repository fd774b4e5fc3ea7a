//! Worked rows under gates.

use crate::gates::{Meeting, TwoThreads};
use crate::runs::{run, setting};
use std::alloc::Global;
use std::process::Abort;
use std::sync::Wait;
use std::sync::atomic::Ordering;
use std::test::Fail;
use std::thread::Threads;
use test_io::Taken;

const TWO_THREADS: &str = "attach\nattach\n0 set 1 5\n0 gput 0 1\n1 set 2 7\n1 gget 3 0\n";

fn check_two<R: Threads + Wait + Abort + Sync>(rt: &R, alloc: Global, output: &mut Taken) {
    let gate = TwoThreads::new();
    let answer = run(&setting(rt, alloc, &gate, 4, 1), TWO_THREADS, output);
    assert_eq!(rt; answer, Ok(()));
    assert_eq!(rt; gate.missed.load(Ordering::SeqCst), 0);
    assert_eq!(rt; gate.there.load(Ordering::SeqCst), 2);
    assert_eq!(rt;
        output.text(),
        Some("mutator 0\nok\nok\nmutator 1\nok\n5\ncollector\n")
    );
}

// Two mutators that wait for each other's flag, and the second reads what the first has put.
#[test]
fn two_threads(rt: HostRuntime) -> Result<(), Fail> {
    let mut output = Taken::new(rt.alloc())?;
    check_two(&rt, rt.alloc(), &mut output);
    Ok(())
}

const SIXTEEN: &str =
    "attach\nattach\nattach\nattach\nattach\nattach\nattach\nattach\nattach\nattach\nattach\nattach\nattach\nattach\nattach\nattach\n0 get 1\n1 get 1\n2 get 1\n3 get 1\n4 get 1\n5 get 1\n6 get 1\n7 get 1\n8 get 1\n9 get 1\n10 get 1\n11 get 1\n12 get 1\n13 get 1\n14 get 1\n15 get 1\ngc no\n";

fn check_meeting<R: Threads + Wait + Abort + Sync>(rt: &R, alloc: Global, output: &mut Taken) {
    let gate = Meeting::new(17);
    let answer = run(&setting(rt, alloc, &gate, 4, 1), SIXTEEN, output);
    assert_eq!(rt; answer, Ok(()));
    assert_eq!(rt; gate.missed.load(Ordering::SeqCst), 0);
    assert_eq!(rt; gate.there.load(Ordering::SeqCst), 17);
}

// Sixteen mutators and the collector are all there before one of them makes its first call.
#[test]
fn seventeen_actors_meet(rt: HostRuntime) -> Result<(), Fail> {
    let mut output = Taken::new(rt.alloc())?;
    check_meeting(&rt, rt.alloc(), &mut output);
    Ok(())
}
