//! Small steps of the collector between calls of a mutator: what each has read, made clean or swept is in its reply, and no call of the
//! mutator does any of it.

use crate::gates::InTurn;
use crate::runs::{run, setting};
use final_pause::COLLECTOR_ACTOR;
use std::alloc::Global;
use std::process::Abort;
use std::sync::Wait;
use std::sync::atomic::Ordering;
use std::test::Fail;
use std::thread::Threads;
use test_io::Taken;

const C: u8 = COLLECTOR_ACTOR;

// Each row has a workload of one mutator, what is printed, and who makes the calls, in their order.

// An object that points to another, and one that nothing points to. While the cycle marks, a new object is stored into the first. Eight
// words are read, one page is dirty, one object is forgotten, and its page is swept.
const STEPS: (&str, &str, &[u8]) = (
    "attach\n0 alloc 1 4 normal\n0 alloc 2 4 normal\n0 store 1 0 2\n0 alloc 2 4 normal\n0 set 2 0\n\
    gc begin\ngc roots\ngc mark 5\ngc mark 5\n0 alloc 2 2 normal\n0 store 1 1 2\n\
    gc retrace\ngc retrace\ngc finish\ngc sweep\ngc sweep\n",
    "mutator 0\nok\nok\nok\nok\nok\nok\nok\n\
    collector\nok\nok\n5\n3\n1\n0\n1\n1\n0\n",
    &[0, 0, 0, 0, 0, C, C, C, C, 0, 0, C, C, C, C, C],
);

// Calls of the mutator between the collector's, none of which marks, reads a page again or sweeps: the collector finds as much to do as
// if they weren't there.
const CALLS_BETWEEN: (&str, &str, &[u8]) = (
    "attach\n0 alloc 1 2 normal\n0 alloc 2 4 normal\n0 store 1 0 2\n0 set 2 0\n0 get 1\n0 load 3 1 0\n0 store 1 1 2\n0 get 2\n\
    0 set 1 0\n0 set 3 0\n0 get 1\n0 get 2\n\
    gc begin\ngc mark 8\ngc roots\ngc mark 8\ngc retrace\ngc finish\ngc begin\ngc finish\ngc sweep\ngc sweep\ngc sweep\n",
    "mutator 0\nok\nok\nok\nok\nptr\nptr\nok\n0\nok\nok\n0\n0\n\
    collector\nok\n0\nok\n6\n1\n0\nok\n2\n1\n1\n0\n",
    &[
        0, 0, 0, 0, C, 0, C, C, 0, C, 0, 0, C, C, 0, 0, C, C, 0, C, 0, C, C,
    ],
);

// A cycle with the marks of the last one reads the old object that was stored to, and takes the new one that nothing leads to; after a
// free there is none.
const PARTIAL: (&str, &str, &[u8]) = (
    "attach\n0 alloc 1 2 normal\n0 alloc 2 2 normal\n0 store 1 0 2\n0 set 2 0\n0 alloc 3 4 normal\n0 set 3 0\n0 load 2 1 0\n0 free 2\n\
    gc partial\ngc collect\ngc partial\ngc retrace\ngc finish\ngc partial\n",
    "mutator 0\nok\nok\nok\nok\nok\nok\nptr\nok\n\
    collector\nrefused 12 NeedsFull\n0\nok\n1\n1\nrefused 12 NeedsFull\n",
    &[0, C, C, 0, 0, 0, 0, 0, C, C, C, 0, 0, C],
);

fn check_steps<R: Threads + Wait + Abort + Sync>(
    rt: &R,
    alloc: Global,
    row: (&str, &str, &[u8]),
    output: &mut Taken,
) {
    let (lines, replies, order) = row;
    let gate = InTurn::new(order);
    let answer = run(&setting(rt, alloc, &gate, 4, 1), lines, output);
    assert_eq!(rt; answer, Ok(()));
    assert_eq!(rt; gate.missed.load(Ordering::SeqCst), 0);
    assert_eq!(rt; output.text(), Some(replies));
}

#[test]
fn small_steps_do_their_work(rt: HostRuntime) -> Result<(), Fail> {
    let mut output = Taken::new(rt.alloc())?;
    for row in [STEPS, CALLS_BETWEEN, PARTIAL] {
        check_steps(&rt, rt.alloc(), row, &mut output);
    }
    Ok(())
}
