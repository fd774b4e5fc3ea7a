//! Two mutators and the collector at one link. A mutator that loads the link's word has the object from then on, or the word is 0: it is
//! never the address of an object that left. `tests/random.sh` makes the calls in whatever order comes.

use crate::gates::InTurn;
use crate::runs::{run, setting};
use final_pause::COLLECTOR_ACTOR;
use std::alloc::Global;
use std::process::Abort;
use std::sync::Wait;
use std::sync::atomic::Ordering;
use std::test::Fail;
use std::thread::Threads;
use test_io::Taken;

const C: u8 = COLLECTOR_ACTOR;

// Mutator 0 makes a link, shows its holder, and lets the object go; then each mutator loads the word and asks for the object's size.
const LINES: &str =
    "attach\nattach\n0 alloc 1 2 atomic\n0 alloc 2 2 normal\n0 store 1 0 2\n0 link 1 0 2\n0 gput 0 1\n0 set 2 0\n0 load 3 1 0\n0 size 3\n1 gget 1 0\n1 load 2 1 0\n1 size 2\ngc begin\ngc finish\n";

// Both have the object, and it stays.
const BOTH: &str =
    "mutator 0\nok\nok\nok\nok\nok\nok\nptr\n2\nmutator 1\nptr\nptr\n2\ncollector\nok\n0\n";

// Mutator 1 looked before the holder was shown.
const FIRST_ALONE: &str =
    "mutator 0\nok\nok\nok\nok\nok\nok\nptr\n2\nmutator 1\n0\nrefused 3 NoObject\nrefused 3 NoObject\ncollector\nok\n0\n";

// The word is 0, and the object left.
const NEITHER: &str =
    "mutator 0\nok\nok\nok\nok\nok\nok\n0\nrefused 3 NoObject\nmutator 1\nptr\n0\nrefused 3 NoObject\ncollector\nok\n1\n";

// The same, and mutator 1 looked before the holder was shown.
const NONE_SHOWN: &str =
    "mutator 0\nok\nok\nok\nok\nok\nok\n0\nrefused 3 NoObject\nmutator 1\n0\nrefused 3 NoObject\nrefused 3 NoObject\ncollector\nok\n1\n";

// Orders of the calls, and what is printed then.
const ORDERS: [(&[u8], &str); 5] = [
    // The word is taken before a cycle begins, and while one marks.
    (&[0, 0, 0, 0, 0, 0, 1, 1, 1, C, C, 0, 0], BOTH),
    (&[0, 0, 0, 0, 0, 0, C, 1, 1, C, 1, 0, 0], BOTH),
    // It is taken by the other one.
    (&[1, 1, 1, 0, 0, 0, 0, 0, 0, C, 0, 0, C], FIRST_ALONE),
    // It is cleared first.
    (&[0, 0, 0, 0, 0, 0, 1, C, C, 1, 1, 0, 0], NEITHER),
    (&[1, 1, 1, 0, 0, 0, 0, 0, 0, C, C, 0, 0], NONE_SHOWN),
];

fn check_order<R: Threads + Wait + Abort + Sync>(
    rt: &R,
    alloc: Global,
    row: (&[u8], &str),
    helpers: u8,
    output: &mut Taken,
) {
    let (order, printed) = row;
    let gate = InTurn::new(order);
    let answer = run(&setting(rt, alloc, &gate, 4, helpers), LINES, output);
    assert_eq!(rt; answer, Ok(()));
    assert_eq!(rt; gate.missed.load(Ordering::SeqCst), 0);
    assert_eq!(rt; output.text(), Some(printed), "{helpers} helpers");
}

#[test]
fn a_word_is_taken_before_it_is_cleared(rt: HostRuntime) -> Result<(), Fail> {
    let mut output = Taken::new(rt.alloc())?;
    for row in ORDERS {
        for helpers in [1u8, 2, 8] {
            check_order(&rt, rt.alloc(), row, helpers, &mut output);
        }
    }
    Ok(())
}
