//! Reads, writes and allocations that fail.

use scripts::{ScriptError, run_bytes, run_script};
use std::alloc::Global;
use std::process::Abort;
use std::test::Fail;
use test_io::{Scene, Script, Taken};

// A pointer that moves, while a cycle is marking, to where the marker has been.
const SCRIPT: &str =
    "attach\n0 alloc 1 2 normal\n0 alloc 4 2 normal\n0 alloc 2 2 normal\n0 set 5 77\n0 store 2 0 5\n0 store 1 0 2\n0 set 2 0\ngc begin\ngc roots\ngc mark 2\n0 load 6 1 0\n0 store 4 0 6\n0 store 1 0 2\n0 set 6 0\ngc finish\n0 load 6 4 0\n0 load 7 6 0\n";

const REPLIES: &str =
    "mutator 0\nok\nok\nok\nok\nok\nok\nok\nok\nok\n2\nptr\nok\nok\nok\n0\nptr\n77\n";

// How many lines the script has, each with a reply of one line.
const LINES: usize = 18;

// So many bytes a call, and how many calls it takes to read the script and see its end.
const READS: [(usize, usize); 3] = [(1, 229), (7, 34), (4_096, 2)];

// The replies to so many first lines.
fn replies_to(lines: usize) -> &'static str {
    let mut left = lines;
    for (i, byte) in REPLIES.as_bytes().iter().enumerate() {
        if left == 0 {
            return REPLIES.get(..i).unwrap_or(REPLIES);
        }
        if *byte == b'\n' {
            left -= 1;
        }
    }
    REPLIES
}

// The complete lines before the fault are answered, and no call of the reader follows it.
fn check_read_fault(rt: &impl Abort, scene: &mut Scene, most: usize, call: usize) {
    let read = SCRIPT.as_bytes().iter().take(call.saturating_mul(most));
    let lines = read.filter(|b| **b == b'\n').count();
    let mut input = Script::failing_at(SCRIPT.as_bytes(), most, call);
    let wanted = (replies_to(lines), Err(ScriptError::Read));
    assert!(rt; scene.gives(4, &mut input, wanted));
    assert_eq!(rt; input.calls, call.saturating_add(1));
}

#[test]
fn every_read_fails(rt: HostRuntime) -> Result<(), Fail> {
    let mut scene = Scene::new(rt.alloc())?;
    for (most, calls) in READS {
        for call in 0..calls {
            check_read_fault(&rt, &mut scene, most, call);
        }
    }
    Ok(())
}

// One byte a call is read as all at once.
#[test]
fn short_reads(rt: HostRuntime) -> Result<(), Fail> {
    let mut scene = Scene::new(rt.alloc())?;
    for (most, calls) in READS {
        let mut input = Script::failing_at(SCRIPT.as_bytes(), most, calls);
        assert!(rt; scene.gives(4, &mut input, (REPLIES, Ok(()))));
        assert_eq!(rt; input.calls, calls);
    }
    Ok(())
}

// From bytes to bytes it is answered as from a reader to a writer.
fn check_bytes(rt: &impl Abort, alloc: Global) {
    let (replies, answer) = run_bytes(alloc, SCRIPT.as_bytes(), 4);
    assert_eq!(rt; answer, Ok(()));
    assert_eq!(rt; replies.as_slice(), REPLIES.as_bytes());
}

#[test]
fn a_script_goes_from_bytes_to_bytes(rt: HostRuntime) {
    check_bytes(&rt, rt.alloc());
}

// The script gets this answer from the writer, which has taken so much of the replies.
fn check_written(
    rt: &impl Abort,
    output: &mut Taken,
    alloc: Global,
    answer: Result<(), ScriptError>,
    written: Option<&str>,
) {
    let mut input = Script::new(SCRIPT.as_bytes());
    let answered = run_script(alloc, &mut input, output, 4);
    assert_eq!(rt; answered, answer);
    assert_eq!(rt; output.text(), written);
}

// What the writer took before stands, and no call of it follows the fault.
fn check_write_fault(
    rt: &impl Abort,
    output: &mut Taken,
    call: usize,
    written: Option<&str>,
    alloc: Global,
) {
    check_written(rt, output, alloc, Err(ScriptError::Write), written);
    assert_eq!(rt; output.calls, call.saturating_add(1));
}

// A writer fails at this call, or takes none.
fn check_call(
    rt: &impl Abort,
    output: &mut Taken,
    call: usize,
    written: Option<&str>,
    alloc: Global,
) {
    output.fails_at = Some(call);
    output.stops_at = None;
    output.clear();
    check_write_fault(rt, output, call, written, alloc);
    output.fails_at = None;
    output.stops_at = Some(call);
    output.clear();
    check_write_fault(rt, output, call, written, alloc);
}

// Where a writer that takes one byte a call, or all, fails, and where it takes none of some bytes, that call is the last.
#[test]
fn every_write_fails(rt: HostRuntime) -> Result<(), Fail> {
    let mut slow = Taken::limited(rt.alloc(), 1, None)?;
    for call in 0..REPLIES.len() {
        check_call(&rt, &mut slow, call, REPLIES.get(..call), rt.alloc());
    }
    let mut whole = Taken::new(rt.alloc())?;
    for call in 0..LINES {
        check_call(&rt, &mut whole, call, Some(replies_to(call)), rt.alloc());
    }
    Ok(())
}

// A writer that takes one byte a call gets all.
#[test]
fn short_writes(rt: HostRuntime) -> Result<(), Fail> {
    let mut slow = Taken::limited(rt.alloc(), 1, None)?;
    check_written(&rt, &mut slow, rt.alloc(), Ok(()), Some(REPLIES));
    assert_eq!(rt; slow.calls, REPLIES.len());
    Ok(())
}

// Where memory is refused, at whichever request, nothing was written, and the same script run again prints its replies. By
// itself this runs with ample memory; `rt try --test --fail-alloc N` refuses the N-th request.
#[test]
fn refused_memory(rt: HostRuntime) -> Result<(), Fail> {
    let Ok(mut output) = Taken::new(rt.alloc()) else {
        return Ok(());
    };
    let mut input = Script::new(SCRIPT.as_bytes());
    let answer = run_script(rt.alloc(), &mut input, &mut output, 4);
    if answer == Err(ScriptError::Memory) {
        assert_eq!(rt; output.text(), Some(""));
        check_written(&rt, &mut output, rt.alloc(), Ok(()), Some(REPLIES));
        return Ok(());
    }
    assert_eq!(rt; answer, Ok(()));
    assert_eq!(rt; output.text(), Some(REPLIES));
    Ok(())
}
