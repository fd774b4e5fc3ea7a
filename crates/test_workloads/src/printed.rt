//! Replies are printed actor by actor, to a writer that fails.

use heap_spec::Reply;
use scripts::ScriptError;
use std::alloc::{AllocError, Global};
use std::process::Abort;
use std::test::Fail;
use test_io::Taken;
use words::Refusal;
use workloads::{Lines, Replies, print_replies};

const TEXT: &str =
    "mutator 0\nok\nptr\n268439552\nmutator 1\nmutator 2\nrefused 6 Full\ncollector\n7\n";

// These replies, line by line.
fn lines(alloc: Global, replies: &[Reply]) -> Result<Lines<Reply>, AllocError> {
    let mut lines = Lines::new(alloc);
    for reply in replies {
        lines.push(*reply)?;
    }
    Ok(lines)
}

// The replies that print as the text, on one page.
fn replies(alloc: Global) -> Result<Replies, AllocError> {
    let words = [
        Reply::Done,
        Reply::Word(268_435_456),
        Reply::Word(268_439_552),
    ];
    let first = lines(alloc, &words)?;
    let third = lines(alloc, &[Reply::Refused(Refusal::Full)])?;
    let collector = lines(alloc, &[Reply::Count(7)])?;
    let mutators = vec![in alloc; first, Lines::new(alloc), third]?;
    Ok(Replies::new(mutators, collector))
}

// What the writer took before its fault stands, and no call of it follows.
fn check_fault(rt: &impl Abort, alloc: Global, replies: &Replies, call: usize) -> Result<(), Fail> {
    let mut output = Taken::limited(alloc, 1, Some(call))?;
    assert_eq!(rt;
        print_replies(replies, 1, &mut output),
        Err(ScriptError::Write)
    );
    assert_eq!(rt; output.text(), TEXT.get(..call));
    assert_eq!(rt; output.calls, call.saturating_add(1));
    Ok(())
}

#[test]
fn every_write_fails(rt: HostRuntime) -> Result<(), Fail> {
    let replies = replies(rt.alloc())?;
    for call in 0..TEXT.len() {
        check_fault(&rt, rt.alloc(), &replies, call)?;
    }
    Ok(())
}
