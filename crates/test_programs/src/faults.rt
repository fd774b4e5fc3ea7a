//! Inputs that can't be read, and outputs that can't be written.

use crate::called::Called;
use std::process::Abort;
use std::rt::Files;
use std::sync::Wait;
use std::test::Fail;
use std::thread::Threads;
use test_io::Script;

const RUN: &[&str] = &["run", "--pages", "4"];

const STRESS: &[&str] = &["stress", "--seed", "1", "--mutators", "2", "--steps", "0"];

// A script that ends at a line which is none.
const SCRIPT: &[u8] = b"attach\n0 get 1\n?\n";

// What was read is answered.
fn check_input<R: Files + Threads + Wait + Abort + Sync>(rt: &R, called: &mut Called<'_>) {
    called.streams.input = Script::failing_at(SCRIPT, 7, 1);
    let end = (1, "mutator 0\n", "read fault\n");
    called.ends(rt, "a read fault", RUN, end);
    assert_eq!(rt; called.streams.input.calls, 2);
}

// What was written before stands, and the rest of the script isn't run.
fn check_output<R: Files + Threads + Wait + Abort + Sync>(rt: &R, called: &mut Called<'_>) {
    called.streams.input = Script::new(SCRIPT);
    called.streams.output.fails_at = Some(1);
    let end = (1, "mutator 0\n", "write fault\n");
    called.ends(rt, "a write fault", RUN, end);
    called.streams.output.fails_at = Some(0);
    let end = (1, "", "write fault\n");
    called.ends(rt, "a random script", STRESS, end);
    called.streams.output.fails_at = None;
}

// A fault that can't be told leaves the status.
fn check_errors<R: Files + Threads + Wait + Abort + Sync>(rt: &R, called: &mut Called<'_>) {
    called.streams.input = Script::new(SCRIPT);
    called.streams.errors.fails_at = Some(0);
    let end = (2, "mutator 0\n0\n", "");
    called.ends(rt, "a bad line", RUN, end);
    called.ends(rt, "no words", &[], (2, "", ""));
    called.streams.errors.fails_at = None;
}

#[test]
fn faults_are_told(rt: HostRuntime) -> Result<(), Fail> {
    let mut called = Called::new(rt.alloc())?;
    check_input(&rt, &mut called);
    check_output(&rt, &mut called);
    check_errors(&rt, &mut called);
    Ok(())
}
