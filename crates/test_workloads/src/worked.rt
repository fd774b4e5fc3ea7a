//! Workloads that are run with nobody held back, and whose order of calls changes no reply.

use crate::runs::{run, setting};
use final_pause::Open;
use scripts::ScriptError;
use std::alloc::Global;
use std::process::Abort;
use std::sync::Wait;
use std::thread::Threads;
use test_io::Taken;

/// A workload, with what is printed and what is answered.
#[derive(Clone, Copy)]
pub struct Workload<'a> {
    pub text: &'a str,
    pub printed: &'a str,
    pub answer: Result<(), ScriptError>,
}

fn check<R: Threads + Wait + Abort + Sync>(
    rt: &R,
    alloc: Global,
    workload: &Workload<'_>,
    output: &mut Taken,
) {
    let answer = run(&setting(rt, alloc, &Open, 4, 1), workload.text, output);
    assert!(rt; answer == workload.answer, "{}", workload.text);
    assert_eq!(rt; output.text(), Some(workload.printed), "{}", workload.text);
}

/// Runs each workload on a heap of its own, and compares what is printed.
pub fn are_printed<R: Threads + Wait + Abort + Sync>(
    rt: &R,
    alloc: Global,
    workloads: &[Workload<'_>],
    output: &mut Taken,
) {
    for workload in workloads {
        check(rt, alloc, workload, output);
    }
}
