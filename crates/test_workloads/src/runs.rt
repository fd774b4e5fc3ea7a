//! A workload that is read, or run, and what was printed.

use final_pause::{Gate, Helpers};
use scripts::ScriptError;
use std::alloc::Global;
use std::process::Abort;
use std::sync::Wait;
use std::thread::Threads;
use test_io::{Script, Taken};
use words::limits::MAX_PAGES;
use workloads::{Setting, Workload, run_workload};

/// How a workload runs between the calls of a gate: over a heap of so many pages, with cycles that so many helpers end.
pub fn setting<'a, R: Abort, G>(
    rt: &'a R,
    alloc: Global,
    gate: &'a G,
    pages: u32,
    helpers: u8,
) -> Setting<'a, R, G> {
    Setting {
        rt,
        alloc,
        pages,
        helpers: Helpers::new(helpers).expect(rt, "helpers"),
        gate,
    }
}

/// The number of a workload's mutators, or the fault.
pub fn mutators_of(alloc: Global, input: &mut Script<'_>) -> Result<usize, ScriptError> {
    match Workload::read(alloc, input) {
        Ok(workload) => Ok(workload.mutators()),
        Err(fault) => Err(fault),
    }
}

/// Runs a workload that a reader gives, and keeps what was printed.
pub fn run_read<R: Threads + Wait + Abort + Sync, G: Gate>(
    setting: &Setting<'_, R, G>,
    input: &mut Script<'_>,
    output: &mut Taken,
) -> Result<(), ScriptError> {
    assert!(setting.rt; 1 <= setting.pages && setting.pages <= MAX_PAGES);
    output.clear();
    run_workload(setting, input, output)
}

/// Runs a workload, and keeps what was printed.
pub fn run<R: Threads + Wait + Abort + Sync, G: Gate>(
    setting: &Setting<'_, R, G>,
    text: &str,
    output: &mut Taken,
) -> Result<(), ScriptError> {
    let mut input = Script::new(text.as_bytes());
    run_read(setting, &mut input, output)
}
