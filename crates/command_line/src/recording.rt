//! A workload whose history is written down.
ghost use Rattle.std.specs.Prelude.{◌≡◌, ◌≤◌, ◌⊎◌, IfErr};
ghost use Rattle.words.specs.declared.limits.TheConstants.{MAX_PAGES};
ghost use Rattle.programs.specs.declared.fault.Fault.TheVariants.{WriteFile, NoRun, Memory};
ghost use Rattle.command_line.specs.Obeying.{HasWritten, RecordsWorkload};

use final_pause::Open;
use programs::Fault;
use scripts::{Sink, Source};
use std::alloc::Global;
use std::fs;
use std::rt::Files;
use std::sync::Wait;
use std::thread::Threads;
use thread_records::{RecordError, run_written, text_of};
use workloads::{Setting, Workload, print_replies};

// Why a history isn't written down, as the program's fault.
fn unrecorded(error: RecordError) -> Fault
    ensures { (result ≡ NoRun) ⊎ (result ≡ Memory) }
{
    match error {
        RecordError::Refused => Fault::NoRun,
        RecordError::Memory => Fault::Memory,
    }
}

// Writes lines to the file of this name, which is made anew.
fn write_lines<F: Files>(
    alloc: Global,
    files: &F,
    path: &str,
    lines: &[String],
) -> Result<(), Fault>
    ensures { IfErr result (λ fault. (fault ≡ WriteFile) ⊎ (fault ≡ Memory)) }
{
    let Ok(text) = text_of(alloc, lines) else {
        return Err(Fault::Memory);
    };
    match fs::write(files, path, text.as_str()) {
        Ok(()) => Ok(()),
        Err(error) => Err(Fault::of_write(&error)),
    }
}

/// Runs the workload in a reader, with nobody held back, and then writes the history that its threads made to the file of this name.
pub(crate) fn run_recorded<R: Files + Threads + Wait + Sync, I: Source, O: Sink>(
    setting: &Setting<'_, R, Open>,
    input: &mut I,
    output: &mut O,
    history: &str,
) -> Result<(), Fault>
    requires some { 1 ≤ setting.now.pages }
    requires most { setting.now.pages ≤ MAX_PAGES }
    ensures does { RecordsWorkload I.remaining setting.now.pages (O.written output.old) (O.written output.new) input.old input.new result }
    ensures wrote { HasWritten O.faults result output.old output.new }
{
    let workload = match Workload::read(setting.alloc, input) {
        Ok(workload) => workload,
        Err(error) => return Err(Fault::of(error)),
    };
    let (replies, lines) = match run_written(setting, &workload) {
        Ok(run) => run,
        Err(error) => return Err(unrecorded(error)),
    };
    if let Err(error) = print_replies(&replies, setting.pages, output) {
        return Err(Fault::of(error));
    }
    write_lines(setting.alloc, setting.rt, history, lines.as_slice())
}
