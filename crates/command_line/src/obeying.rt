//! What is done for each request.
ghost use Rattle.std.specs.Prelude.{◌≡◌, ◌+◌, ◌≤◌, ◌⊎◌, IfErr};
ghost use Rattle.words.specs.declared.limits.TheConstants.{MAX_PAGES, SLOTS};
ghost use Rattle.workloads.specs.declared.limits.TheConstants.{MAX_STEPS};
ghost use Rattle.workloads.specs.Stress.{stress_text};
ghost use Rattle.programs.specs.declared.fault.Fault.TheVariants.{Read, Memory};
ghost use Rattle.command_line.specs.Requests.{CanBeDone};
ghost use Rattle.command_line.specs.Obeying.{as_fault, read_faults, HasRead, HasWritten, RunsScript, RunsWorkload, RecordsWorkload, WritesStress, OfFile, IsObeyed};

use crate::recording::run_recorded;
use crate::request::Request;
use final_pause::Open;
use programs::Fault;
use scripts::{ScriptError, Sink, Source, Std, run_script};
use std::alloc::Global;
use std::fs;
use std::rt::Files;
use std::sync::Wait;
use std::thread::Threads;
use workloads::{Setting, run_workload, write_stress};

// What ends a command, as the program's fault.
fn faulted(answer: Result<(), ScriptError>) -> Result<(), Fault>
    ensures { result ≡ as_fault answer }
{
    match answer {
        Ok(()) => Ok(()),
        Err(error) => Err(Fault::of(error)),
    }
}

// Opens a file that is to be read.
fn open<F: Files>(files: &F, path: &str) -> Result<Std<F::File>, Fault>
    ensures { IfErr result (λ fault. (fault ≡ Read) ⊎ (fault ≡ Memory)) }
{
    match fs::open(files, path) {
        Ok(file) => Ok(Std::new(file)),
        Err(error) => Err(Fault::of_read(&error)),
    }
}

// Runs the script in the input.
fn run<I: Source, O: Sink>(
    alloc: Global,
    input: &mut I,
    output: &mut O,
    pages: u32,
) -> Result<(), Fault>
    requires some { 1 ≤ pages }
    requires most { pages ≤ MAX_PAGES }
    ensures does { RunsScript I.remaining pages (O.written output.old) (O.written output.new) input.old input.new result }
    ensures counted { I.faults input.new ≡ I.faults input.old + read_faults result }
    ensures read { HasRead I.faults result input.old input.new }
    ensures wrote { HasWritten O.faults result output.old output.new }
{
    faulted(run_script(alloc, input, output, pages))
}

// Runs the script in a file.
fn run_file<F: Files, O: Sink>(
    alloc: Global,
    files: &F,
    path: &str,
    output: &mut O,
    pages: u32,
) -> Result<(), Fault>
    requires some { 1 ≤ pages }
    requires most { pages ≤ MAX_PAGES }
    ensures does { OfFile (λ (file file' : F.File). RunsScript F.File.remaining pages (O.written output.old) (O.written output.new) file file' result) output.old output.new result }
    ensures wrote { HasWritten O.faults result output.old output.new }
{
    let mut script = open(files, path)?;
    faulted(run_script(alloc, &mut script, output, pages))
}

// Runs the workload in a file, with nobody held back.
fn threads<R: Files + Threads + Wait + Sync, O: Sink>(
    setting: &Setting<'_, R, Open>,
    path: &str,
    output: &mut O,
) -> Result<(), Fault>
    requires some { 1 ≤ setting.now.pages }
    requires most { setting.now.pages ≤ MAX_PAGES }
    ensures does { OfFile (λ (file file' : R.File). RunsWorkload R.File.remaining setting.now.pages (O.written output.old) (O.written output.new) file file' result) output.old output.new result }
    ensures wrote { HasWritten O.faults result output.old output.new }
{
    let mut workload = open(setting.rt, path)?;
    faulted(run_workload(setting, &mut workload, output))
}

// Runs the workload in a file, with nobody held back, and then writes the history that its threads made to another.
fn threads_recorded<R: Files + Threads + Wait + Sync, O: Sink>(
    setting: &Setting<'_, R, Open>,
    path: &str,
    output: &mut O,
    history: &str,
) -> Result<(), Fault>
    requires some { 1 ≤ setting.now.pages }
    requires most { setting.now.pages ≤ MAX_PAGES }
    ensures does { OfFile (λ (file file' : R.File). RecordsWorkload R.File.remaining setting.now.pages (O.written output.old) (O.written output.new) file file' result) output.old output.new result }
    ensures wrote { HasWritten O.faults result output.old output.new }
{
    let mut workload = open(setting.rt, path)?;
    run_recorded(setting, &mut workload, output, history)
}

// Writes a random script.
fn stress<O: Sink>(
    alloc: Global,
    output: &mut O,
    seed: u64,
    mutators: u8,
    steps: u32,
) -> Result<(), Fault>
    requires some { 1 ≤ mutators }
    requires most { mutators ≤ SLOTS }
    requires steps { steps ≤ MAX_STEPS }
    ensures does { WritesStress (stress_text seed mutators steps) (O.written output.old) (O.written output.new) result }
    ensures wrote { HasWritten O.faults result output.old output.new }
{
    faulted(write_stress(alloc, output, seed, mutators, steps))
}

/// Does what is asked for.
pub(crate) fn obey<R: Files + Threads + Wait + Sync, I: Source, O: Sink>(
    alloc: Global,
    rt: &R,
    request: &Request<'_>,
    input: &mut I,
    output: &mut O,
) -> Result<(), Fault>
    requires { CanBeDone request.now }
    ensures { IsObeyed I.remaining R.File.remaining O.written I.faults O.faults request.now input.old input.new output.old output.new result }
{
    match request {
        Request::Run(pages) => run(alloc, input, output, *pages),
        Request::RunFile(pages, path) => run_file(alloc, rt, path, output, *pages),
        Request::Threads(pages, helpers, path) => {
            let setting = Setting {
                rt,
                alloc,
                pages: *pages,
                helpers: *helpers,
                gate: &Open,
            };
            threads(&setting, path, output)
        }
        Request::Record(pages, helpers, path, history) => {
            let setting = Setting {
                rt,
                alloc,
                pages: *pages,
                helpers: *helpers,
                gate: &Open,
            };
            threads_recorded(&setting, path, output, history)
        }
        Request::Stress(seed, mutators, steps) => stress(alloc, output, *seed, *mutators, *steps),
    }
}
