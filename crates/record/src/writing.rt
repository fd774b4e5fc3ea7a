//! A run that is written down: what is written of each line of its script.
ghost use Rattle.std.specs.Prelude.{◌≤◌, ◌∷◌, [], IfOk, OnOk, string_bytes};
ghost use Rattle.words.specs.declared.limits.TheConstants.{MAX_PAGES};
ghost use Rattle.scripts.specs.Lines.{lines_of};
ghost use Rattle.record.specs.Recorded.{IsRecorded, PutsRun, RecordsScript};

use heap_core::Core;
use programs::{Fault, put_line};
use recording::Recorder;
use scripts::limits::LINE_BYTES;
use scripts::{Sink, command};
use std::alloc::Global;
use written_runs::{first_line, line_text};

// What is written of a command, which is the line of this number in its script.
fn written(alloc: Global, recorder: &mut Recorder, number: u64, line: &str) -> Result<String, Fault>
    ensures { IfOk result (λ text. IsRecorded recorder.old line.now recorder.new (string_bytes text)) }
{
    if line.len() > LINE_BYTES {
        return Err(Fault::BadLine(number));
    }
    let Some(event) = command(line.as_bytes()) else {
        return Err(Fault::BadLine(number));
    };
    let Ok(reply) = recorder.act(&event) else {
        return Err(Fault::Memory);
    };
    match line_text(alloc, line, &reply, recorder.hint()) {
        Ok(text) => Ok(text),
        Err(_) => Err(Fault::Memory),
    }
}

// Writes a command down.
fn put_command<W: Sink>(
    out: &mut W,
    alloc: Global,
    recorder: &mut Recorder,
    number: u64,
    line: &str,
) -> Result<(), Fault>
    ensures { OnOk result (PutsRun recorder.old (line.now ∷ []) recorder.new (W.written out.old) (W.written out.new)) }
{
    let text = written(alloc, recorder, number, line)?;
    put_line(out, text)
}

// Writes a script's commands down.
fn put_run<W: Sink>(
    out: &mut W,
    alloc: Global,
    recorder: &mut Recorder,
    script: &str,
) -> Result<(), Fault>
    ensures { OnOk result (PutsRun recorder.old (lines_of script.now) recorder.new (W.written out.old) (W.written out.new)) }
{
    let mut rest = script;
    let mut number = 0u64;
    while !rest.is_empty() {
        let (line, behind) = first_line(rest);
        number = number.wrapping_add(1);
        put_command(out, alloc, recorder, number, line)?;
        rest = behind;
    }
    Ok(())
}

/// Runs a script on a new heap, and writes its run.
pub(crate) fn write_run<W: Sink>(
    out: &mut W,
    alloc: Global,
    pages: u32,
    script: &str,
) -> Result<(), Fault>
    requires { (1 ≤ pages) × (pages ≤ MAX_PAGES) }
    ensures { OnOk result (RecordsScript pages (lines_of script.now) (W.written out.old) (W.written out.new)) }
{
    let Ok(core) = Core::new(alloc, pages) else {
        return Err(Fault::Memory);
    };
    let mut recorder = Recorder::new(alloc, core);
    put_run(out, alloc, &mut recorder, script)
}
