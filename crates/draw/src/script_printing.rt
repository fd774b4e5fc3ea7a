//! How a script is drawn: it is run on a heap of its own, and its run is written as a trace.
ghost use Rattle.std.specs.Prelude.{◌≡◌, ◌≤◌, ◌⊎◌, ◌∷◌, [], IfErr, OnOk};
ghost use Rattle.std.specs.Io.KnownBytes.{Appends};
ghost use Rattle.words.specs.declared.limits.TheConstants.{MAX_PAGES};
ghost use Rattle.scripts.specs.Lines.{lines_of};
ghost use Rattle.scripts.specs.Turns.{text_of};
ghost use Rattle.programs.specs.Faults.{IsRefusal};
ghost use Rattle.draw.specs.ScriptTrace.{DrawsScript, IsNotPut, PutsCommands, StopsAtBadLine, script_head};

use crate::drawing::{Run, written};
use crate::run_lines::line_count;
use heap_core::Core;
use programs::{Fault, put_line};
use recording::Recorder;
use scripts::Sink;
use std::alloc::Global;
use trace_lines::head_line;
use tracing::Tracer;
use written_runs::first_line;

// Writes the first line of a trace of so many records of a script.
fn put_head<W: Sink>(out: &mut W, alloc: Global, pages: u32, lines: u64) -> Result<(), Fault>
    ensures ok { OnOk result (Appends (W.written out.old) (W.written out.new) (text_of (script_head pages lines ∷ []))) }
    ensures fault { IfErr result IsRefusal }
{
    let Ok(head) = head_line(alloc, "a script", pages, lines, true) else {
        return Err(Fault::Memory);
    };
    put_line(out, head)
}

// Writes the record of a command, which is the line of this number in its script.
fn put_command<W: Sink>(
    out: &mut W,
    alloc: Global,
    run: &mut Run,
    number: u64,
    line: &str,
) -> Result<(), Fault>
    ensures ok { OnOk result (PutsCommands run.old.pages run.old.recorder run.old.tracer (line.now ∷ []) run.new.recorder run.new.tracer (W.written out.old) (W.written out.new)) }
    ensures fault { IfErr result (IsNotPut number line.now (W.written out.old) (W.written out.new)) }
    ensures pages { run.new.pages ≡ run.old.pages }
{
    let record = written(alloc, run, number, line)?;
    put_line(out, record)
}

// Writes the records of a script's commands.
fn put_commands<W: Sink>(
    out: &mut W,
    alloc: Global,
    run: &mut Run,
    script: &str,
) -> Result<(), Fault>
    ensures ok { OnOk result (PutsCommands run.old.pages run.old.recorder run.old.tracer (lines_of script.now) run.new.recorder run.new.tracer (W.written out.old) (W.written out.new)) }
    ensures fault { IfErr result (λ fault. StopsAtBadLine run.old.pages run.old.recorder run.old.tracer (lines_of script.now) (W.written out.old) (W.written out.new) fault ⊎ IsRefusal fault) }
{
    let mut rest = script;
    let mut number = 0u64;
    while !rest.is_empty() {
        let (line, behind) = first_line(rest);
        number += 1;
        put_command(out, alloc, run, number, line)?;
        rest = behind;
    }
    Ok(())
}

/// Runs a script on a new heap, and writes its trace.
pub(crate) fn draw_script<W: Sink>(
    out: &mut W,
    alloc: Global,
    pages: u32,
    script: &str,
) -> Result<(), Fault>
    requires { (1 ≤ pages) × (pages ≤ MAX_PAGES) }
    ensures { DrawsScript pages (lines_of script.now) (W.written out.old) (W.written out.new) result }
{
    let Ok(core) = Core::new(alloc, pages) else {
        return Err(Fault::Memory);
    };
    let Ok(tracer) = Tracer::new(alloc, pages) else {
        return Err(Fault::Memory);
    };
    let mut run = Run {
        pages,
        recorder: Recorder::new(alloc, core),
        tracer,
    };
    put_head(out, alloc, pages, line_count(script))?;
    put_commands(out, alloc, &mut run, script)
}
