//! Records of a run that was written down, one after another.
ghost use Rattle.std.specs.Prelude.{◌≡◌, ◌∷◌, [], IfOk, OnOk, drop, take};
ghost use Rattle.std.specs.Io.KnownBytes.{Appends};
ghost use Rattle.scripts.specs.Lines.{lines_of};
ghost use Rattle.scripts.specs.Turns.{text_of};
ghost use Rattle.written_runs.specs.Told.{told_lines};
ghost use Rattle.draw.specs.RunTrace.{PutsRecords};

use crate::run_drawing::run_written;
use programs::{Fault, put_line};
use scripts::Sink;
use std::alloc::Global;
use tracing::Tracer;
use written_runs::{first_line, is_comment};

// Writes the record of a line, if it is told, which has this number.
fn put_record<W: Sink>(
    out: &mut W,
    alloc: Global,
    tracer: &mut Tracer,
    number: u64,
    line: &str,
) -> Result<(), Fault>
    ensures { OnOk result (PutsRecords tracer.old (told_lines (line.now ∷ [])) tracer.new (W.written out.old) (W.written out.new)) }
{
    if is_comment(line) {
        return Ok(());
    }
    let record = run_written(alloc, tracer, number, line)?;
    put_line(out, record)
}

/// Writes the records of so many of a text's first lines, and gives the text behind these lines.
pub(crate) fn put_records<'a, W: Sink>(
    out: &mut W,
    alloc: Global,
    tracer: &mut Tracer,
    text: &'a str,
    most: u64,
) -> Result<&'a str, Fault>
    ensures records { OnOk result (PutsRecords tracer.old (told_lines (take most (lines_of text.now))) tracer.new (W.written out.old) (W.written out.new)) }
    ensures rest { IfOk result (λ rest. lines_of rest.now ≡ drop most (lines_of text.now)) }
{
    let mut rest = text;
    let mut number = 0u64;
    while !rest.is_empty() {
        if number == most {
            return Ok(rest);
        }
        let (line, behind) = first_line(rest);
        number += 1;
        put_record(out, alloc, tracer, number, line)?;
        rest = behind;
    }
    Ok(rest)
}
