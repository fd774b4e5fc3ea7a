//! How a run that was written down is drawn: it is judged, and what is legal of it is written as a trace.
ghost use Rattle.std.specs.Prelude.{◌≤◌, ◌∷◌, [], IfOk, OnOk};
ghost use Rattle.std.specs.Io.KnownBytes.{Appends};
ghost use Rattle.words.specs.declared.limits.TheConstants.{MAX_PAGES};
ghost use Rattle.scripts.specs.Lines.{lines_of};
ghost use Rattle.scripts.specs.Turns.{text_of};
ghost use Rattle.tracing.specs.Telling.{IsNewTracer};
ghost use Rattle.draw.specs.RunTrace.{DrawsRun, PutsBrokenTrace, PutsCutTrace, PutsWholeTrace, first_text};

use crate::run_drawing::{refusal_written, sentences};
use crate::run_lines::told_among;
use crate::run_records::put_records;
use programs::{Fault, put_line};
use scripts::Sink;
use std::alloc::Global;
use trace_lines::head_line;
use tracing::Tracer;
use written_runs::{Judgement, Rule, Verdict, first_line, judge};

// A run that was written down, of a heap of so many pages.
#[derive(Clone, Copy)]
struct Run<'a> {
    pages: u32,
    text: &'a str,
}

// Where a run breaks a rule: the number of the line, the rule, and what the checker says of it.
#[derive(Clone, Copy)]
struct Broken<'a> {
    number: u64,
    rule: Rule,
    judgement: &'a Judgement,
}

// Writes the first line of a trace of so many records, which say nothing of a collector.
fn put_head<W: Sink>(out: &mut W, alloc: Global, pages: u32, lines: u64) -> Result<(), Fault>
    ensures { OnOk result (Appends (W.written out.old) (W.written out.new) (text_of (first_text pages lines ∷ []))) }
{
    let Ok(head) = head_line(alloc, "a run", pages, lines, false) else {
        return Err(Fault::Memory);
    };
    put_line(out, head)
}

// A tracer of a new heap of so many pages.
fn new_tracer(alloc: Global, pages: u32) -> Result<Tracer, Fault>
    requires { (1 ≤ pages) × (pages ≤ MAX_PAGES) }
    ensures { IfOk result (IsNewTracer pages) }
{
    match Tracer::new(alloc, pages) {
        Ok(tracer) => Ok(tracer),
        Err(_) => Err(Fault::Memory),
    }
}

// Writes the trace of a run that is legal and tells so many lines.
fn put_whole<W: Sink>(out: &mut W, alloc: Global, run: &Run<'_>, count: u64) -> Result<(), Fault>
    requires { (1 ≤ run.now.pages) × (run.now.pages ≤ MAX_PAGES) }
    ensures { OnOk result (PutsWholeTrace run.now.pages (lines_of run.now.text.now) count (W.written out.old) (W.written out.new)) }
{
    let text = run.text;
    let mut tracer = new_tracer(alloc, run.pages)?;
    put_head(out, alloc, run.pages, count)?;
    // A text has no more lines than bytes.
    let _ = put_records(out, alloc, &mut tracer, text, text.len() as u64)?;
    Ok(())
}

// Writes the trace of a run that breaks a rule, up to the line that does, of which this is said.
fn put_cut<W: Sink>(
    out: &mut W,
    alloc: Global,
    run: &Run<'_>,
    broken: &Broken<'_>,
    says: Vec<String>,
) -> Result<(), Fault>
    requires { (1 ≤ run.now.pages) × (run.now.pages ≤ MAX_PAGES) }
    ensures { OnOk result (PutsCutTrace run.now.pages (lines_of run.now.text.now) broken.now.number says.items broken.now.judgement.now.wrong
        (W.written out.old) (W.written out.new)) }
{
    let number = broken.number;
    // The judge names a line of the run, counted from 1.
    let Some(before) = number.checked_sub(1) else {
        return Err(Fault::BadLine(number));
    };
    let mut tracer = new_tracer(alloc, run.pages)?;
    put_head(out, alloc, run.pages, told_among(run.text, before) + 1)?;
    let rest = put_records(out, alloc, &mut tracer, run.text, before)?;
    if rest.is_empty() {
        return Err(Fault::BadLine(number));
    }
    let (line, _) = first_line(rest);
    let record = refusal_written(alloc, number, line, says, broken.judgement)?;
    put_line(out, record)
}

// Says a sentence on standard error.
fn say(rt: &HostRuntime, sentence: &str) -> Result<(), Fault> {
    match eprintln!(rt; "{sentence}") {
        Ok(()) => Ok(()),
        Err(_) => Err(Fault::Write),
    }
}

// Says on standard error what is said of the line of this number.
fn say_all(rt: &HostRuntime, number: u64, says: &[String]) -> Result<(), Fault> {
    for sentence in says {
        let Ok(()) = eprintln!(rt; "line {number}: {sentence}") else {
            return Err(Fault::Write);
        };
    }
    Ok(())
}

// Draws a run that breaks a rule, and says what `replay` says.
fn draw_broken<W: Sink>(
    rt: &HostRuntime,
    out: &mut W,
    run: &Run<'_>,
    broken: &Broken<'_>,
) -> Result<(), Fault>
    requires { (1 ≤ run.now.pages) × (run.now.pages ≤ MAX_PAGES) }
    ensures { OnOk result (PutsBrokenTrace run.now.pages (lines_of run.now.text.now) broken.now.number broken.now.judgement.now
        (W.written out.old) (W.written out.new)) }
{
    let Ok(says) = sentences(rt.alloc(), broken.rule, broken.judgement) else {
        return Err(Fault::Memory);
    };
    say_all(rt, broken.number, says.as_slice())?;
    put_cut(out, rt.alloc(), run, broken, says)
}

/// Draws a run on a heap of so many pages, and gives the status that `replay` gives: what `replay` prints of a run that
/// isn't legal is said on standard error.
pub(crate) fn draw_run<W: Sink>(
    rt: &HostRuntime,
    out: &mut W,
    pages: u32,
    text: &str,
) -> Result<u8, Fault>
    requires { (1 ≤ pages) × (pages ≤ MAX_PAGES) }
    ensures { IfOk result (λ status. DrawsRun pages (lines_of text.now) status (W.written out.old) (W.written out.new)) }
{
    let Ok(judgement) = judge(rt.alloc(), pages, text) else {
        return Err(Fault::Memory);
    };
    let run = Run { pages, text };
    match judgement.verdict {
        Verdict::Legal(count) => {
            put_whole(out, rt.alloc(), &run, count)?;
            Ok(0)
        }
        Verdict::NoLines => {
            say(rt, "no lines")?;
            Ok(2)
        }
        Verdict::Bad(line) => match eprintln!(rt; "line {line}: not a line of a run") {
            Ok(()) => Ok(2),
            Err(_) => Err(Fault::Write),
        },
        Verdict::Breaks(number, rule) => {
            let broken = Broken {
                number,
                rule,
                judgement: &judgement,
            };
            draw_broken(rt, out, &run, &broken)?;
            Ok(1)
        }
    }
}
