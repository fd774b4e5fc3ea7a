//! What is printed of a run: whether it is legal, or which line isn't and what that line did.
ghost use Rattle.std.specs.Prelude.{◌≡◌, ◌≤◌, ◌++◌, ◌∷◌, [], IfOk, OnOk, codes, decimal, string_bytes};
ghost use Rattle.std.specs.Io.KnownBytes.{Appends};
ghost use Rattle.words.specs.declared.limits.TheConstants.{MAX_PAGES};
ghost use Rattle.scripts.specs.Lines.{lines_of};
ghost use Rattle.scripts.specs.Turns.{text_of};
ghost use Rattle.written_runs.specs.Ranges.{HasRange};
ghost use Rattle.replay.specs.Printed.{SaysOf, SaysSomeOf, TellsVerdict, about};

use crate::options::Asked;
use heap_spec::Reply;
use plain_heap::PathStep;
use programs::{Fault, put_line};
use retelling::{Journal, first_text, hop_text};
use scripts::Sink;
use std::alloc::{AllocError, Global};
use written_runs::{Explained, Judgement, Rule, Verdict, explain, reply_text, wrong_text};

// The line that says how many lines are legal.
fn legal_text(alloc: Global, count: u64) -> Result<String, AllocError>
    ensures { IfOk result (λ text. string_bytes text ≡ codes "legal, " ++ (decimal count ++ codes " lines")) }
{
    format!(in alloc; "legal, {count} lines")
}

// The line that says that there is none.
fn none_text(alloc: Global) -> Result<String, AllocError>
    ensures { IfOk result (λ text. string_bytes text ≡ codes "no lines") }
{
    format!(in alloc; "no lines")
}

// The line that says this of the line of a number.
fn about_text(alloc: Global, line: u64, said: &str) -> Result<String, AllocError>
    ensures { IfOk result (λ text. string_bytes text ≡ about line said.now) }
{
    format!(in alloc; "line {line}: {said}")
}

// Prints how many lines are legal.
fn print_count<W: Sink>(out: &mut W, alloc: Global, count: u64) -> Result<(), Fault>
    ensures { OnOk result (Appends (W.written out.old) (W.written out.new) (text_of ((codes "legal, " ++ (decimal count ++ codes " lines")) ∷ []))) }
{
    let Ok(text) = legal_text(alloc, count) else {
        return Err(Fault::Memory);
    };
    put_line(out, text)
}

// Prints that there is no line.
fn print_none<W: Sink>(out: &mut W, alloc: Global) -> Result<(), Fault>
    ensures { OnOk result (Appends (W.written out.old) (W.written out.new) (text_of (codes "no lines" ∷ []))) }
{
    let Ok(text) = none_text(alloc) else {
        return Err(Fault::Memory);
    };
    put_line(out, text)
}

// Prints what is said of a line.
fn print_about<W: Sink>(out: &mut W, alloc: Global, line: u64, said: &str) -> Result<(), Fault>
    ensures { OnOk result (Appends (W.written out.old) (W.written out.new) (text_of (about line said.now ∷ []))) }
{
    let Ok(text) = about_text(alloc, line, said) else {
        return Err(Fault::Memory);
    };
    put_line(out, text)
}

// Which reply a line had to have.
fn expected_text(alloc: Global, reply: &Reply) -> Result<String, AllocError> {
    let text = reply_text(alloc, reply)?;
    format!(in alloc; "a sequential heap answers {text}")
}

// Prints which reply a line had to have, if one is told.
fn print_expected<W: Sink>(
    out: &mut W,
    alloc: Global,
    line: u64,
    judgement: &Judgement,
) -> Result<(), Fault>
    ensures { OnOk result (SaysOf line (W.written out.old) (W.written out.new)) }
{
    let Some(reply) = judgement.expected else {
        return Ok(());
    };
    let Ok(text) = expected_text(alloc, &reply) else {
        return Err(Fault::Memory);
    };
    print_about(out, alloc, line, text.as_str())
}

// Prints what is wrong about the objects that a line says were forgotten, if anything is.
fn print_wrong<W: Sink>(
    out: &mut W,
    alloc: Global,
    line: u64,
    judgement: &Judgement,
) -> Result<(), Fault>
    ensures { OnOk result (SaysOf line (W.written out.old) (W.written out.new)) }
{
    let Some(wrong) = judgement.wrong else {
        return Ok(());
    };
    let Ok(text) = wrong_text(alloc, &wrong, judgement.keeper) else {
        return Err(Fault::Memory);
    };
    print_about(out, alloc, line, text.as_str())
}

// What the checker says of the line of a number, which breaks a rule, in the text of its run.
#[derive(Clone, Copy)]
struct Told<'a> {
    line: u64,
    rule: Rule,
    text: &'a str,
    said: &'a Explained,
}

// How many steps of a path are shown at each of its ends, where not all are asked for.
const ENDS: usize = 6;

// A path to an object that a line took, of which all steps are to be shown, or of a long one both ends.
#[derive(Clone, Copy)]
struct Way<'a> {
    line: u64,
    journal: &'a Journal,
    steps: &'a [PathStep],
    shows_all: bool,
}

// Prints a step of a path, or in its place that steps are left out.
fn print_step<W: Sink>(
    out: &mut W,
    alloc: Global,
    way: &Way<'_>,
    at: usize,
    step: &PathStep,
) -> Result<(), Fault>
    ensures { OnOk result (SaysOf way.now.line (W.written out.old) (W.written out.new)) }
{
    if !way.shows_all && at >= ENDS && way.steps.len().wrapping_sub(at) > ENDS {
        if at > ENDS {
            return Ok(());
        }
        return print_about(out, alloc, way.line, "and so on: --why shows all steps");
    }
    let Ok(text) = hop_text(alloc, way.journal, step) else {
        return Err(Fault::Memory);
    };
    print_about(out, alloc, way.line, text.as_str())
}

// Prints a path from a root to the object that has to stay, a line for each step, or of a long one both ends.
fn print_path<W: Sink>(out: &mut W, alloc: Global, way: &Way<'_>) -> Result<(), Fault>
    ensures { OnOk result (SaysOf way.now.line (W.written out.old) (W.written out.new)) }
{
    let steps = way.steps;
    for at in 0..steps.len() {
        print_step(out, alloc, way, at, &steps[at])?;
    }
    Ok(())
}

// Prints the path to an object that a line took, where one is known.
fn print_way<W: Sink>(
    out: &mut W,
    alloc: Global,
    asked: &Asked<'_>,
    journal: &Journal,
    told: &Told<'_>,
) -> Result<(), Fault>
    ensures { OnOk result (SaysOf told.now.line (W.written out.old) (W.written out.new)) }
{
    let Some(path) = &told.said.path else {
        return Ok(());
    };
    let way = Way {
        line: told.line,
        journal,
        steps: path.as_slice(),
        shows_all: asked.why,
    };
    print_path(out, alloc, &way)
}

// Prints what a line did that isn't legal, and the path to an object that it took.
fn print_deed<W: Sink>(
    out: &mut W,
    alloc: Global,
    asked: &Asked<'_>,
    told: &Told<'_>,
) -> Result<(), Fault>
    ensures { OnOk result (SaysSomeOf told.now.line (W.written out.old) (W.written out.new)) }
{
    let Ok(journal) = Journal::of(alloc, asked.range(), told.text, told.line) else {
        return Err(Fault::Memory);
    };
    let Ok(first) = first_text(alloc, &journal, told.text, told.line, &told.said.judgement) else {
        return Err(Fault::Memory);
    };
    print_about(out, alloc, told.line, first.as_str())?;
    print_way(out, alloc, asked, &journal, told)
}

// Prints all that is said of a line that isn't legal.
fn print_broken<W: Sink>(
    out: &mut W,
    alloc: Global,
    asked: &Asked<'_>,
    told: &Told<'_>,
) -> Result<(), Fault>
    ensures { OnOk result (SaysSomeOf told.now.line (W.written out.old) (W.written out.new)) }
{
    print_deed(out, alloc, asked, told)?;
    print_about(out, alloc, told.line, told.rule.text())?;
    print_expected(out, alloc, told.line, &told.said.judgement)?;
    print_wrong(out, alloc, told.line, &told.said.judgement)
}

/// Judges the run in a text, prints all that is said of it, and gives the status that goes with that.
pub(crate) fn tell<W: Sink>(
    out: &mut W,
    alloc: Global,
    asked: &Asked<'_>,
    text: &str,
) -> Result<u8, Fault>
    requires pages { (1 ≤ asked.now.pages) × (asked.now.pages ≤ MAX_PAGES) }
    requires range { HasRange asked.now.places asked.now.pages }
    ensures { IfOk result (λ status. TellsVerdict asked.now.places asked.now.pages (lines_of text.now) status (W.written out.old) (W.written out.new)) }
{
    let Ok(said) = explain(alloc, asked.pages, asked.places, text, true) else {
        return Err(Fault::Memory);
    };
    match said.judgement.verdict {
        Verdict::Legal(count) => {
            print_count(out, alloc, count)?;
            Ok(0)
        }
        Verdict::NoLines => {
            print_none(out, alloc)?;
            Ok(2)
        }
        Verdict::Bad(line) => {
            print_about(out, alloc, line, "not a line of a run")?;
            Ok(2)
        }
        Verdict::Breaks(line, rule) => {
            let told = Told {
                line,
                rule,
                text,
                said: &said,
            };
            print_broken(out, alloc, asked, &told)?;
            Ok(1)
        }
    }
}
