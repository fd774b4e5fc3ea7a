//! A written run is replayed, line by line.
ghost use Rattle.std.specs.Prelude.{◌≡◌, ◌≤◌, IfOk, None, []};
ghost use Rattle.words.specs.declared.limits.TheConstants.{MAX_PAGES};
ghost use Rattle.scripts.specs.Lines.{lines_of};
ghost use Rattle.heap_spec.specs.Runs.{opening_start};
ghost use Rattle.replayer.specs.ReplayerContents.{Follows};
ghost use Rattle.written_runs.specs.declared.places.Places.TheVariants.{Classes};
ghost use Rattle.written_runs.specs.Finding.{IsLineJudged};
ghost use Rattle.written_runs.specs.Judging.{IsBlamed, IsExplained, IsJudged, IsTracedBack};
ghost use Rattle.written_runs.specs.Ranges.{BeginsBy, HasRange};

use crate::finding::{goes_on, keeper_of, other_reply, path_of};
use crate::line::read_line;
use crate::places::Places;
use crate::rules::{Rule, rule_of};
use crate::told::{first_line, is_comment, told_by};
use heap_spec::Reply;
use plain_heap::{Keeper, PathStep, Wrong};
use replayer::Replayer;
use std::alloc::{AllocError, Global};
use words::RunError;

/// What is said of a written run.
#[derive(Clone, Copy, Debug, PartialEq, Eq)]
pub enum Verdict {
    /// Each line is legal, and there are so many that are no comments.
    Legal(u64),

    /// There is no line but comments.
    NoLines,

    /// The line of this number, from 1, is no line of a run.
    Bad(u64),

    /// The line of this number, from 1, is the first that isn't legal, and breaks this rule.
    Breaks(u64, Rule),
}

/// What is said of a written run, and of a line that breaks it which reply it had to have, where just one is open, and the lowest
/// of what is wrong about the objects that it says were forgotten, if anything is: with what keeps the object, where it has to stay.
#[derive(Clone, Copy, Debug, PartialEq, Eq)]
pub struct Judgement {
    pub verdict: Verdict,
    pub expected: Option<Reply>,
    pub wrong: Option<Wrong>,
    pub keeper: Option<Keeper>,
}

/// The same with a path from a root to the object that has to stay, if it is asked for.
#[derive(Drop)]
pub struct Explained {
    pub judgement: Judgement,
    pub path: Option<Vec<PathStep>>,
}

// A verdict of which there is no more to say.
fn plainly(verdict: Verdict) -> Judgement
    ensures verdict { result.verdict ≡ verdict }
    ensures expected { result.expected ≡ None }
    ensures wrong { result.wrong ≡ None }
    ensures keeper { result.keeper ≡ None }
{
    Judgement {
        verdict,
        expected: None,
        wrong: None,
        keeper: None,
    }
}

// The same with no path.
fn unexplained(verdict: Verdict) -> Explained
    ensures verdict { result.judgement.verdict ≡ verdict }
    ensures expected { result.judgement.expected ≡ None }
    ensures wrong { result.judgement.wrong ≡ None }
    ensures keeper { result.judgement.keeper ≡ None }
    ensures path { result.path ≡ None }
{
    Explained {
        judgement: plainly(verdict),
        path: None,
    }
}

// A line of a run, as it is written, and its number, from 1.
#[derive(Clone, Copy)]
struct Numbered<'a> {
    number: u64,
    text: &'a str,
}

// What is wrong with the next line, if anything is.
fn judge_line(
    replayer: &mut Replayer,
    alloc: Global,
    places: Places,
    why: bool,
    line: &Numbered<'_>,
) -> Result<Option<Explained>, AllocError>
    requires begins { BeginsBy places replayer.old }
    ensures found { IfOk result (λ found. IsLineJudged places replayer.old why line.now.number line.now.text.now found replayer.new) }
    ensures begins { BeginsBy places replayer.new }
{
    let number = line.number;
    if is_comment(line.text) {
        return Ok(None);
    }
    let Some(line) = read_line(alloc, places, line.text.as_bytes())? else {
        return Ok(Some(unexplained(Verdict::Bad(number))));
    };
    let step = line.step();
    if goes_on(replayer, places, &step) {
        return Ok(None);
    }
    let rule = rule_of(places, &step.event, &step.reply, step.hint);
    let expected = other_reply(replayer, places, &step);
    let wrong = replayer.wrong_with(&step.event, step.hint);
    let keeper = keeper_of(replayer, wrong);
    let path = path_of(replayer, alloc, why, wrong)?;
    let judgement = Judgement {
        verdict: Verdict::Breaks(number, rule),
        expected,
        wrong,
        keeper,
    };
    Ok(Some(Explained { judgement, path }))
}

// A checker of a heap of so many pages, which begins where `places` says.
fn new_replayer(alloc: Global, pages: u32, places: Places) -> Result<Replayer, RunError>
    requires pages { (1 ≤ pages) × (pages ≤ MAX_PAGES) }
    requires range { HasRange places pages }
    ensures opens { IfOk result (λ replayer. Follows replayer (opening_start pages) []) }
    ensures begins { IfOk result (λ replayer. BeginsBy places replayer) }
{
    match places {
        Places::Classes => Replayer::new(alloc, pages),
        Places::Any(from) => Replayer::new_from(alloc, from, pages),
    }
}

/// Replays a written run on a heap of so many pages, whose objects may lie where `places` says, and which begins there, and says
/// what is so of its lines; and, if `why`, which path leads to an object that has to stay.
///
/// # Errors
/// [`RunError::Memory`] if memory was refused.
pub fn explain(
    alloc: Global,
    pages: u32,
    places: Places,
    text: &str,
    why: bool,
) -> Result<Explained, RunError>
    requires pages { (1 ≤ pages) × (pages ≤ MAX_PAGES) }
    requires range { HasRange places pages }
    ensures verdict { IfOk result (λ said. IsJudged places pages (lines_of text.now) said.judgement.verdict) }
    ensures expected { IfOk result (λ said. IsExplained places pages (lines_of text.now) said.judgement.verdict said.judgement.expected) }
    ensures wrong { IfOk result (λ said. IsBlamed places pages (lines_of text.now) said.judgement.verdict said.judgement.wrong said.judgement.keeper) }
    ensures path { IfOk result (λ said. IsTracedBack places pages (lines_of text.now) why said.judgement.verdict said.judgement.wrong said.path) }
{
    let mut replayer = new_replayer(alloc, pages, places)?;
    let mut number = 0u64;
    let mut told = 0u64;
    let mut rest = text;
    while !rest.is_empty() {
        let (line, behind) = first_line(rest);
        number += 1;
        told += told_by(line);
        let line = Numbered { number, text: line };
        if let Some(said) = judge_line(&mut replayer, alloc, places, why, &line)? {
            return Ok(said);
        }
        rest = behind;
    }
    if told == 0 {
        return Ok(unexplained(Verdict::NoLines));
    }
    Ok(unexplained(Verdict::Legal(told)))
}

/// Replays a written run on a heap of so many pages, whose objects lie in size classes, and says what is so of its lines.
///
/// # Errors
/// [`RunError::Memory`] if memory was refused.
pub fn judge(alloc: Global, pages: u32, text: &str) -> Result<Judgement, RunError>
    requires { (1 ≤ pages) × (pages ≤ MAX_PAGES) }
    ensures verdict { IfOk result (λ said. IsJudged Classes pages (lines_of text.now) said.verdict) }
    ensures expected { IfOk result (λ said. IsExplained Classes pages (lines_of text.now) said.verdict said.expected) }
    ensures wrong { IfOk result (λ said. IsBlamed Classes pages (lines_of text.now) said.verdict said.wrong said.keeper) }
{
    let said = explain(alloc, pages, Places::Classes, text, false)?;
    Ok(said.judgement)
}
