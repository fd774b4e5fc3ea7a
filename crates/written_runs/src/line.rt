//! A line of a written run: a command, ` => `, its reply, and where the reply leaves something open a hint.
ghost use Rattle.std.specs.Prelude.{ℕ, List, IfOk, MatchOption};
ghost use Rattle.written_runs.specs.declared.places.Places.{Places as PlacesValue};
ghost use Rattle.written_runs.specs.Reading.{IsParted, IsRead};
ghost use Rattle.written_runs.specs.Steps.{IsStepLine, IsUnwritten};

use crate::behind::{Behind, behind_of};
use crate::cut::{cut, past};
use crate::places::Places;
use crate::reply::reply_at;
use crate::step::Step;
use heap_spec::{Event, Reply};
use scripts::command;
use scripts::limits::LINE_BYTES;
use std::alloc::{AllocError, Global};

/// A line that was read.
#[derive(Debug, Drop)]
pub struct Line<'a> {
    /// What was asked, as the line says it.
    pub command: &'a [u8],

    /// What was asked.
    pub event: Event,

    /// What was answered.
    pub reply: Reply,

    /// What stands behind the reply.
    pub behind: Behind,
}

impl<'a> Line<'a> {
    /// The step that it is written of.
    pub(crate) fn step(&self) -> Step<'_>
        ensures { (places : PlacesValue) (line : List ℕ) → IsRead places line self.now → IsStepLine places line result }
    {
        let (hint, words) = self.behind.hint();
        Step {
            event: self.event,
            reply: self.reply,
            hint,
            words,
        }
    }
}

// The command of a line, and what stands behind ` => `. No command has a `=`.
fn parted(line: &[u8]) -> Option<(&[u8], &[u8])>
    ensures { MatchOption result ((text answer : List ℕ) → IsParted line.now text answer → ⊥)
        (λ parts. IsParted line.now parts.0.now parts.1.now) }
{
    let (front, rest) = cut(line, b'=');
    let answer = past(rest, "=> ")?;
    let (space, text) = front.split_last()?;
    if *space != b' ' {
        return None;
    }
    Some((text, answer))
}

/// Reads a line of a run whose objects may lie where `places` says, and gives `None` exactly if it is written of nothing.
///
/// # Errors
/// [`AllocError`] if memory was refused.
pub fn read_line<'a>(
    alloc: Global,
    places: Places,
    line: &'a [u8],
) -> Result<Option<Line<'a>>, AllocError>
    ensures { IfOk result (λ found. MatchOption found (IsUnwritten places line.now) (λ l. IsRead places line.now l)) }
{
    let Some((text, answer)) = parted(line) else {
        return Ok(None);
    };
    if text.len() > LINE_BYTES {
        return Ok(None);
    }
    let Some(event) = command(text) else {
        return Ok(None);
    };
    let Some((reply, rest)) = reply_at(&event, answer) else {
        return Ok(None);
    };
    let Some(behind) = behind_of(alloc, places, rest)? else {
        return Ok(None);
    };
    Ok(Some(Line {
        command: text,
        event,
        reply,
        behind,
    }))
}
