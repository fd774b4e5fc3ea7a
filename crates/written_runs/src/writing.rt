//! How a line is written down: a command, its reply, and what the reply leaves open.
ghost use Rattle.std.specs.Prelude.{◌≡◌, ◌++◌, codes, IfOk, OnOk, string_bytes};
ghost use Rattle.heap_spec.specs.declared.event.Event.{Event};
ghost use Rattle.scripts.specs.Grammar.{IsLineOf};
ghost use Rattle.written_runs.specs.Written.{answer_of, bases_text, hint_text, IsAnswer, NamesWords, IsWritten};

use heap_spec::Reply;
use plain_heap::{Keeper, PathStep, Wrong};
use replayer::Hint;
use roots::Root;
use std::alloc::{AllocError, Global};

/// The text of a reply in a line: each word is its number.
pub fn reply_text(alloc: Global, reply: &Reply) -> Result<String, AllocError>
    ensures { IfOk result (λ text. string_bytes text ≡ answer_of reply.now) }
{
    match reply {
        Reply::Slot(slot) => format!(in alloc; "mutator {}", slot.number()),
        Reply::Done => format!(in alloc; "ok"),
        Reply::Word(word) => format!(in alloc; "{word}"),
        Reply::Count(count) => format!(in alloc; "{count}"),
        Reply::Refused(refusal) => format!(in alloc;
            "refused {} {}",
            refusal.code(),
            refusal.name()
        ),
    }
}

// What is wrong about an object that was forgotten or kept, in words.
fn plain_text(alloc: Global, wrong: &Wrong) -> Result<String, AllocError> {
    match wrong {
        Wrong::IsMissing(base) => format!(in alloc; "no object is at {base}"),
        Wrong::StandsTwice(base) => format!(in alloc; "{base} is named twice"),
        Wrong::HasToStay(base) => format!(in alloc; "the object at {base} has to stay"),
        Wrong::HasToGo(base) => format!(in alloc; "the object at {base} has to go"),
    }
}

// What keeps an object, in words.
fn keeper_text(alloc: Global, keeper: &Keeper) -> Result<String, AllocError> {
    match keeper {
        Keeper::ByRoot(Root::Register(slot, reg)) => {
            format!(in alloc; "register {reg} of mutator {slot}")
        }
        Keeper::ByRoot(Root::Stack(slot, index)) => {
            format!(in alloc; "word {index} on the stack of mutator {slot}")
        }
        Keeper::ByRoot(Root::Global(index)) => format!(in alloc; "global {index}"),
        Keeper::ByWord(base, index) => { format!(in alloc; "word {index} of the object at {base}") }
    }
}

/// What is wrong about an object that was forgotten or kept, in words, with what keeps it, if that is told.
pub fn wrong_text(
    alloc: Global,
    wrong: &Wrong,
    keeper: Option<Keeper>,
) -> Result<String, AllocError> {
    let said = plain_text(alloc, wrong)?;
    let Some(keeper) = keeper else {
        return Ok(said);
    };
    let kept = keeper_text(alloc, &keeper)?;
    format!(in alloc; "{said}: {kept} points into it")
}

/// A step of a path from a root to an object, in words.
pub fn step_text(alloc: Global, step: &PathStep) -> Result<String, AllocError> {
    let keeper = keeper_text(alloc, &step.keeper)?;
    let base = step.base;
    format!(in alloc; "{keeper} points into the object at {base}")
}

// Puts bases behind a text, each behind a space.
fn put_bases(text: &mut String, alloc: Global, bases: &[u64]) -> Result<(), AllocError>
    ensures { OnOk result (string_bytes text.new ≡ string_bytes text.old ++ bases_text bases.now) }
{
    for base in bases {
        let word = format!(in alloc; " {base}")?;
        text.push_str(word.as_str())?;
    }
    Ok(())
}

// Puts what a reply leaves open behind a text.
fn put_hint(text: &mut String, alloc: Global, hint: Hint) -> Result<(), AllocError>
    ensures { OnOk result (string_bytes text.new ≡ string_bytes text.old ++ hint_text hint.entry) }
{
    match hint {
        Hint::Nothing => Ok(()),
        Hint::Place(base) => {
            let place = format!(in alloc; " @ {base}")?;
            text.push_str(place.as_str())
        }
        Hint::Forgot(bases) => {
            text.push_str(" -")?;
            put_bases(text, alloc, bases)
        }
    }
}

/// The line of a command that a script has on this line, of its reply, and of what that leaves open.
pub fn line_text(
    alloc: Global,
    command: &str,
    reply: &Reply,
    hint: Hint,
) -> Result<String, AllocError>
    ensures text { IfOk result (λ line. string_bytes line
        ≡ command.now ++ (codes " => " ++ (answer_of reply.now ++ hint_text hint.entry))) }
    ensures written { IfOk result (λ line. (event : Event) → IsLineOf command.now event → IsAnswer event reply.now
        → NamesWords hint.entry → IsWritten (string_bytes line) event reply.now hint.entry) }
{
    let answer = reply_text(alloc, reply)?;
    let mut line = format!(in alloc; "{command} => {answer}")?;
    put_hint(&mut line, alloc, hint)?;
    Ok(line)
}
