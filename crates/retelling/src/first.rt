//! The first sentence on a line that isn't legal.
use crate::journal::{Journal, line_at, placed};
use crate::loads::{dead_text, loaded_text};
use crate::objects::Birth;
use crate::requests::placed_text;
use crate::texts::{address_text, birth_text, keeper_text, object_text};
use heap_spec::{Call, Event, Reply};
use plain_heap::{Keeper, Wrong};
use std::alloc::{AllocError, Global};
use words::{Refusal, Slot};
use written_runs::{Behind, Judgement, Line, read_line, reply_text};

// A line that breaks the run: what it asks, what it was answered, the same as texts, and what it had to be answered, if that is told.
#[derive(Drop)]
struct Broken<'a> {
    line: &'a Line<'a>,
    asked: &'a str,
    told: &'a str,
    expected: Option<Reply>,
}

// An object was taken that has to stay.
fn taken_text(
    alloc: Global,
    journal: &Journal,
    base: u64,
    keeper: Option<Keeper>,
) -> Result<String, AllocError> {
    let object = object_text(alloc, journal, base)?;
    let Some(keeper) = keeper else {
        return format!(in alloc; "{object} was taken, but it has to stay");
    };
    let kept = keeper_text(alloc, keeper)?;
    format!(in alloc; "{object} was taken, but {kept} points into it")
}

// What isn't there was taken.
fn missing_text(alloc: Global, journal: &Journal, base: u64) -> Result<String, AllocError> {
    let place = address_text(alloc, base)?;
    let Some(birth) = journal.birth_at(base) else {
        return format!(in alloc;
            "an object at {place} was taken, but none was ever allocated there"
        );
    };
    let object = birth_text(alloc, &birth)?;
    match journal.gone_at(&birth) {
        Some(line) => format!(in alloc; "{object} was taken, but it is gone since line {line}"),
        None => format!(in alloc; "{object} was taken, but it is gone already"),
    }
}

// An object was kept that has to go.
fn kept_text(
    alloc: Global,
    journal: &Journal,
    base: u64,
    asked: &str,
) -> Result<String, AllocError> {
    let object = object_text(alloc, journal, base)?;
    if asked == "gc collect" {
        return format!(in alloc; "{object} was kept, but no root leads to it");
    }
    format!(in alloc; "{object} was kept, but no root has led to it since the cycle began")
}

// What is wrong about an object that was taken or kept.
fn object_wrong_text(
    alloc: Global,
    journal: &Journal,
    wrong: &Wrong,
    keeper: Option<Keeper>,
    asked: &str,
) -> Result<String, AllocError> {
    match *wrong {
        Wrong::HasToStay(base) => taken_text(alloc, journal, base, keeper),
        Wrong::HasToGo(base) => kept_text(alloc, journal, base, asked),
        Wrong::IsMissing(base) => missing_text(alloc, journal, base),
        Wrong::StandsTwice(base) => {
            let object = object_text(alloc, journal, base)?;
            format!(in alloc; "{object} was taken twice")
        }
    }
}

// A reply that is wrong, where just one is right or more are.
fn reply_wrong_text(alloc: Global, broken: &Broken) -> Result<String, AllocError> {
    let (asked, told) = (broken.asked, broken.told);
    let Some(reply) = broken.expected else {
        return format!(in alloc; "`{asked}` may not be answered `{told}`");
    };
    let right = reply_text(alloc, &reply)?;
    format!(in alloc; "`{asked}` was answered `{told}`, and only `{right}` is right")
}

// A collection that names other objects than it counts, or a reply that is wrong.
fn count_text(alloc: Global, broken: &Broken) -> Result<String, AllocError> {
    let bases = match &broken.line.behind {
        Behind::Bases(bases) if broken.expected.is_none() => bases,
        _ => return reply_wrong_text(alloc, broken),
    };
    let (asked, told, named) = (broken.asked, broken.told, bases.len());
    format!(in alloc; "`{asked}` took {told} objects, and names {named}")
}

// What is said of a load or a store at an address.
fn access_text(
    alloc: Global,
    journal: &Journal,
    address: u64,
    broken: &Broken,
) -> Result<Option<String>, AllocError> {
    match broken.expected {
        Some(Reply::Word(right)) => loaded_text(alloc, journal, address, broken.told, right),
        Some(Reply::Refused(Refusal::NoObject)) => dead_text(alloc, journal, address, broken.asked),
        _ => Ok(None),
    }
}

// What is said of a request for so many words that was refused or granted.
fn request_text(
    alloc: Global,
    journal: &Journal,
    slot: Slot,
    wanted: u64,
    broken: &Broken,
) -> Result<Option<String>, AllocError> {
    let asked = broken.asked;
    if let Reply::Refused(_) = broken.line.reply {
        if broken.expected != Some(Reply::Done) {
            return Ok(None);
        }
        let text = format!(in alloc; "`{asked}` was refused, but there is room for it")?;
        return Ok(Some(text));
    }
    let Some((base, words)) = placed(&broken.line.behind, wanted) else {
        return Ok(None);
    };
    if !journal.is_attached(slot) {
        let number = slot.number();
        let text = format!(in alloc; "`{asked}` was granted, but there is no mutator {number}")?;
        return Ok(Some(text));
    }
    let new = Birth {
        base,
        words,
        line: 0,
    };
    let text = placed_text(alloc, journal, wanted, &new)?;
    Ok(Some(text))
}

// What is said of an event, where more can be said than of its reply.
fn event_text(
    alloc: Global,
    journal: &Journal,
    broken: &Broken,
) -> Result<Option<String>, AllocError> {
    let Event::Mutator(slot, call) = broken.line.event else {
        return Ok(None);
    };
    match call {
        Call::Load(_, at, offset) | Call::Store(at, offset, _) => {
            let address = journal.address(slot, at, offset);
            access_text(alloc, journal, address, broken)
        }
        Call::Alloc(_, wanted, _) => request_text(alloc, journal, slot, wanted, broken),
        _ => Ok(None),
    }
}

// What is said of a line that breaks the run.
fn broken_text(
    alloc: Global,
    journal: &Journal,
    line: &Line,
    judgement: &Judgement,
) -> Result<String, AllocError> {
    let Ok(asked) = str::from_utf8(line.command) else {
        return format!(in alloc; "the line may not stand here");
    };
    if let Some(wrong) = judgement.wrong {
        return object_wrong_text(alloc, journal, &wrong, judgement.keeper, asked);
    }
    let told = reply_text(alloc, &line.reply)?;
    let broken = Broken {
        line,
        asked,
        told: told.as_str(),
        expected: judgement.expected,
    };
    match event_text(alloc, journal, &broken)? {
        Some(said) => Ok(said),
        None => count_text(alloc, &broken),
    }
}

/// What the line of this number did, which the checker says breaks the run, in one sentence. The journal is of the lines before it.
///
/// # Errors
/// [`AllocError`] if memory was refused.
pub fn first_text(
    alloc: Global,
    journal: &Journal,
    text: &str,
    number: u64,
    judgement: &Judgement,
) -> Result<String, AllocError> {
    let Some(line) = line_at(text, number) else {
        return format!(in alloc; "the line may not stand here");
    };
    match read_line(alloc, journal.range.places, line.as_bytes())? {
        Some(line) => broken_text(alloc, journal, &line, judgement),
        None => format!(in alloc; "the line may not stand here"),
    }
}
