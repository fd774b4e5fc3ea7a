//! What the reply to an event leaves open, which a core is asked by calls that are no events.
use crate::journal::Note;
use heap_core::Core;
use heap_spec::{Call, Event, Reply};
use kept_bases::sort_out;
use std::alloc::{AllocError, Global};
use words::{Reg, Slot};

// Where the object of a granted request is, whose base is known from then on.
fn place(core: &Core, bases: &mut Vec<u64>, slot: Slot, into: Reg) -> Result<Note, AllocError> {
    let Ok(base) = core.get(slot, into) else {
        return Ok(Note::Nothing);
    };
    bases.push(base)?;
    Ok(Note::Place(base))
}

// Which of the objects whose bases are known the core no longer keeps.
fn gone(alloc: Global, core: &Core, bases: &mut Vec<u64>) -> Result<Vec<u64>, AllocError> {
    let mut gone = Vec::new(alloc);
    sort_out(alloc, core, bases, &mut gone)?;
    Ok(gone)
}

// Of a granted call of a mutator.
fn note_of_call(
    alloc: Global,
    core: &Core,
    bases: &mut Vec<u64>,
    slot: Slot,
    call: &Call,
) -> Result<Note, AllocError> {
    match call {
        Call::Alloc(into, _, _) => place(core, bases, slot, *into),
        Call::Free(_) => {
            let _freed = gone(alloc, core, bases)?;
            Ok(Note::Nothing)
        }
        _ => Ok(Note::Nothing),
    }
}

// Of a granted event.
fn note_of_event(
    alloc: Global,
    core: &Core,
    bases: &mut Vec<u64>,
    call: &Event,
) -> Result<Note, AllocError> {
    match call {
        Event::Mutator(slot, call) => note_of_call(alloc, core, bases, *slot, call),
        Event::Finish | Event::Collect => {
            let bases = gone(alloc, core, bases)?;
            Ok(Note::Gone(bases))
        }
        _ => Ok(Note::Nothing),
    }
}

/// What the reply to an event leaves open, of the core that the event left, and of the bases of the objects that were born before:
/// afterwards they are those of the objects that are left.
///
/// # Errors
/// If memory is refused.
pub(crate) fn note_of(
    alloc: Global,
    core: &Core,
    bases: &mut Vec<u64>,
    call: &Event,
    reply: &Reply,
) -> Result<Note, AllocError> {
    let Reply::Refused(_) = *reply else {
        return note_of_event(alloc, core, bases, call);
    };
    Ok(Note::Nothing)
}
