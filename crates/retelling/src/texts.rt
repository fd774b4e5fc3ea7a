//! Objects, places and replies in words.
use crate::journal::Journal;
use crate::objects::{Birth, Place};
use plain_heap::{Keeper, PathStep};
use roots::Root;
use std::alloc::{AllocError, Global};

/// An address as a run has it, and as a debugger shows it.
pub(crate) fn address_text(alloc: Global, address: u64) -> Result<String, AllocError> {
    format!(in alloc; "{address} (0x{address:x})")
}

/// An object, by its birth.
pub(crate) fn birth_text(alloc: Global, birth: &Birth) -> Result<String, AllocError> {
    let Birth { base, words, line } = *birth;
    format!(in alloc; "object {base} (0x{base:x}, allocated at line {line}, {words} words)")
}

/// The object that began last at an address.
pub(crate) fn object_text(
    alloc: Global,
    journal: &Journal,
    base: u64,
) -> Result<String, AllocError> {
    match journal.birth_at(base) {
        Some(birth) => birth_text(alloc, &birth),
        None => format!(in alloc; "object {base} (0x{base:x})"),
    }
}

/// What keeps an object.
pub(crate) fn keeper_text(alloc: Global, keeper: Keeper) -> Result<String, AllocError> {
    match keeper {
        Keeper::ByRoot(Root::Register(slot, reg)) => {
            format!(in alloc; "register {reg} of mutator {slot}")
        }
        Keeper::ByRoot(Root::Stack(slot, index)) => {
            format!(in alloc; "word {index} on the stack of mutator {slot}")
        }
        Keeper::ByRoot(Root::Global(index)) => format!(in alloc; "global {index}"),
        Keeper::ByWord(base, index) => format!(in alloc; "word {index} of object {base}"),
    }
}

// Where that stands.
fn place_of(keeper: Keeper) -> Place {
    match keeper {
        Keeper::ByRoot(root) => Place::InRoot(root),
        Keeper::ByWord(base, index) => Place::InObject(Journal::word_address(base, index as u64)),
    }
}

/// A step of a path: what points into which object, and since which line.
///
/// # Errors
/// [`AllocError`] if memory was refused.
pub fn hop_text(alloc: Global, journal: &Journal, step: &PathStep) -> Result<String, AllocError> {
    let keeper = keeper_text(alloc, step.keeper)?;
    let object = object_text(alloc, journal, step.base)?;
    match journal.last_put(place_of(step.keeper)) {
        Some(put) => {
            let line = put.line;
            format!(in alloc; "{keeper} points into {object} since line {line}")
        }
        None => format!(in alloc; "{keeper} points into {object}"),
    }
}
