//! What a load, or a store, did wrong.
use crate::journal::Journal;
use crate::objects::{Birth, Place};
use crate::texts::birth_text;
use std::alloc::{AllocError, Global};
use words::limits::WORD_BYTES;

// Why a word had to be loaded: which line stored it, or that none did.
fn reason_text(
    alloc: Global,
    journal: &Journal,
    birth: &Birth,
    address: u64,
    right: u64,
) -> Result<String, AllocError> {
    match journal.last_put(Place::InObject(address)) {
        Some(put) if put.line > birth.line && put.word == right => {
            let line = put.line;
            format!(in alloc; "{right} was stored there at line {line}")
        }
        Some(put) if put.line > birth.line => format!(in alloc; "it is {right}"),
        _ => format!(in alloc; "it is {right}, since nothing was stored there yet"),
    }
}

/// The word at an address was loaded as another one: where it stands, and which line stored it.
pub(crate) fn loaded_text(
    alloc: Global,
    journal: &Journal,
    address: u64,
    told: &str,
    right: u64,
) -> Result<Option<String>, AllocError> {
    let Some(birth) = journal.birth_over(address) else {
        return Ok(None);
    };
    let object = birth_text(alloc, &birth)?;
    let index = address.wrapping_sub(birth.base) / WORD_BYTES;
    let reason = reason_text(alloc, journal, &birth, address, right)?;
    let text = format!(in alloc; "word {index} of {object} was loaded as {told}, but {reason}")?;
    Ok(Some(text))
}

/// An address where no object is was loaded from or stored to: which object was there, if one was.
pub(crate) fn dead_text(
    alloc: Global,
    journal: &Journal,
    address: u64,
    asked: &str,
) -> Result<Option<String>, AllocError> {
    let Some(birth) = journal.birth_over(address) else {
        return Ok(None);
    };
    let Some(line) = journal.gone_at(&birth) else {
        return Ok(None);
    };
    let object = birth_text(alloc, &birth)?;
    let index = address.wrapping_sub(birth.base) / WORD_BYTES;
    let text = format!(in alloc;
        "`{asked}` uses word {index} of {object}, which is gone since line {line}"
    )?;
    Ok(Some(text))
}
