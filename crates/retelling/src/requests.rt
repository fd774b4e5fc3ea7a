//! Why an object may not lie where a granted request placed it.
use crate::journal::Journal;
use crate::objects::Birth;
use crate::texts::{address_text, birth_text};
use std::alloc::{AllocError, Global};
use words::limits::WORD_BYTES;

/// What is said of a request for so many words that was granted by an object, if one of these reasons is seen.
pub(crate) fn placed_text(
    alloc: Global,
    journal: &Journal,
    asked: u64,
    new: &Birth,
) -> Result<String, AllocError> {
    let words = new.words;
    let place = address_text(alloc, new.base)?;
    if words < asked {
        return format!(in alloc;
            "the new object at {place} has {words} words, and {asked} were asked for"
        );
    }
    if let Some(other) = journal.in_the_way_of(new) {
        let object = birth_text(alloc, &other)?;
        return format!(in alloc; "the new object at {place} of {words} words overlaps {object}");
    }
    if new.base % WORD_BYTES != 0 {
        return format!(in alloc;
            "the new object lies at {place}, which is no multiple of {WORD_BYTES}"
        );
    }
    let range = journal.range;
    if !range.holds(new) {
        let (from, bytes) = (range.from(), range.bytes());
        return format!(in alloc;
            "the new object at {place} of {words} words lies outside of the heap, which has {bytes} bytes from {from} on"
        );
    }
    format!(in alloc; "the new object of {words} words may not lie at {place}")
}
