//! What a journal knows of an object or a place.
use crate::journal::Journal;
use crate::objects::{Birth, Place, Put};
use words::limits::WORD_BYTES;

impl Journal {
    /// The last object that began at an address.
    pub(crate) fn birth_at(&self, base: u64) -> Option<Birth> {
        let mut found = None;
        for birth in &self.births {
            if birth.base == base {
                found = Some(*birth);
            }
        }
        found
    }

    /// The last object that had a byte with this address. Where an object has it now, it is that one.
    pub(crate) fn birth_over(&self, address: u64) -> Option<Birth> {
        let mut found = None;
        for birth in &self.births {
            if birth.has(address) {
                found = Some(*birth);
            }
        }
        found
    }

    /// The line that took the object, if one says so.
    pub(crate) fn gone_at(&self, birth: &Birth) -> Option<u64> {
        for leave in &self.leaves {
            if leave.base == birth.base && leave.line > birth.line {
                return Some(leave.line);
            }
        }
        None
    }

    // Whether an object is there for sure: no line took it.
    fn stands(&self, birth: &Birth) -> bool {
        birth.line > self.unnamed && self.gone_at(birth).is_none()
    }

    /// An object that is there and shares a byte with a new one.
    pub(crate) fn in_the_way_of(&self, new: &Birth) -> Option<Birth> {
        for birth in &self.births {
            if birth.overlaps(new) && self.stands(birth) {
                return Some(*birth);
            }
        }
        None
    }

    /// What was put into a place last.
    pub(crate) fn last_put(&self, place: Place) -> Option<Put> {
        let mut found = None;
        for put in &self.puts {
            if put.place == place {
                found = Some(*put);
            }
        }
        found
    }

    /// The address of a word of an object.
    pub(crate) fn word_address(base: u64, index: u64) -> u64 {
        base.wrapping_add(index.wrapping_mul(WORD_BYTES))
    }
}
