//! Objects, by the lines that brought them, and places of words, by the lines that put these there.
use roots::Root;
use words::limits::{FIRST_ADDRESS, PAGE_BYTES, WORD_BYTES};
use written_runs::Places;

/// An object that a line brought.
#[derive(Clone, Copy, Debug)]
pub(crate) struct Birth {
    /// Where it begins.
    pub(crate) base: u64,

    /// How many words it has, as its line tells, or else were asked for.
    pub(crate) words: u64,

    /// The number of its line.
    pub(crate) line: u64,
}

impl Birth {
    // The address behind its last byte.
    fn end(&self) -> u128 {
        u128::from(self.base) + u128::from(WORD_BYTES) * u128::from(self.words)
    }

    /// Whether an address is that of one of its bytes.
    pub(crate) fn has(&self, address: u64) -> bool {
        self.base <= address && u128::from(address) < self.end()
    }

    /// Whether it shares a byte with another one.
    pub(crate) fn overlaps(&self, other: &Birth) -> bool {
        u128::from(self.base) < other.end() && u128::from(other.base) < self.end()
    }
}

/// Where a heap lies.
#[derive(Clone, Copy, Debug)]
pub struct Range {
    /// Where its objects may lie.
    pub places: Places,

    /// How many pages it has.
    pub pages: u32,
}

impl Range {
    /// The address of its first byte.
    pub(crate) fn from(&self) -> u64 {
        match self.places {
            Places::Classes => FIRST_ADDRESS,
            Places::Any(from) => from,
        }
    }

    /// How many bytes it has.
    pub(crate) fn bytes(&self) -> u64 {
        PAGE_BYTES * u64::from(self.pages)
    }

    /// Whether all bytes of an object lie in it.
    pub(crate) fn holds(&self, birth: &Birth) -> bool {
        self.from() <= birth.base
            && birth.end() <= u128::from(self.from()) + u128::from(self.bytes())
    }
}

/// An object that a line says is gone.
#[derive(Clone, Copy, Debug)]
pub(crate) struct Leave {
    pub(crate) base: u64,
    pub(crate) line: u64,
}

/// Where a word stands.
#[derive(Clone, Copy, Debug, PartialEq, Eq)]
pub(crate) enum Place {
    /// In a root.
    InRoot(Root),

    /// In an object, at this address.
    InObject(u64),
}

/// A word that a line put somewhere.
#[derive(Clone, Copy, Debug)]
pub(crate) struct Put {
    pub(crate) place: Place,
    pub(crate) word: u64,
    pub(crate) line: u64,
}
