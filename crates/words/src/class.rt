//! Size classes, kinds, and where a request goes.
ghost use Rattle.std.specs.Prelude.{◌≡◌, ℕ, ◌≤◌, ◌*◌, ◌/◌, Some, find, nat_le, slice_get};
ghost use Rattle.words.specs.declared.class.TheConstants.{CLASSES};
ghost use Rattle.words.specs.declared.limits.TheConstants.{MAX_REQUEST_WORDS, MAX_SMALL_WORDS, MOST_REQUEST_WORDS, PAGE_WORDS};
ghost use Rattle.words.specs.Classes.{IsSizeClass};
ghost use Rattle.words.specs.Placing.{placement_of};

use crate::limits::{GRANULE_WORDS, MAX_REQUEST_WORDS, MAX_SMALL_WORDS, PAGE_WORDS};
use std::marker::Model;

/// The words of each size class, from the least.
pub const CLASSES: [u16; 13] = [2, 4, 6, 8, 12, 16, 24, 32, 48, 64, 96, 128, 256];

// How many cells of each class a page has.
const CELLS: [u16; 13] = [256, 128, 85, 64, 42, 32, 21, 16, 10, 8, 5, 4, 2];

// The place among the classes of the least one that holds so many granules.
const INDEX_OF_GRANULES: [u8; 129] = [
    0, 0, 1, 2, 3, 4, 4, 5, 5, 6, 6, 6, 6, 7, 7, 7, 7, 8, 8, 8, 8, 8, 8, 8, 8, 9, 9, 9, 9, 9, 9, 9,
    9, 10, 10, 10, 10, 10, 10, 10, 10, 10, 10, 10, 10, 10, 10, 10, 10, 11, 11, 11, 11, 11, 11, 11,
    11, 11, 11, 11, 11, 11, 11, 11, 11, 12, 12, 12, 12, 12, 12, 12, 12, 12, 12, 12, 12, 12, 12, 12,
    12, 12, 12, 12, 12, 12, 12, 12, 12, 12, 12, 12, 12, 12, 12, 12, 12, 12, 12, 12, 12, 12, 12, 12,
    12, 12, 12, 12, 12, 12, 12, 12, 12, 12, 12, 12, 12, 12, 12, 12, 12, 12, 12, 12, 12, 12, 12, 12,
    12,
];

/// Whether the collector reads an object's words.
#[derive(Clone, Copy, Debug, PartialEq, Eq)]
pub enum Kind {
    /// Its words are read.
    Normal,

    /// Its words are not read.
    PointerFree,
}

/// A size class: one of [`CLASSES`] and no other value. Contracts see it as the words of its objects.
#[derive(Clone, Copy, Debug, PartialEq, Eq)]
pub struct Class {
    words: u16,
    number: u8,
}

impl Model for Class {
    ghost use Rattle.std.specs.Prelude.{◌≡◌, ℕ};
    ghost use Rattle.std.proofs.Common.{ap, sym};
    ghost use Rattle.words.specs.Classes.{IsSizeClass, number_of};

    ghost Value = { ℕ };

    ghost view = { λ c. c.words };

    ghost invariant = { λ c. IsSizeClass c.words × (c.number ≡ number_of c.words) };

    ghost inverse = { λ n. record { words = n; number = number_of n } };

    ghost inverse_ok = { λ c h. ap (λ n. record { words = c.words; number = n }) (sym h.1) };
}

impl Class {
    /// The words of an object of this class.
    pub fn words(self) -> u16
        ensures value { result ≡ self }
        ensures listed { IsSizeClass result }
    {
        self.words
    }

    /// Its place among [`CLASSES`]. It is kept, so that no table is looked at.
    #[inline]
    pub fn index(self) -> usize
        ensures { slice_get CLASSES result ≡ Some self }
    {
        usize::from(self.number)
    }

    /// How many cells a page has that is cut for this class. They are looked up, since a division is slow.
    #[inline]
    pub fn cells(self) -> u16
        ensures value { result ≡ PAGE_WORDS / self }
        ensures fits { result * self ≤ PAGE_WORDS }
    {
        CELLS[usize::from(self.number)]
    }
}

/// Where a request goes.
#[derive(Clone, Copy, Debug, PartialEq, Eq)]
pub enum Placement {
    /// Into a cell of a page that is cut for this class.
    Small(Class),

    /// Onto so many pages of its own.
    Large(u32),
}

/// Where a request of so many words goes in a heap of scripts: into a cell of the least size class that holds them, and past
/// the largest class onto pages of its own. It is named for the class, but answers a placement. `None` exactly for a request
/// of no words or of more than [`MAX_REQUEST_WORDS`].
pub fn class_of(words: u64) -> Option<Placement>
    ensures { result ≡ placement_of MAX_REQUEST_WORDS words }
{
    class_within(MAX_REQUEST_WORDS, words)
}

/// The same in a heap with a limit of its own, in words.
pub fn class_within(limit: u64, words: u64) -> Option<Placement>
    requires { limit ≤ MOST_REQUEST_WORDS }
    ensures { result ≡ placement_of limit words }
{
    if words == 0 || words > limit {
        return None;
    }
    if words > MAX_SMALL_WORDS {
        return Some(Placement::Large(words.div_ceil(PAGE_WORDS) as u32));
    }
    Some(Placement::Small(class_for(words)))
}

// The least class that holds so many words.
fn class_for(words: u64) -> Class
    requires { words ≤ MAX_SMALL_WORDS }
    ensures { find (λ c. nat_le words c) CLASSES ≡ Some result }
{
    let number = INDEX_OF_GRANULES[words.div_ceil(GRANULE_WORDS) as usize];
    Class {
        words: CLASSES[usize::from(number)],
        number,
    }
}
