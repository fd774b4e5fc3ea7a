//! How many threads help the one that ends the marking, and where they start.
ghost use Rattle.std.specs.Prelude.{◌≡◌, ◌<◌, ◌≤◌, ◌⊎◌, MatchOption};
ghost use Rattle.words.specs.declared.limits.TheConstants.{MAX_HELPERS};

use std::marker::Model;
use words::limits::MAX_HELPERS;

// How many words the pages in use have at least where helpers pay: to mark that much alone takes some times as long as to
// start a thread.
const LEAST_WORDS: u64 = 65_536;

/// The helpers of a pause, from 1 to [`MAX_HELPERS`], and how many words the heap's pages in use have at least where they
/// start. With 0 they start at once. Else the calling thread marks alone over fewer, and over more until it has read a
/// quarter as many.
#[derive(Clone, Copy, Debug, PartialEq, Eq)]
pub struct Helpers {
    number: u8,
    least_words: u64,
}

impl Model for Helpers {
    ghost use Rattle.std.specs.Prelude.{◌<◌, ◌≤◌};
    ghost use Rattle.words.specs.declared.limits.TheConstants.{MAX_HELPERS};
    ghost use Rattle.final_pause.specs.Crews.{Crew};

    ghost Value = { Crew };

    ghost view = { λ h. record { number = h.number; least_words = h.least_words } };

    ghost invariant = { λ h. (0 < h.number) × (h.number ≤ MAX_HELPERS) };

    ghost inverse = { λ c. record { number = c.number; least_words = c.least_words } };
}

impl Helpers {
    /// So many helpers, which start at once, and `None` exactly out of range.
    pub fn new(number: u8) -> Option<Helpers>
        ensures { MatchOption result ((number ≡ 0) ⊎ (MAX_HELPERS < number)) (λ helpers. (helpers.number ≡ number) × (helpers.least_words ≡ 0) × (0 < number) × (number ≤ MAX_HELPERS)) }
    {
        if number == 0 || number > MAX_HELPERS {
            None
        } else {
            Some(Helpers {
                number,
                least_words: 0,
            })
        }
    }

    /// As many, which start where there is so much to do that they take less time than the calling thread alone.
    pub fn where_it_pays(self) -> Helpers
        ensures number { result.number ≡ self.number }
        ensures least { 0 < result.least_words }
    {
        Helpers {
            number: self.number,
            least_words: LEAST_WORDS,
        }
    }

    /// How many they are.
    pub fn number(self) -> u8
        ensures value { result ≡ self.number }
        ensures some { 0 < result }
        ensures few { result ≤ MAX_HELPERS }
    {
        self.number
    }

    /// How many words the heap's pages in use have at least where they start, and 0 if they start at once.
    pub fn least_words(self) -> u64
        ensures { result ≡ self.least_words }
    {
        self.least_words
    }
}
