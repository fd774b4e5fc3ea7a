//! The granules of a page: a row of bits that lies in the value itself, seen as the list of its bits.
ghost use Rattle.std.specs.Prelude.{◌≡◌, ℕ, ◌+◌, ◌/◌, ◌%◌, ◌<◌, ◌≤◌, ◌==◌, true, false, length, slice_index_or, slice_set, MatchOption, MatchBool};
ghost use Rattle.std.specs.Int.{bit_at};
ghost use Rattle.words.specs.declared.limits.TheConstants.{PAGE_GRANULES};
ghost use Rattle.words.specs.Bits.{members, Has, IsClear, IsEmptyFrom, IsFirstFrom};

use crate::bit_row::BitRow;
use crate::count::ones_of;
use crate::limits::PAGE_GRANULES;
use crate::scan::first_from;
use std::marker::Model;

/// A row of a bit for each granule of a page, each at first clear, which takes no memory of its own.
#[derive(Drop)]
pub struct GranuleRow {
    words: [u64; 4],
}

impl Model for GranuleRow {
    ghost use Rattle.std.specs.Prelude.{List, Bool};
    ghost use Rattle.words.specs.Bits.{bits};
    ghost use Rattle.words.specs.declared.limits.TheConstants.{PAGE_GRANULES};

    ghost Value = { List Bool };

    ghost view = { λ s. bits s.words PAGE_GRANULES };
}

#[tactic(auto, using(crate::proofs::Rows::rows))]
impl GranuleRow {
    /// A clear row.
    pub fn new() -> GranuleRow
        ensures { IsClear result PAGE_GRANULES }
    {
        GranuleRow { words: [0; 4] }
    }

    /// Whether a bit is set.
    #[inline]
    pub fn is_set(&self, i: u16) -> bool
        requires { i < PAGE_GRANULES }
        ensures { result ≡ slice_index_or self.now i false }
    {
        (self.words[i as usize / 64] >> (i as usize % 64)) & 1 == 1
    }

    /// Sets a bit.
    #[inline]
    pub fn set(&mut self, i: u16)
        requires { i < PAGE_GRANULES }
        ensures { self.new ≡ slice_set self.old i true }
    {
        let word = self.words[i as usize / 64];
        self.words[i as usize / 64] = word | (1 << (i as usize % 64));
    }

    /// Clears a bit.
    #[inline]
    pub fn clear(&mut self, i: u16)
        requires { i < PAGE_GRANULES }
        ensures { self.new ≡ slice_set self.old i false }
    {
        let word = self.words[i as usize / 64];
        self.words[i as usize / 64] = word & !(1 << (i as usize % 64));
    }

    /// The bits of the 64 granules from 64 j on, the lowest first.
    #[inline]
    pub fn word(&self, j: usize) -> u64
        requires { j < 4 }
        ensures { (k : ℕ) → k / 64 ≡ j → slice_index_or self.now k false ≡ (bit_at result (k % 64) == 1) }
    {
        self.words[j]
    }

    /// Keeps of its members those of another row, of which it reads as many bits from one on that is the first of a word.
    #[inline]
    pub fn keep(&mut self, other: &BitRow, first: usize)
        requires whole { first % 64 ≡ 0 }
        requires inside { first + PAGE_GRANULES ≤ length other.now }
        ensures size { length self.new ≡ length self.old }
        ensures kept { (k : ℕ) → Has other.now (first + k) → slice_index_or self.new k false ≡ slice_index_or self.old k false }
        ensures gone { (k : ℕ) → slice_index_or other.now (first + k) false ≡ false → slice_index_or self.new k false ≡ false }
    {
        let words = other.as_words();
        let j = first / 64;
        self.words = [
            self.words[0] & words[j],
            self.words[1] & words[j + 1],
            self.words[2] & words[j + 2],
            self.words[3] & words[j + 3],
        ];
    }

    /// How many members it has.
    pub fn count(&self) -> u32
        ensures { result ≡ members self.now }
    {
        ones_of(&self.words, 0, PAGE_GRANULES as usize)
    }

    /// Whether no bit is set.
    #[tactic(auto, using(crate::proofs::Scans::of_row))]
    pub fn is_empty(&self) -> bool
        ensures { MatchBool result (IsEmptyFrom self.now 0) ((i : ℕ) × IsFirstFrom self.now 0 i) }
    {
        first_from(&self.words, true, 0) >= PAGE_GRANULES as usize
    }

    /// The lowest member from `low` on.
    #[tactic(auto, using(crate::proofs::Scans::of_row))]
    pub fn next(&self, low: usize) -> Option<u16>
        ensures { MatchOption result (IsEmptyFrom self.now low) (λ i. IsFirstFrom self.now low i) }
    {
        let words = &self.words;
        if low >= PAGE_GRANULES as usize {
            return None;
        }
        let member = first_from(words, true, low);
        if member < PAGE_GRANULES as usize {
            Some(member as u16)
        } else {
            None
        }
    }
}
