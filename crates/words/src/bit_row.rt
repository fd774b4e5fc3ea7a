//! A row of bits, seen as the list of its bits. Its members are the places of the bits that are set.
ghost use Rattle.std.specs.Prelude.{◌≡◌, ◌≢◌, ◌%◌, ◌==◌, ◌+◌, ◌/◌, ◌^◌, ◌<◌, ◌≤◌};
ghost use Rattle.std.specs.Prelude.{ℕ, Bool, true, false, List, length, slice_index, slice_index_or, slice_set, vec_len, EachIndex, IfOk, MatchOption};
ghost use Rattle.std.specs.Int.{bit_at};
ghost use Rattle.words.specs.Bits.{bits, members_between, IsEmptyFrom, IsFirstFrom, IsClear, IsFullFrom, IsFirstClearFrom, IsZeroBelow};

use crate::count::ones_of;
use crate::scan::first_from;
use std::alloc::{AllocError, Global};
use std::marker::Model;

/// A row of bits, each at first clear, whose length never changes.
#[derive(Drop)]
pub struct BitRow {
    words: Vec<u64>,
    len: usize,
}

impl Model for BitRow {
    ghost Value = { List Bool };

    ghost view = { λ s. bits s.words.items s.len };

    ghost invariant = { λ s. (vec_len s.words ≡ s.len / 64 + 1) × (s.len < 2 ^ 32) };
}

// Makes all words 0.
#[inline]
fn clear_words(words: &mut [u64])
    ensures { EachIndex words.new (λ k. slice_index words.new k ≡ 0) }
{
    for word in words.iter_mut() {
        *word = 0;
    }
}

/// Makes the words before the word `end` 0.
pub fn clear_first(words: &mut [u64], end: usize)
    requires { end ≤ length words.old }
    ensures { IsZeroBelow words.old words.new end }
{
    clear_words(&mut words[..end]);
}

#[tactic(auto, using(crate::proofs::Rows::rows))]
impl BitRow {
    /// A clear row of so many bits. The error is that there is no memory.
    pub fn new(alloc: Global, len: usize) -> Result<BitRow, AllocError>
        requires { len < 2 ^ 32 }
        ensures { IfOk result (λ row. IsClear row len) }
    {
        let words = vec![in alloc; 0u64; len / 64 + 1]?;
        Ok(BitRow { words, len })
    }

    /// The number of its bits.
    pub fn len(&self) -> usize
        ensures { result ≡ length self.now }
    {
        self.len
    }

    /// Whether a bit is set.
    pub fn is_set(&self, i: usize) -> bool
        requires { i < length self.now }
        ensures { result ≡ slice_index_or self.now i false }
    {
        (self.words[i / 64] >> (i % 64)) & 1 == 1
    }

    /// Sets a bit.
    pub fn set(&mut self, i: usize)
        requires { i < length self.old }
        ensures { self.new ≡ slice_set self.old i true }
    {
        let word = self.words[i / 64];
        self.words[i / 64] = word | (1 << (i % 64));
    }

    /// Clears a bit.
    pub fn clear(&mut self, i: usize)
        requires { i < length self.old }
        ensures { self.new ≡ slice_set self.old i false }
    {
        let word = self.words[i / 64];
        self.words[i / 64] = word & !(1 << (i % 64));
    }

    /// Clears all bits, by whole words.
    pub fn clear_all(&mut self)
        ensures { IsClear self.new (length self.old) }
    {
        self.words.fill(0);
    }

    /// Clears all bits of a row that has none from `high` on: words past that aren't written.
    #[tactic(auto, using(crate::proofs::Rows::cleared_below))]
    pub fn clear_below(&mut self, high: usize)
        requires { IsEmptyFrom self.old high }
        ensures { IsClear self.new (length self.old) }
    {
        let end = high.min(self.len) / 64 + 1;
        clear_first(&mut self.words, end);
    }

    /// The words, 64 bits each, lowest bits first.
    pub fn as_words(&self) -> &[u64]
        ensures bits { bits result.now (length self.now) ≡ self.now }
        ensures size { length result.now ≡ length self.now / 64 + 1 }
    {
        self.words.as_slice()
    }

    /// Gives the 64 bits of the word j those of `word`.
    pub fn set_word(&mut self, j: usize, word: u64)
        requires { j < length self.old / 64 + 1 }
        ensures size { length self.new ≡ length self.old }
        ensures inside { (k : ℕ) → k < length self.old → k / 64 ≡ j → slice_index_or self.new k false ≡ (bit_at word (k % 64) == 1) }
        ensures others { (k : ℕ) → k / 64 ≢ j → slice_index_or self.new k false ≡ slice_index_or self.old k false }
    {
        self.words[j] = word;
    }

    /// How many members it has from `low` on and below `high`, counted by whole words; `low` is the first place of a
    /// word.
    pub fn count(&self, low: usize, high: usize) -> u32
        requires whole { low % 64 ≡ 0 }
        requires order { low ≤ high }
        requires inside { high ≤ length self.now }
        ensures { result ≡ members_between self.now low high }
    {
        ones_of(self.words.as_slice(), low, high)
    }

    /// The lowest member from `low` on, found by whole words.
    #[tactic(auto, using(crate::proofs::Scans::of_row))]
    pub fn next(&self, low: usize) -> Option<usize>
        ensures { MatchOption result (IsEmptyFrom self.now low) (λ i. IsFirstFrom self.now low i) }
    {
        if low >= self.len {
            return None;
        }
        let i = first_from(self.words.as_slice(), true, low);
        if i < self.len { Some(i) } else { None }
    }

    /// The lowest place from `low` on that is not a member, found by whole words.
    #[tactic(auto, using(crate::proofs::Scans::of_row))]
    pub fn next_clear(&self, low: usize) -> Option<usize>
        ensures { MatchOption result (IsFullFrom self.now low) (λ i. IsFirstClearFrom self.now low i) }
    {
        if low >= self.len {
            return None;
        }
        let clear = first_from(self.words.as_slice(), false, low);
        if clear < self.len { Some(clear) } else { None }
    }
}
