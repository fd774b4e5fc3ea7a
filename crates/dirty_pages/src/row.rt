//! A row of bits whose words of 0 are passed over. It has the calls of `words::BitRow`.
ghost use Rattle.std.specs.Prelude.{◌≡◌, ℕ, ◌^◌, ◌<◌, ◌⊎◌, true, false, length, slice_index_or, slice_set, IfOk, MatchOption};
ghost use Rattle.words.specs.Bits.{bits, members, Has, IsClear, IsEmptyFrom, IsFirstFrom};
ghost use Rattle.dirty_pages.specs.Summary.{IsOr};

use crate::summary::SummedWords;
use std::alloc::{AllocError, Global};
use std::marker::Model;

/// A row of bits, each at first clear, whose length never changes.
#[derive(Drop)]
pub struct SummedRow {
    words: SummedWords,
    len: usize,
}

impl Model for SummedRow {
    ghost use Rattle.std.specs.Prelude.{List, Bool, ◌≡◌, ◌+◌, ◌/◌, ◌^◌, ◌<◌, length};
    ghost use Rattle.words.specs.Bits.{bits};

    ghost Value = { List Bool };

    ghost view = { λ r. bits r.words r.len };

    ghost invariant = { λ r. (length r.words ≡ r.len / 64 + 1) × (r.len < 2 ^ 32) };
}

#[tactic(auto, using(crate::proofs::Pages::pages))]
impl SummedRow {
    /// A clear row of so many bits. The error is that there is no memory.
    pub fn new(alloc: Global, len: usize) -> Result<SummedRow, AllocError>
        requires { len < 2 ^ 32 }
        ensures { IfOk result (λ row. IsClear row len) }
    {
        let words = SummedWords::new(alloc, len / 64 + 1)?;
        Ok(SummedRow { words, len })
    }

    /// The number of its bits.
    #[inline]
    pub fn len(&self) -> usize
        ensures { result ≡ length self.now }
    {
        self.len
    }

    /// Whether a bit is set.
    #[inline]
    pub fn is_set(&self, i: usize) -> bool
        requires { i < length self.now }
        ensures { result ≡ slice_index_or self.now i false }
    {
        (self.words.at(i / 64) >> (i % 64)) & 1 == 1
    }

    /// Sets a bit. Most that are set are set before, and then nothing is written.
    #[inline]
    #[tactic(auto, using(crate::proofs::Pages::set_again))]
    pub fn set(&mut self, i: usize)
        requires { i < length self.old }
        ensures { self.new ≡ slice_set self.old i true }
    {
        if !self.is_set(i) {
            self.join(i);
        }
    }

    // Sets a bit that is clear.
    fn join(&mut self, i: usize)
        requires { i < length self.old }
        ensures { self.new ≡ slice_set self.old i true }
    {
        let word = self.words.at(i / 64);
        self.words.put(i / 64, word | (1 << (i % 64)));
    }

    /// Clears a bit.
    pub fn clear(&mut self, i: usize)
        requires { i < length self.old }
        ensures { self.new ≡ slice_set self.old i false }
    {
        let word = self.words.at(i / 64);
        self.words.put(i / 64, word & !(1 << (i % 64)));
    }

    /// How many members it has. Words that have none are passed over.
    pub fn count(&self) -> u32
        ensures { result ≡ members self.now }
    {
        self.words.ones(self.len)
    }

    /// Clears all bits.
    pub fn clear_all(&mut self)
        ensures { IsClear self.new (length self.old) }
    {
        self.words.clear_all();
    }

    /// Sets the bits that another row has set. Words of it that have none are passed over.
    pub fn add(&mut self, more: &SummedRow)
        requires { length more.now ≡ length self.old }
        ensures size { length self.new ≡ length self.old }
        ensures each { (p : ℕ) → Has self.new p → Has self.old p ⊎ Has more.now p }
        ensures old { (p : ℕ) → Has self.old p → Has self.new p }
        ensures more { (p : ℕ) → Has more.now p → Has self.new p }
    {
        add_words(&mut self.words, &more.words);
    }

    /// The lowest member from `low` on.
    #[tactic(auto, using(words::proofs::Scans::of_row))]
    pub fn next(&self, low: usize) -> Option<usize>
        ensures { MatchOption result (IsEmptyFrom self.now low) (λ i. IsFirstFrom self.now low i) }
    {
        if low >= self.len {
            return None;
        }
        let i = self.words.first_bit(low);
        if i < self.len { Some(i) } else { None }
    }
}

// Each word becomes the or of both; the words of `more` that are 0 are passed over.
#[tactic(auto, using(crate::proofs::Adding::adding))]
fn add_words(words: &mut SummedWords, more: &SummedWords)
    requires size { length more.now ≡ length words.old }
    requires few { length words.old < 2 ^ 32 }
    ensures { IsOr words.old more.now words.new }
{
    let mut from = 0;
    while let Some(j) = more.next(from) {
        let word = words.at(j) | more.at(j);
        words.put(j, word);
        from = j + 1;
    }
}
