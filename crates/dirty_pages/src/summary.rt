//! Words, and a row of bits that says which of them aren't 0. So words of 0 are passed over, 64 of them at a look.
ghost use Rattle.std.specs.Prelude.{◌≡◌, ℕ, ◌*◌, ◌^◌, ◌<◌, List, length, slice_index_or, slice_set, true, IfOk, MatchOption};
ghost use Rattle.words.specs.Bits.{IsCount, IsFirstBitOf};
ghost use Rattle.dirty_pages.specs.Summary.{IsSummary, AreUsed, AreZeros, AreZerosBetween, AreZerosFrom, IsLeastWord, IsLeastWordBelow};

use std::alloc::{AllocError, Global};
use std::marker::Model;
use words::{BitRow, clear_first, first_in};

// Words, seen as their list.
#[derive(Drop)]
pub(crate) struct SummedWords {
    words: Vec<u64>,
    summary: BitRow,
    // Each word from it on is 0.
    used: usize,
}

impl Model for SummedWords {
    ghost Value = { List ℕ };

    ghost view = { λ s. s.words.items };

    ghost invariant = { λ s. IsSummary s.words.items s.summary × AreUsed s.words.items s.used };
}

#[tactic(auto, using(crate::proofs::Words::words, crate::proofs::Clearing::clearing))]
impl SummedWords {
    // So many words of 0.
    pub(crate) fn new(alloc: Global, count: usize) -> Result<SummedWords, AllocError>
        requires { count < 2 ^ 32 }
        ensures { IfOk result (λ words. AreZeros words count) }
    {
        let words = vec![in alloc; 0u64; count]?;
        let summary = BitRow::new(alloc, count)?;
        Ok(SummedWords {
            words,
            summary,
            used: 0,
        })
    }

    // The word j.
    #[inline]
    pub(crate) fn at(&self, j: usize) -> u64
        requires { j < length self.now }
        ensures { result ≡ slice_index_or self.now j 0 }
    {
        self.words[j]
    }

    // Gives the word j the value.
    pub(crate) fn put(&mut self, j: usize, word: u64)
        requires { j < length self.old }
        ensures { self.new ≡ slice_set self.old j word }
    {
        self.words[j] = word;
        if word == 0 {
            self.summary.clear(j);
        } else {
            self.summary.set(j);
            self.used = self.used.max(j + 1);
        }
    }

    // Makes every word 0. Those behind the last that wasn't since the last time aren't looked at.
    pub(crate) fn clear_all(&mut self)
        ensures { AreZeros self.new (length self.old) }
    {
        clear_first(&mut self.words, self.used);
        self.summary.clear_below(self.used);
        self.used = 0;
    }

    // The place of the first word from `from` on that isn't 0, found by the summary.
    pub(crate) fn next(&self, from: usize) -> Option<usize>
        ensures { MatchOption result (AreZerosFrom self.now from) (λ j. IsLeastWord self.now from j) }
    {
        if from >= self.used {
            return None;
        }
        self.summary.next(from)
    }

    // The number of words.
    pub(crate) fn len(&self) -> usize
        ensures { result ≡ length self.now }
    {
        self.words.len()
    }

    // The place of the lowest bit from `low` on that is set, or the number of all bits. Words of 0 are passed over 64 at a look.
    #[tactic(auto, using(crate::proofs::Skips::skips))]
    pub(crate) fn first_bit(&self, low: usize) -> usize
        requires few { length self.now < 2 ^ 32 }
        requires low { low < 64 * length self.now }
        ensures { IsFirstBitOf self.now true low result }
    {
        let j = low / 64;
        if let Some(i) = first_in(self.words[j], true, (low % 64) as u32) {
            return 64 * j + i as usize;
        }
        let Some(k) = self.next(j + 1) else {
            return 64 * self.words.len();
        };
        64 * k + self.at(k).trailing_zeros() as usize
    }

    // The place of the first word from `from` on and below `end` that isn't 0.
    #[tactic(auto, using(crate::proofs::Counting::between))]
    fn next_below(&self, from: usize, end: usize) -> Option<usize>
        ensures { MatchOption result (AreZerosBetween self.now from end) (λ j. IsLeastWordBelow self.now from end j) }
    {
        let Some(j) = self.next(from) else {
            return None;
        };
        if j < end { Some(j) } else { None }
    }

    // How many bits of the words below `end` are set. Words of 0 are passed over.
    #[tactic(auto, using(crate::proofs::Counting::counting))]
    fn ones_below(&self, end: usize) -> u32
        requires few { 64 * end < 2 ^ 32 }
        ensures { IsCount self.now 0 (64 * end) result }
    {
        let mut count = 0;
        let mut from = 0;
        while let Some(j) = self.next_below(from, end) {
            count += self.at(j).count_ones();
            from = j + 1;
        }
        count
    }

    // How many bits are set below `high`. Words of 0 are passed over.
    #[tactic(auto, using(words::proofs::Counts::counts))]
    pub(crate) fn ones(&self, high: usize) -> u32
        requires inside { high < 64 * length self.now }
        requires few { high < 2 ^ 32 }
        ensures { IsCount self.now 0 high result }
    {
        let count = self.ones_below(high / 64);
        let last = self.at(high / 64) & ((1 << (high % 64)) - 1);
        count + last.count_ones()
    }
}
