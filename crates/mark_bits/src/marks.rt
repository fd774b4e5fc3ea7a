//! The set of marked granules, seen as one `bool` a granule of the heap.
ghost use Rattle.std.specs.Prelude.{◌≡◌, ◌≢◌, ℕ, ◌+◌, ◌*◌, ◌/◌, ◌%◌, ◌<◌, ◌≤◌, ◌==◌, true, false, length, slice_index_or, slice_set, IfOk};
ghost use Rattle.std.specs.Int.{bit_at};
ghost use Rattle.words.specs.Bits.{bit, bits, IsClear, IsEmptyFrom};
ghost use Rattle.words.specs.declared.limits.TheConstants.{MOST_PAGES, PAGE_GRANULES};
ghost use Rattle.mark_bits.specs.Granules.{marks_on};

use std::alloc::{AllocError, Global};
use std::marker::Model;
use words::limits::{MOST_PAGES, PAGE_GRANULES};
use words::{BitRow, PageNo};

/// A set of the granules of a heap.
#[derive(Drop)]
pub struct Marks {
    row: BitRow,
}

impl Model for Marks {
    ghost use Rattle.std.specs.Prelude.{List, Bool};
    ghost use Rattle.mark_bits.specs.Granules.{IsOfPages};

    ghost Value = { List Bool };

    ghost view = { λ m. m.row };

    ghost invariant = { λ m. IsOfPages m.row };
}

impl Marks {
    /// No mark in a heap of so many pages. The error is that there is no memory.
    pub fn new(alloc: Global, pages: u32) -> Result<Marks, AllocError>
        requires some { 0 < pages }
        requires few { pages ≤ MOST_PAGES }
        ensures { IfOk result (λ marks. IsClear marks (PAGE_GRANULES * pages)) }
    {
        let row = BitRow::new(alloc, (PAGE_GRANULES * u64::from(pages)) as usize)?;
        Ok(Marks { row })
    }

    /// How many granules the heap has.
    pub fn granules(&self) -> usize
        ensures count { result ≡ length self.now }
        ensures some { 0 < result }
        ensures limit { result ≤ PAGE_GRANULES * MOST_PAGES }
    {
        self.row.len()
    }

    // How many pages the heap has.
    pub(crate) fn pages(&self) -> PageNo
        ensures count { PAGE_GRANULES * result ≡ length self.now }
        ensures some { 0 < result }
    {
        (self.row.len() / PAGE_GRANULES as usize) as u32
    }

    /// Whether the granule is marked. One that the heap doesn't have isn't.
    pub fn is_set(&self, granule: usize) -> bool
        ensures { result ≡ slice_index_or self.now granule false }
    {
        granule < self.row.len() && self.row.is_set(granule)
    }

    /// How many granules of a page are marked, counted by whole words.
    pub fn count_on(&self, page: PageNo) -> u32
        requires { PAGE_GRANULES * (page + 1) ≤ length self.now }
        ensures { result ≡ marks_on self.now page }
    {
        let first = PAGE_GRANULES as usize * page as usize;
        self.row.count(first, first + PAGE_GRANULES as usize)
    }

    /// Marks the granule, if the heap has it.
    pub fn set(&mut self, granule: usize)
        ensures { self.new ≡ slice_set self.old granule true }
    {
        if granule < self.row.len() {
            self.row.set(granule);
        }
    }

    /// Takes the granule's mark away.
    pub fn clear(&mut self, granule: usize)
        ensures { self.new ≡ slice_set self.old granule false }
    {
        if granule < self.row.len() {
            self.row.clear(granule);
        }
    }

    /// Takes all marks away.
    pub fn clear_all(&mut self)
        ensures { IsClear self.new (length self.old) }
    {
        self.row.clear_all();
    }

    /// The same where no mark is on a page from `used` on: what is past those pages isn't written.
    pub fn clear_used(&mut self, used: PageNo)
        requires inside { PAGE_GRANULES * used ≤ length self.old }
        requires none { IsEmptyFrom self.old (PAGE_GRANULES * used) }
        ensures { IsClear self.new (length self.old) }
    {
        self.row.clear_below(PAGE_GRANULES as usize * used as usize);
    }

    /// The marks of the 64 granules from 64 j on, the lowest bit first.
    #[inline]
    pub fn word(&self, j: usize) -> u64
        requires { 64 * j < length self.now }
        ensures { (k : ℕ) → k / 64 ≡ j → slice_index_or self.now k false ≡ (bit_at result (k % 64) == 1) }
    {
        self.as_words()[j]
    }

    /// The row of the granules itself.
    #[inline]
    pub fn row(&self) -> &BitRow
        ensures { result.now ≡ self.now }
    {
        &self.row
    }

    // The words of the row, lowest bits first, and no word beyond them.
    pub(crate) fn as_words(&self) -> &[u64]
        ensures bits { bits result.now (length self.now) ≡ self.now }
        ensures size { 64 * length result.now ≡ length self.now }
        ensures some { 0 < length result.now }
    {
        &self.row.as_words()[..self.row.len() / 64]
    }

    // The words of the first `used` pages.
    pub(crate) fn words_below(&self, used: PageNo) -> &[u64]
        requires { PAGE_GRANULES * used ≤ length self.now }
        ensures size { 64 * length result.now ≡ PAGE_GRANULES * used }
        ensures bits { (k : ℕ) → k < PAGE_GRANULES * used → bit result.now k ≡ slice_index_or self.now k false }
    {
        &self.as_words()[..PAGE_GRANULES as usize / 64 * used as usize]
    }

    // Gives the bits of the word j those of `word`.
    pub(crate) fn set_word(&mut self, j: usize, word: u64)
        requires { 64 * j < length self.old }
        ensures size { length self.new ≡ length self.old }
        ensures inside { (k : ℕ) → k / 64 ≡ j → slice_index_or self.new k false ≡ (bit_at word (k % 64) == 1) }
        ensures others { (k : ℕ) → k / 64 ≢ j → slice_index_or self.new k false ≡ slice_index_or self.old k false }
    {
        self.row.set_word(j, word);
    }
}
