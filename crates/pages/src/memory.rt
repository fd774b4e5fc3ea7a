//! The words of the heap, seen as their list.
ghost use Rattle.std.specs.Prelude.{◌≡◌, ℕ, ◌+◌, ◌*◌, ◌≤◌, List, length, slice_index, slice_range, vec_len, EachIndex};
ghost use Rattle.words.specs.declared.limits.TheConstants.{PAGE_WORDS, MOST_PAGES, FIRST_ADDRESS};
ghost use Rattle.pages.specs.Memory.{IsWordAddress, IsZeroMemory, IsZeroed, word_index, word_at, with_word_at};
ghost use Rattle.pages.specs.Opening.{IsOpenedWithin};

use crate::opening::is_page_count;
use crate::run::Words;
use std::alloc::Global;
use std::marker::Model;
use words::OpenError;
use words::limits::{FIRST_ADDRESS, PAGE_WORDS, WORD_BYTES};

/// The memory of a heap: its words, which no call but these reads or writes.
#[derive(Drop)]
pub struct Memory {
    words: Vec<u64>,
}

impl Model for Memory {
    ghost Value = { List ℕ };

    ghost view = { λ m. m.words.items };

    ghost invariant = { λ m. vec_len m.words ≤ PAGE_WORDS * MOST_PAGES };
}

// The index of an address's word among the words.
#[inline]
fn word_index(address: u64) -> usize
    requires { FIRST_ADDRESS ≤ address }
    ensures { result ≡ word_index address }
{
    ((address - FIRST_ADDRESS) / WORD_BYTES) as usize
}

// Makes all words 0.
#[inline]
fn clear(words: &mut [u64])
    ensures { EachIndex words.new (λ k. slice_index words.new k ≡ 0) }
{
    for word in words.iter_mut() {
        *word = 0;
    }
}

// Makes two words 0.
#[inline(always)]
fn clear_two(words: &mut [u64], first: usize)
    requires { first + 2 ≤ length words.old }
    ensures { IsZeroed words.old words.new first 2 }
{
    words[first] = 0;
    words[first + 1] = 0;
}

// Makes four words 0.
#[inline(always)]
fn clear_four(words: &mut [u64], first: usize)
    requires { first + 4 ≤ length words.old }
    ensures { IsZeroed words.old words.new first 4 }
{
    clear_two(words, first);
    clear_two(words, first + 2);
}

// Makes six words 0.
#[inline(always)]
fn clear_six(words: &mut [u64], first: usize)
    requires { first + 6 ≤ length words.old }
    ensures { IsZeroed words.old words.new first 6 }
{
    clear_four(words, first);
    clear_two(words, first + 4);
}

// Makes eight words 0.
#[inline(always)]
fn clear_eight(words: &mut [u64], first: usize)
    requires { first + 8 ≤ length words.old }
    ensures { IsZeroed words.old words.new first 8 }
{
    clear_four(words, first);
    clear_four(words, first + 4);
}

impl Memory {
    /// The words of so many pages, each of them 0.
    pub fn new(alloc: Global, pages: u32) -> Result<Memory, OpenError>
        ensures { IsOpenedWithin MOST_PAGES pages result (λ m. IsZeroMemory m (PAGE_WORDS * pages)) }
    {
        if !is_page_count(pages) {
            return Err(OpenError::BadPages);
        }
        let words = vec![in alloc; 0u64; PAGE_WORDS as usize * pages as usize]?;
        Ok(Memory { words })
    }

    /// The word at an address.
    #[inline]
    pub fn read(&self, address: u64) -> u64
        requires { IsWordAddress self.now address }
        ensures { result ≡ word_at self.now address }
    {
        self.words[word_index(address)]
    }

    /// So many words, from an address on, each of them to be had once.
    #[inline]
    pub fn read_run(&self, address: u64, count: u64) -> Words
        requires above { FIRST_ADDRESS ≤ address }
        requires inside { word_index address + count ≤ length self.now }
        ensures { result ≡ slice_range self.now (word_index address) (word_index address + count) }
    {
        let first = word_index(address);
        Words::new(&self.words[first..first + count as usize])
    }

    /// Writes a word at an address.
    #[inline]
    pub fn write(&mut self, address: u64, word: u64)
        requires { IsWordAddress self.old address }
        ensures { self.new ≡ with_word_at self.old address word }
    {
        self.words[word_index(address)] = word;
    }

    /// Writes 0 into so many words from an address on. Those of the four least classes are written without a loop.
    #[inline]
    pub fn zero(&mut self, address: u64, count: u32)
        requires address { IsWordAddress self.old address }
        requires inside { word_index address + count ≤ length self.old }
        ensures { IsZeroed self.old self.new (word_index address) count }
    {
        let first = word_index(address);
        match count {
            2 => clear_two(&mut self.words, first),
            4 => clear_four(&mut self.words, first),
            6 => clear_six(&mut self.words, first),
            8 => clear_eight(&mut self.words, first),
            _ => clear(&mut self.words[first..first + count as usize]),
        }
    }
}
