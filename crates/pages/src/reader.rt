//! Reads of the heap that contracts count. A reader lends no memory, counts each word that it gives, ends into a count, and
//! costs nothing when it runs.
ghost use Rattle.std.specs.Prelude.{◌≡◌, ◌+◌, ◌≤◌, ◌∷◌, ℕ, List, [], length, slice_range};
ghost use Rattle.words.specs.declared.limits.TheConstants.{FIRST_ADDRESS};
ghost use Rattle.pages.specs.Memory.{IsWordAddress, word_index, word_at};
ghost use Rattle.pages.specs.Reads.{AreMoments, IsWoven};

use crate::count::Count;
use crate::memory::Memory;
use crate::moments::Moments;
use crate::read_count::{ReadCount, Uncounted};
use crate::run::Words;
use std::marker::Model;

/// A reader of a heap's words. Contracts see the words, and how many reads it has made. It isn't dropped: it ends by [`Reader::end`] or
/// [`Reader::end_uncounted`].
pub struct Reader<'a> {
    memory: &'a Memory,
    moments: Moments,
    count: Count,
}

impl<'a> Model for Reader<'a> {
    ghost use Rattle.pages.specs.Reads.{Reading, AreMoments};

    ghost Value = { Reading };

    ghost view = { λ r. record { words = r.memory.now; moments = r.moments.list; reads = r.count.n } };

    ghost invariant = { λ r. AreMoments r.memory.now r.moments.list };
}

impl<'a> Reader<'a> {
    /// A reader that has made no read, beside which nobody writes.
    pub fn new(memory: &'a Memory) -> Reader<'a>
        ensures words { result.words ≡ memory.now }
        ensures moments { result.moments ≡ result.words ∷ [] }
        ensures none { result.reads ≡ 0 }
    {
        Reader {
            memory,
            moments: Moments::still(memory),
            count: Count::zero(),
        }
    }

    /// A reader that has made no read, beside which others write: the memory is read at these moments.
    pub fn beside(memory: &'a Memory, moments: Moments) -> Reader<'a>
        requires { AreMoments memory.now moments.list }
        ensures words { result.words ≡ memory.now }
        ensures moments { result.moments ≡ moments.list }
        ensures none { result.reads ≡ 0 }
    {
        Reader {
            memory,
            moments,
            count: Count::zero(),
        }
    }

    /// What is true of every reader.
    #[inline]
    pub fn laws(&self)
        ensures { AreMoments self.now.words self.now.moments }
    {
        let _moments = &self.moments;
    }

    // Counts a read.
    #[inline]
    fn count_one(&mut self)
        ensures words { self.new.words ≡ self.old.words }
        ensures moments { self.new.moments ≡ self.old.moments }
        ensures counted { self.new.reads ≡ self.old.reads + 1 }
    {
        self.count = self.count.next();
    }

    /// The word at an address, as it was at one of the moments.
    #[inline]
    pub fn read(&mut self, address: u64) -> u64
        requires { IsWordAddress self.old.words address }
        ensures word { (seen : List ℕ) × IsWoven self.old.moments seen × (result ≡ word_at seen address) }
        ensures words { self.new.words ≡ self.old.words }
        ensures moments { self.new.moments ≡ self.old.moments }
        ensures counted { self.new.reads ≡ self.old.reads + 1 }
    {
        self.count_one();
        self.memory.read(address)
    }

    /// So many words, from an address on, each of them to be had once, as it was at one of the moments. All are counted
    /// here, by a loop that has no code.
    #[inline]
    pub fn read_run(&mut self, address: u64, count: u64) -> Words<'a>
        requires above { FIRST_ADDRESS ≤ address }
        requires inside { word_index address + count ≤ length self.old.words }
        ensures run { (seen : List ℕ) × IsWoven self.old.moments seen × (result ≡ slice_range seen (word_index address) (word_index address + count)) }
        ensures words { self.new.words ≡ self.old.words }
        ensures moments { self.new.moments ≡ self.old.moments }
        ensures counted { self.new.reads ≡ self.old.reads + count }
    {
        for _ in 0..count {
            self.count_one();
        }
        self.memory.read_run(address, count)
    }

    /// Ends a reader: the count learns its reads.
    #[inline]
    pub fn end(self, reads: &mut ReadCount)
        ensures last { reads.new.last ≡ self.entry.reads }
        ensures all { reads.new.all ≡ reads.old.all + self.entry.reads }
    {
        let Reader {
            memory: _,
            moments: _,
            count,
        } = self;
        reads.add(count);
    }

    /// Ends a reader whose reads nobody counts.
    #[inline]
    pub fn end_uncounted(self, _leave: Uncounted) {
        let Reader {
            memory: _,
            moments: _,
            count: _,
        } = self;
    }
}
