//! What a reader ends into.
//!
//! A reader isn't dropped: it ends into a count, or by the leave to end as one that nobody counts. Who makes either has an
//! allocator. So a call on an open heap makes none, and one that is lent a count, and no leave, counts each reader that it made.
ghost use Rattle.std.specs.Prelude.{◌≡◌, ◌+◌};

use crate::count::Count;
use std::alloc::Global;
use std::marker::Model;

/// A count of reads that only ended readers add to, and that costs nothing when the program runs. Contracts see the reads of
/// the reader that ended last, and those of all.
#[derive(Drop)]
pub struct ReadCount {
    last: Count,
    all: Count,
}

impl Model for ReadCount {
    ghost use Rattle.pages.specs.Reads.{CountedReads};

    ghost Value = { CountedReads };

    ghost view = { λ c. record { last = c.last.n; all = c.all.n } };
}

impl ReadCount {
    /// A count into which no reader has ended.
    pub fn new(_alloc: Global) -> ReadCount
        ensures last { result.last ≡ 0 }
        ensures all { result.all ≡ 0 }
    {
        ReadCount {
            last: Count::zero(),
            all: Count::zero(),
        }
    }

    /// Counts the reads of a reader.
    #[inline]
    pub(crate) fn add(&mut self, reads: Count)
        ensures last { self.new.last ≡ reads.n }
        ensures all { self.new.all ≡ self.old.all + reads.n }
    {
        self.all = self.all.plus(&reads);
        self.last = reads;
    }
}

/// The leave to end readers whose reads nobody counts.
#[derive(Clone, Copy)]
pub struct Uncounted {
    _made: (),
}

impl Uncounted {
    /// The leave, for who may take memory.
    pub fn new(_alloc: Global) -> Uncounted {
        Uncounted { _made: () }
    }
}
