//! Where the objects of a run may lie.
ghost use Rattle.std.specs.Prelude.{◌≡◌, IsTrue, false};
ghost use Rattle.written_runs.specs.Ranges.{HasRange};

use words::limits::{PAGE_BYTES, WORD_BYTES};

/// Where the objects of a run may lie, and what its lines tell of that.
#[derive(Clone, Copy, Debug, PartialEq, Eq)]
pub enum Places {
    /// In cells and pages, by size classes. A line tells where a new object begins.
    Classes,

    /// At any multiple of 8 in a heap that begins at this address. A line tells where a new object begins, and how many words it has.
    Any(u64),
}

impl Places {
    /// Whether a heap of so many pages has a range there.
    pub fn has_range(self, pages: u32) -> bool
        ensures yes { IsTrue result → HasRange self pages }
        ensures no { result ≡ false → HasRange self pages → ⊥ }
    {
        let Places::Any(from) = self else {
            return true;
        };
        from % WORD_BYTES == 0 && from != 0 && from <= u64::MAX - PAGE_BYTES * u64::from(pages)
    }
}
