//! The commands of mutators and of the collector.

use crate::call::Call;
use words::Slot;

/// What may be asked of a heap, as a line of a script. Roots, Mark, Retrace, Sweep and Number are never events of a
/// history.
#[derive(Clone, Copy, Debug, PartialEq, Eq)]
pub enum Event {
    /// A mutator comes.
    Attach,

    /// A mutator calls.
    Mutator(Slot, Call),

    /// Begins a cycle.
    Begin,

    /// Begins a cycle with the marks of the last one.
    BeginPartial,

    /// Marks what root words point into.
    Roots,

    /// Marks on, over at most so many words.
    Mark(u64),

    /// Reads a dirty page again.
    Retrace,

    /// Ends the cycle.
    Finish,

    /// Sweeps a pending page.
    Sweep,

    /// Collects in full.
    Collect,

    /// Answers how many collections were granted.
    Number,
}
