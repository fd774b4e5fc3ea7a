//! What a command is answered.

use words::{Refusal, Slot as MutatorSlot};

/// What is answered.
#[derive(Clone, Copy, Debug, PartialEq, Eq)]
pub enum Reply {
    /// The slot of a mutator that came.
    Slot(MutatorSlot),

    /// Done, with no more to say.
    Done,

    /// A word of a register or of the heap.
    Word(u64),

    /// A number of things.
    Count(u64),

    /// The call was refused.
    Refused(Refusal),
}
