//! Why a call is refused, and why a heap is not opened or a run not made.
ghost use Rattle.std.specs.Prelude.{◌≡◌};
ghost use Rattle.words.specs.Refusals.{code_of, name_of, open_code_of};

use std::alloc::AllocError;

/// Why a call is refused. A refused call changes nothing of the sequential heap.
#[derive(Clone, Copy, Debug, PartialEq, Eq)]
pub enum Refusal {
    /// No slot is free for a mutator to come, or the slot has no mutator.
    NoSlot,

    /// The address is not divisible by the bytes of a word.
    Misaligned,

    /// The address points into no object.
    NoObject,

    /// The address lies inside an object and is not its base.
    NotBase,

    /// A request of no words, or of more than the limit.
    BadSize,

    /// No place of the heap has room.
    Full,

    /// The mutator's stack has no room for another word.
    StackFull,

    /// The mutator's stack has no word.
    StackEmpty,

    /// The call does not fit the phase of the collector.
    WrongPhase,

    /// As many links stand as there is room for.
    LinksFull,

    /// The address points into an object whose words the collector reads.
    NotPointerFree,

    /// Objects may have gone of which the marks that are kept don't know: a full cycle has to come first.
    NeedsFull,
}

impl Refusal {
    /// The code as it is printed, from 1.
    pub fn code(self) -> u8
        ensures { result ≡ code_of self }
    {
        match self {
            Refusal::NoSlot => 1,
            Refusal::Misaligned => 2,
            Refusal::NoObject => 3,
            Refusal::NotBase => 4,
            Refusal::BadSize => 5,
            Refusal::Full => 6,
            Refusal::StackFull => 7,
            Refusal::StackEmpty => 8,
            Refusal::WrongPhase => 9,
            Refusal::LinksFull => 10,
            Refusal::NotPointerFree => 11,
            Refusal::NeedsFull => 12,
        }
    }

    /// The name as it is printed.
    pub fn name(self) -> &'static str
        ensures { result.now ≡ name_of self }
    {
        match self {
            Refusal::NoSlot => "NoSlot",
            Refusal::Misaligned => "Misaligned",
            Refusal::NoObject => "NoObject",
            Refusal::NotBase => "NotBase",
            Refusal::BadSize => "BadSize",
            Refusal::Full => "Full",
            Refusal::StackFull => "StackFull",
            Refusal::StackEmpty => "StackEmpty",
            Refusal::WrongPhase => "WrongPhase",
            Refusal::LinksFull => "LinksFull",
            Refusal::NotPointerFree => "NotPointerFree",
            Refusal::NeedsFull => "NeedsFull",
        }
    }
}

/// Why a heap is not opened.
#[derive(Clone, Copy, Debug, PartialEq, Eq)]
pub enum OpenError {
    /// No page, or more than the limit.
    BadPages,

    /// A growth of memory was refused.
    Memory,
}

impl OpenError {
    /// The code, from 1.
    pub fn code(self) -> u8
        ensures { result ≡ open_code_of self }
    {
        match self {
            OpenError::BadPages => 1,
            OpenError::Memory => 2,
        }
    }
}

impl From<AllocError> for OpenError {
    ghost use Rattle.std.specs.Prelude.{◌≡◌};
    ghost use Rattle.words.specs.declared.refusal.OpenError.TheVariants.{Memory};

    ghost from_gives = { λ _ e. e ≡ Memory };

    fn from(_refused: AllocError) -> OpenError {
        OpenError::Memory
    }
}

/// Why a run isn't made: of a workload, of a random script, or of the checker.
#[derive(Clone, Copy, Debug, PartialEq, Eq)]
pub enum RunError {
    /// Memory was refused.
    Memory,
}

impl From<AllocError> for RunError {
    fn from(_refused: AllocError) -> RunError {
        RunError::Memory
    }
}
