//! The calls of an attached mutator, and which register and which global each writes.
ghost use Rattle.std.specs.Prelude.{◌≡◌};
ghost use Rattle.heap_spec.specs.Shapes.{brought_register as register_brought, passed_register as register_passed, written_global as global_written, written_register as register_written};

use words::{Global, Kind, Reg};

/// A call of an attached mutator.
#[derive(Clone, Copy, Debug, PartialEq, Eq)]
pub enum Call {
    /// Gives the slot up.
    Detach,

    /// Puts a word into a register.
    Set(Reg, u64),

    /// Puts the word of the second register into the first.
    Copy(Reg, Reg),

    /// Puts the word of the second register and a number, added, into the first.
    Add(Reg, Reg, u64),

    /// Puts the word of the second register less that of the third into the first.
    Sub(Reg, Reg, Reg),

    /// Answers the word of a register.
    Get(Reg),

    /// Puts the word of a register on the stack.
    Push(Reg),

    /// Takes the top word off the stack into a register.
    Pop(Reg),

    /// Loads the heap word at the second register and an offset in words into the first.
    Load(Reg, Reg, u64),

    /// Stores the second register at the first and an offset in words.
    Store(Reg, u64, Reg),

    /// Allocates an object of at least so many words, and puts its base into a register.
    Alloc(Reg, u64, Kind),

    /// Frees the object whose base a register has.
    Free(Reg),

    /// Puts the base of the object that the second register points into, into the first.
    Base(Reg, Reg),

    /// Answers the length in words of the object that a register points into.
    Size(Reg),

    /// Puts the word of a global into a register.
    GlobalGet(Reg, Global),

    /// Puts the word of a register into a global.
    GlobalPut(Global, Reg),

    /// Makes the word at the first register and an offset in words a link to the object that the second points into.
    Link(Reg, u64, Reg),

    /// Takes the link at a register and an offset in words away, if one stands there.
    Unlink(Reg, u64),
}

impl Call {
    /// The register that the call puts a word into, unless it is refused.
    #[inline]
    pub fn written_register(&self) -> Option<Reg>
        ensures { result ≡ register_written self.now }
    {
        match self {
            Call::Set(into, _)
            | Call::Copy(into, _)
            | Call::Add(into, _, _)
            | Call::Sub(into, _, _)
            | Call::Pop(into)
            | Call::Load(into, _, _)
            | Call::Alloc(into, _, _)
            | Call::Base(into, _)
            | Call::GlobalGet(into, _) => Some(*into),
            _ => None,
        }
    }

    /// The global that the call puts a word into.
    #[inline]
    pub fn written_global(&self) -> Option<Global>
        ensures { result ≡ global_written self.now }
    {
        let Call::GlobalPut(global, _) = self else {
            return None;
        };
        Some(*global)
    }

    // The register whose word the call puts on the stack, into an object or into a global, unless it is refused.
    #[inline]
    fn passed_register(&self) -> Option<Reg>
        ensures { result ≡ register_passed self.now }
    {
        match self {
            Call::Push(from) | Call::Store(_, _, from) | Call::GlobalPut(_, from) => Some(*from),
            _ => None,
        }
    }

    /// The register whose word the call brings to where the collector reads it: the one that it writes, or else passes on.
    #[inline]
    pub fn brought_register(&self) -> Option<Reg>
        ensures { result ≡ register_brought self.now }
    {
        let Some(into) = self.written_register() else {
            return self.passed_register();
        };
        Some(into)
    }
}
