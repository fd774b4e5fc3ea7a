//! The fields of a line: the values that its words stand for.
ghost use Rattle.std.specs.Prelude.{◌≡◌, ℕ, List, MatchOption};

use crate::numbers::{is_text, number, small_number};
use words::{Global, Kind, Reg, Slot};

/// A value that is written as one word. Contracts see how it is written, and which values are in range.
pub(crate) trait Field: Copy {
    /// How it is written.
    ghost text: { Self → List ℕ };

    /// Whether it is in range.
    ghost fits: { Self → Type 0 };

    /// The value that a word is, and `None` exactly if it is none in range.
    fn read(word: &[u8]) -> Option<Self>
        ensures { MatchOption result ((value : Self) → fits value → word.now ≡ text value → ⊥) (λ value. (word.now ≡ text value) × fits value) };
}

impl Field for Slot {
    ghost use Rattle.std.specs.Prelude.{◌<◌, decimal};
    ghost use Rattle.words.specs.declared.limits.TheConstants.{SLOTS};

    ghost text = { decimal };

    ghost fits = { λ n. n < SLOTS };

    fn read(word: &[u8]) -> Option<Slot> {
        let n = small_number(word)?;
        Slot::new(n)
    }
}

impl Field for Reg {
    ghost use Rattle.std.specs.Prelude.{decimal};
    ghost use Rattle.heap_spec.specs.Ranges.{IsRegister};

    ghost text = { decimal };

    ghost fits = { IsRegister };

    fn read(word: &[u8]) -> Option<Reg> {
        let n = small_number(word)?;
        Reg::new(n)
    }
}

impl Field for Global {
    ghost use Rattle.std.specs.Prelude.{decimal};
    ghost use Rattle.heap_spec.specs.Ranges.{IsGlobal};

    ghost text = { decimal };

    ghost fits = { IsGlobal };

    fn read(word: &[u8]) -> Option<Global> {
        let n = small_number(word)?;
        Global::new(n)
    }
}

impl Field for u64 {
    ghost use Rattle.std.specs.Prelude.{decimal};
    ghost use Rattle.heap_spec.specs.Ranges.{IsWord};

    ghost text = { decimal };

    ghost fits = { IsWord };

    fn read(word: &[u8]) -> Option<u64> {
        number(word)
    }
}

impl Field for Kind {
    ghost use Rattle.scripts.specs.Grammar.{kind_word};
    ghost use Rattle.scripts.specs.Fields.{IsKind};

    ghost text = { kind_word };

    ghost fits = { IsKind };

    fn read(word: &[u8]) -> Option<Kind> {
        if is_text(word, "normal") {
            return Some(Kind::Normal);
        }
        if is_text(word, "atomic") {
            return Some(Kind::PointerFree);
        }
        None
    }
}
