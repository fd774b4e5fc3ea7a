//! Input is read through a buffer. Contracts see the bytes that are left in it.
ghost use Rattle.std.specs.Prelude.{◌≡◌, ◌+◌, [], ◌∷◌, IfOk, OnOk, OnErr, MatchOption, MatchBool};
ghost use Rattle.std.specs.Io.KnownBytes.{Consumes, Keeps, IsAtEnd};
ghost use Rattle.scripts.specs.Reading.{left_of};

use crate::limits::BUFFER_BYTES;
use crate::source::{Failed, Source};
use std::alloc::{AllocError, Global};
use std::marker::Model;

/// What was read of a source and not used yet.
#[derive(Drop)]
pub struct InputBuffer {
    bytes: Vec<u8>,
    start: usize,
    end: usize,
}

impl Model for InputBuffer {
    ghost use Rattle.std.specs.Prelude.{◌≡◌, ◌≤◌, ◌-◌, List, ℕ, take, drop, vec_len};
    ghost use Rattle.scripts.specs.declared.limits.TheConstants.{BUFFER_BYTES};

    ghost Value = { List ℕ };

    ghost view = { λ s. take (s.end - s.start) (drop s.start s.bytes.items) };

    ghost invariant = { λ s. (s.start ≤ s.end) × (s.end ≤ BUFFER_BYTES) × (vec_len s.bytes ≡ BUFFER_BYTES) };
}

impl InputBuffer {
    /// A buffer with nothing in it.
    pub fn new(alloc: Global) -> Result<InputBuffer, AllocError>
        ensures { IfOk result (λ buffer. buffer ≡ []) }
    {
        let bytes = vec![in alloc; 0u8; BUFFER_BYTES]?;
        Ok(InputBuffer {
            bytes,
            start: 0,
            end: 0,
        })
    }

    // Whether nothing is left.
    fn is_empty(&self) -> bool
        ensures { MatchBool result (self.now ≡ []) (self.now ≡ [] → ⊥) }
    {
        self.start == self.end
    }

    // Takes the next byte.
    fn next(&mut self) -> Option<u8>
        ensures { MatchOption result ((self.old ≡ []) × (self.new ≡ [])) (λ byte. self.old ≡ byte ∷ self.new) }
    {
        if self.start == self.end {
            return None;
        }
        let byte = self.bytes[self.start];
        self.start += 1;
        Some(byte)
    }

    // Reads the next bytes of the source. Nothing comes at its end.
    fn fill<R: Source>(&mut self, source: &mut R) -> Result<(), Failed>
        requires { self.old ≡ [] }
        ensures ok { OnOk result (Consumes (R.remaining source.old) (R.remaining source.new) self.new) }
        ensures end { OnOk result (self.new ≡ [] → IsAtEnd (R.remaining source.new)) }
        ensures none { OnOk result (R.faults source.new ≡ R.faults source.old) }
        ensures err { OnErr result ((self.new ≡ []) × Keeps (R.remaining source.old) (R.remaining source.new)) }
        ensures fault { OnErr result (R.faults source.new ≡ R.faults source.old + 1) }
    {
        self.start = 0;
        self.end = 0;
        let n = source.read(self.bytes.as_mut_slice())?;
        self.end = n;
        Ok(())
    }

    /// The next byte of what is left of the buffer and of the source, and `None` at the end.
    pub fn next_from<R: Source>(&mut self, source: &mut R) -> Result<Option<u8>, Failed>
        ensures ok { IfOk result (λ found. MatchOption found
            (Consumes (left_of self.old (R.remaining source.old)) (left_of self.new (R.remaining source.new)) [] × IsAtEnd (left_of self.new (R.remaining source.new)))
            (λ byte. Consumes (left_of self.old (R.remaining source.old)) (left_of self.new (R.remaining source.new)) (byte ∷ []))) }
        ensures none { OnOk result (R.faults source.new ≡ R.faults source.old) }
        ensures err { OnErr result ((self.new ≡ []) × Consumes (left_of self.old (R.remaining source.old)) (left_of self.new (R.remaining source.new)) []) }
        ensures fault { OnErr result (R.faults source.new ≡ R.faults source.old + 1) }
    {
        if self.is_empty() {
            self.fill(source)?;
        }
        Ok(self.next())
    }
}
