//! What scripts are read from and replies are written to. Contracts see the bytes where they are known, and how many calls
//! failed so far.
ghost use Rattle.std.specs.Prelude.{◌≡◌, ℕ, ◌+◌, ◌<◌, ◌≤◌, Option, List, length, take, IfOk, OnOk, OnErr};
ghost use Rattle.std.specs.Io.KnownBytes.{ReadConsumes, WriteAppends, Appends};

use std::io::Read;

/// A read or a write failed.
#[derive(Clone, Copy, Debug, PartialEq, Eq)]
pub struct Failed;

/// What gives bytes.
pub trait Source {
    /// The bytes that it gives from here on, where it tells them.
    ghost remaining: { Self → Option (List ℕ) };

    /// How many calls failed so far.
    ghost faults: { Self → ℕ };

    /// Gives the next bytes into the front of the buffer, and says how many. To give none into a buffer with room is the end.
    fn read(&mut self, buf: &mut [u8]) -> Result<usize, Failed>
        ensures within { IfOk result (λ n. n ≤ length buf.new) }
        ensures bytes { ReadConsumes (remaining self.old) (remaining self.new) result buf.new }
        ensures ok { OnOk result (faults self.new ≡ faults self.old) }
        ensures fault { OnErr result (faults self.new ≡ faults self.old + 1) };
}

/// What takes bytes.
pub trait Sink {
    /// The bytes that it took so far, where it tells them.
    ghost written: { Self → Option (List ℕ) };

    /// How many calls failed so far. To take none of some bytes is a fault too.
    ghost faults: { Self → ℕ };

    /// Takes a front of the bytes, and says how many.
    fn write(&mut self, bytes: &[u8]) -> Result<usize, Failed>
        ensures within { IfOk result (λ n. n ≤ length bytes.now) }
        ensures bytes { WriteAppends (written self.old) (written self.new) result bytes.now }
        ensures ok { IfOk result (λ n. 0 < n → faults self.new ≡ faults self.old) }
        ensures none { result ≡ Ok 0 → 0 < length bytes.now → faults self.new ≡ faults self.old + 1 }
        ensures empty { result ≡ Ok 0 → length bytes.now ≡ 0 → faults self.new ≡ faults self.old }
        ensures fault { OnErr result (faults self.new ≡ faults self.old + 1) };
}

/// Bytes at hand are given from their front on, and no call fails.
impl Source for &[u8] {
    ghost use Rattle.std.specs.Prelude.{Some};

    ghost remaining = { λ bytes. Some bytes.now };

    ghost faults = { λ bytes. 0 };

    fn read(&mut self, buf: &mut [u8]) -> Result<usize, Failed> {
        match Read::read(self, buf) {
            Ok(n) => Ok(n),
            Err(_) => unreachable!(),
        }
    }
}

/// Writes all of the bytes, and stops at the first fault: nothing is tried again.
pub fn write_all<W: Sink>(sink: &mut W, bytes: &[u8]) -> Result<(), Failed>
    ensures ok { OnOk result (Appends (W.written sink.old) (W.written sink.new) bytes.now) }
    ensures err { OnErr result ((n : ℕ) × Appends (W.written sink.old) (W.written sink.new) (take n bytes.now)) }
    ensures none { OnOk result (W.faults sink.new ≡ W.faults sink.old) }
    ensures fault { OnErr result (W.faults sink.new ≡ W.faults sink.old + 1) }
{
    let mut done: usize = 0;
    while done < bytes.len() {
        let n = sink.write(&bytes[done..])?;
        if n == 0 {
            return Err(Failed);
        }
        done += n;
    }
    Ok(())
}
