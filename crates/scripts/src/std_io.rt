//! The readers and writers of std as sources and sinks. A call that a signal interrupted is made again, as std's own loops do,
//! and nothing else is tried again.
ghost use Rattle.std.specs.Prelude.{◌≡◌, ◌+◌};

use crate::source::{Failed, Sink, Source};
use pages::Count;
use std::io::{ErrorKind, Read, Write};

/// A reader or a writer of std, with the number of its faults, which contracts see.
#[derive(Drop)]
pub struct Std<T> {
    /// What it reads from, or writes to.
    pub inner: T,

    /// How many calls failed so far.
    pub faults: Count,
}

impl<T> Std<T> {
    /// What reads from, or writes to, this.
    pub fn new(inner: T) -> Std<T>
        ensures inner { result.inner ≡ inner }
        ensures none { result.faults.n ≡ 0 }
    {
        Std {
            inner,
            faults: Count::zero(),
        }
    }

    // Counts a fault.
    fn fail(&mut self) -> Failed
        ensures inner { self.new.inner ≡ self.old.inner }
        ensures counted { self.new.faults.n ≡ self.old.faults.n + 1 }
    {
        self.faults = self.faults.next();
        Failed
    }
}

impl<T: Read> Source for Std<T> {
    ghost remaining = { λ s. T.remaining s.inner };

    ghost faults = { λ s. s.faults.n };

    fn read(&mut self, buf: &mut [u8]) -> Result<usize, Failed> {
        for _ in 0..u64::MAX {
            match self.inner.read(buf) {
                Ok(n) => return Ok(n),
                Err(e) => {
                    if e.kind() != ErrorKind::Interrupted {
                        return Err(self.fail());
                    }
                }
            }
        }
        Err(self.fail())
    }
}

impl<T: Write> Sink for Std<T> {
    ghost written = { λ s. T.contents s.inner };

    ghost faults = { λ s. s.faults.n };

    fn write(&mut self, bytes: &[u8]) -> Result<usize, Failed> {
        for _ in 0..u64::MAX {
            match self.inner.write(bytes) {
                Ok(0) if !bytes.is_empty() => {
                    let _fault = self.fail();
                    return Ok(0);
                }
                Ok(n) => return Ok(n),
                Err(e) => {
                    if e.kind() != ErrorKind::Interrupted {
                        return Err(self.fail());
                    }
                }
            }
        }
        Err(self.fail())
    }
}
