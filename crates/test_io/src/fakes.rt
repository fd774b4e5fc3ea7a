//! Readers and writers that fail where they are told to.
ghost use Rattle.std.specs.Prelude.{None};

use pages::Count;
use scripts::{Failed, Sink, Source};
use std::alloc::{AllocError, Global};

/// Gives bytes, at most so many a call, and fails at one of its calls, counted from 0.
#[derive(Drop)]
pub struct Script<'a> {
    pub bytes: &'a [u8],
    pub most: usize,
    pub fails_at: Option<usize>,
    pub calls: usize,
    pub faults: Count,
}

impl<'a> Script<'a> {
    /// Never fails.
    pub fn new(bytes: &'a [u8]) -> Script<'a> {
        Script {
            bytes,
            most: usize::MAX,
            fails_at: None,
            calls: 0,
            faults: Count::zero(),
        }
    }

    /// Fails at this call.
    pub fn failing_at(bytes: &'a [u8], most: usize, call: usize) -> Script<'a> {
        Script {
            bytes,
            most,
            fails_at: Some(call),
            calls: 0,
            faults: Count::zero(),
        }
    }
}

impl Source for Script<'_> {
    ghost remaining = { λ s. None };

    ghost faults = { λ s. s.faults.n };

    fn read(&mut self, buf: &mut [u8]) -> Result<usize, Failed> {
        let call = self.calls;
        self.calls = self.calls.saturating_add(1);
        if self.fails_at == Some(call) {
            self.faults = self.faults.next();
            return Err(Failed);
        }
        let n = buf.len().min(self.bytes.len()).min(self.most);
        buf[..n].copy_from_slice(&self.bytes[..n]);
        self.bytes = &self.bytes[n..];
        Ok(n)
    }
}

/// Takes bytes, at most so many a call. At one of its calls, counted from 0, it fails, and at one it takes none.
#[derive(Drop)]
pub struct Taken {
    pub bytes: Vec<u8>,
    pub most: usize,
    pub fails_at: Option<usize>,
    pub stops_at: Option<usize>,
    pub calls: usize,
    pub faults: Count,
}

impl Taken {
    /// Takes all, and never fails but for want of memory.
    pub fn new(alloc: Global) -> Result<Taken, AllocError> {
        Taken::limited(alloc, usize::MAX, None)
    }

    /// Its own memory is taken here, so that a test may have each later allocation refused.
    pub fn limited(
        alloc: Global,
        most: usize,
        fails_at: Option<usize>,
    ) -> Result<Taken, AllocError> {
        Ok(Taken {
            bytes: Vec::with_capacity(alloc, 4_096)?,
            most,
            fails_at,
            stops_at: None,
            calls: 0,
            faults: Count::zero(),
        })
    }

    /// Forgets what it took.
    pub fn clear(&mut self) {
        self.bytes.clear();
        self.calls = 0;
    }

    /// What it took, if it is text.
    pub fn text(&self) -> Option<&str> {
        str::from_utf8(self.bytes.as_slice()).ok()
    }
}

impl Sink for Taken {
    ghost written = { λ s. None };

    ghost faults = { λ s. s.faults.n };

    fn write(&mut self, bytes: &[u8]) -> Result<usize, Failed> {
        let call = self.calls;
        self.calls = self.calls.saturating_add(1);
        let most = if self.stops_at == Some(call) {
            0
        } else {
            self.most
        };
        let n = bytes.len().min(most);
        if self.fails_at == Some(call) || self.bytes.extend_from_slice(&bytes[..n]).is_err() {
            self.faults = self.faults.next();
            return Err(Failed);
        }
        if n == 0 && !bytes.is_empty() {
            self.faults = self.faults.next();
        }
        Ok(n)
    }
}
