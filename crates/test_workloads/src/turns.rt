//! Each line is answered before the next is asked for.
ghost use Rattle.std.specs.Prelude.{None};

use pages::Count;
use scripts::{Failed, Sink, Source, run_script};
use std::cell::Cell;
use std::test::Fail;
use test_io::Taken;

// Lines with their replies.
const TALK: [(&str, &str); 6] = [
    ("attach\n", "mutator 0\n"),
    ("0 alloc 1 3 normal\n", "ok\n"),
    ("0 size 1\n", "4\n"),
    ("0 get 1\n", "ptr\n"),
    ("1 get 1\n", "refused 1 NoSlot\n"),
    ("0 detach\n", "ok\n"),
];

// Gives a line a call, and looks first at how much was written.
#[derive(Drop)]
struct Asking<'a> {
    next: usize,
    answered: usize,
    written: &'a Cell<usize>,
    early: bool,
    faults: Count,
}

impl Source for Asking<'_> {
    ghost remaining = { λ s. None };

    ghost faults = { λ s. s.faults.n };

    fn read(&mut self, buf: &mut [u8]) -> Result<usize, Failed> {
        if self.written.get() != self.answered {
            self.early = true;
        }
        let Some((line, reply)) = TALK.get(self.next) else {
            return Ok(0);
        };
        let n = line.len().min(buf.len());
        buf[..n].copy_from_slice(&line.as_bytes()[..n]);
        self.answered = self.answered.saturating_add(reply.len());
        self.next = self.next.saturating_add(1);
        Ok(n)
    }
}

// Takes bytes, and tells how many so far.
#[derive(Drop)]
struct Telling<'a> {
    taken: Taken,
    written: &'a Cell<usize>,
}

impl Sink for Telling<'_> {
    ghost written = { λ s. None };

    ghost faults = { λ s. s.taken.faults.n };

    fn write(&mut self, bytes: &[u8]) -> Result<usize, Failed> {
        let n = self.taken.write(bytes)?;
        self.written.set(self.written.get().saturating_add(n));
        Ok(n)
    }
}

#[test]
fn a_line_is_answered_before_the_next_is_read(rt: HostRuntime) -> Result<(), Fail> {
    let written = Cell::new(0usize);
    let mut reader = Asking {
        next: 0,
        answered: 0,
        written: &written,
        early: false,
        faults: Count::zero(),
    };
    let mut writer = Telling {
        taken: Taken::new(rt.alloc())?,
        written: &written,
    };
    assert_eq!(rt; run_script(rt.alloc(), &mut reader, &mut writer, 4), Ok(()));
    assert!(rt; !reader.early && reader.next == TALK.len());
    assert_eq!(rt; written.get(), reader.answered);
    Ok(())
}
