//! Readers and writers of std: an interrupted call is made again, and a failed one isn't.

use scripts::{ScriptError, Std, run_script};
use std::alloc::Global;
use std::io::{self, ErrorKind, Read, Write};
use std::process::Abort;

// Fails at its first call, and counts its calls.
#[derive(Drop)]
struct Flaky {
    kind: ErrorKind,
    calls: usize,
}

impl Flaky {
    fn new(kind: ErrorKind) -> Flaky {
        Flaky { kind, calls: 0 }
    }

    // Whether this call, the first, is to fail.
    fn fails(&mut self) -> bool {
        self.calls = self.calls.saturating_add(1);
        self.calls == 1
    }
}

impl Read for Flaky {
    fn read(&mut self, _buf: &mut [u8]) -> io::Result<usize> {
        if self.fails() {
            return Err(io::Error::from(self.kind));
        }
        Ok(0)
    }
}

impl Write for Flaky {
    fn write(&mut self, bytes: &[u8]) -> io::Result<usize> {
        if self.fails() {
            return Err(io::Error::from(self.kind));
        }
        Ok(bytes.len())
    }

    fn flush(&mut self) -> io::Result<()> {
        Ok(())
    }
}

// How many calls a reader and a writer get that first fail so, and what the script is answered.
const ROWS: [(
    ErrorKind,
    usize,
    Result<(), ScriptError>,
    Result<(), ScriptError>,
); 2] = [
    (ErrorKind::Interrupted, 2, Ok(()), Ok(())),
    (
        ErrorKind::BrokenPipe,
        1,
        Err(ScriptError::Read),
        Err(ScriptError::Write),
    ),
];

// An empty script from a reader whose first call fails so.
fn check_reader(
    rt: &impl Abort,
    alloc: Global,
    kind: ErrorKind,
    calls: usize,
    answer: Result<(), ScriptError>,
) {
    let mut reader = Std::new(Flaky::new(kind));
    let mut output = Std::new(Vec::<u8>::new(alloc));
    assert_eq!(rt; run_script(alloc, &mut reader, &mut output, 4), answer);
    assert_eq!(rt; reader.inner.calls, calls);
}

// A script of one line into a writer whose first call fails so.
fn check_writer(
    rt: &impl Abort,
    alloc: Global,
    kind: ErrorKind,
    calls: usize,
    answer: Result<(), ScriptError>,
) {
    let mut input = Std::new("attach\n".as_bytes());
    let mut writer = Std::new(Flaky::new(kind));
    assert_eq!(rt; run_script(alloc, &mut input, &mut writer, 4), answer);
    assert_eq!(rt; writer.inner.calls, calls);
}

#[test]
fn only_interrupted_calls_are_made_again(rt: HostRuntime) {
    for (kind, calls, read, written) in ROWS {
        check_reader(&rt, rt.alloc(), kind, calls, read);
        check_writer(&rt, rt.alloc(), kind, calls, written);
    }
}
