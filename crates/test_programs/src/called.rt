//! A call of the program, and what can be seen of it.

use command_line::{Streams, program};
use std::alloc::{AllocError, Global};
use std::process::Abort;
use std::rt::Files;
use std::sync::Wait;
use std::thread::Threads;
use test_io::{Script, Taken};

/// How a program is to end: its status, what is printed and what is said of a fault.
pub(crate) type End<'a> = (u8, &'a str, &'a str);

/// What calls of a program read from and write to.
#[derive(Drop)]
pub(crate) struct Called<'a> {
    alloc: Global,
    pub(crate) streams: Streams<Script<'a>, Taken, Taken>,
}

impl<'a> Called<'a> {
    /// With an empty input.
    pub(crate) fn new(alloc: Global) -> Result<Called<'a>, AllocError> {
        Ok(Called {
            alloc,
            streams: Streams {
                input: Script::new(b""),
                output: Taken::new(alloc)?,
                errors: Taken::new(alloc)?,
            },
        })
    }

    // Calls the program, and answers its status.
    fn call<R: Files + Threads + Wait + Sync>(&mut self, rt: &R, words: &[&str]) -> u8 {
        self.streams.output.clear();
        self.streams.errors.clear();
        program(self.alloc, rt, words, &mut self.streams)
    }

    /// Calls the program, and compares how it ends.
    pub(crate) fn ends<R: Files + Threads + Wait + Abort + Sync>(
        &mut self,
        rt: &R,
        name: &str,
        words: &[&str],
        end: End<'_>,
    ) {
        let (status, printed, said) = end;
        assert_eq!(rt; self.call(rt, words), status, "{name}");
        assert_eq!(rt; self.streams.output.text(), Some(printed), "{name}");
        assert_eq!(rt; self.streams.errors.text(), Some(said), "{name}");
    }
}
