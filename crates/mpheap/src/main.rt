//! The program: scripts are run over a heap in one thread, workloads on threads, and random ones are written; and by commands that have a
//! library each, runs are written down, judged and drawn.
#![tactic(auto)]

use command_line::{Streams, program};
use programs::{end, end_with_usage, own_words};
use scripts::Std;
use std::io;
use std::process::ExitCode;

// The status of a command that has a library of its own, if the first of the words is one: the others are its own.
fn own_command(rt: &HostRuntime, words: &[String]) -> Option<u8> {
    let (name, words) = words.split_first()?;
    let (answer, usage) = if name.as_str() == "record" {
        (record::answer(rt, words), record::USAGE)
    } else if name.as_str() == "replay" {
        (replay::answer(rt, words), replay::USAGE)
    } else if name.as_str() == "draw" {
        (draw::answer(rt, words), draw::USAGE)
    } else {
        return None;
    };
    Some(end_with_usage(answer, usage, &mut Std::new(rt.stderr())))
}

fn main(rt: HostRuntime) -> ExitCode {
    let mut errors = Std::new(rt.stderr());
    let words = match own_words(&rt) {
        Ok(words) => words,
        Err(fault) => return ExitCode::from(end(Err(fault), &mut errors)),
    };
    if let Some(status) = own_command(&rt, words.as_slice()) {
        return ExitCode::from(status);
    }
    let mut streams = Streams {
        input: Std::new(rt.reader()),
        output: Std::new(io::writer(&rt)),
        errors,
    };
    ExitCode::from(program(rt.alloc(), &rt, words.as_slice(), &mut streams))
}
