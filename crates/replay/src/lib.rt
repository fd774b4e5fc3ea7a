//! The command that checks a written run: `replay --pages N FILE` says `legal, N lines`, or which line isn't and what rule it breaks.
//! With `--places any` objects may lie anywhere, in a heap of `--bytes N` from `--from ADDRESS` on, and with `--why` it also shows a path
//! from a root to an object that has to stay.
//!
//! The lines of FILE are those of docs/REPLAY.md.
#![tactic(auto)]

mod options;
mod printing;

use crate::options::read_words;
use crate::printing::tell;
use programs::Fault;
use scripts::Std;
use std::fs;

/// How the command is used, as it says it where its words are others.
pub const USAGE: &str =
    "replay (--pages N | --bytes N) [--places any [--from ADDRESS]] [--why] FILE\n";

/// Checks the run in the file that the words name, which stand behind the command's name, and answers the status that goes with what is
/// said of it.
pub fn answer(rt: &HostRuntime, words: &[String]) -> Result<u8, Fault> {
    let asked = read_words(rt.alloc(), words)?;
    let text = match fs::read_to_string(rt, asked.file) {
        Ok(text) => text,
        Err(error) => return Err(Fault::of_read(&error)),
    };
    tell(
        &mut Std::new(rt.stdout()),
        rt.alloc(),
        &asked,
        text.as_str(),
    )
}
