//! The command `record`: a script is run on a heap, and its run is written down for the checker.
//!
//! `record --pages N FILE` prints the lines of docs/REPLAY.md. A reply doesn't say where an object went, nor which ones a
//! collection forgot; the heap is asked for both by calls that are no events ([`recording::Recorder`]).
#![tactic(auto)]

mod options;
mod writing;

use crate::options::read_words;
use crate::writing::write_run;
use programs::Fault;
use scripts::Std;
use std::fs;

/// How the command is used, as it says it where its words are others.
pub const USAGE: &str = "record --pages N FILE\n";

/// Does what the words say that stand behind the command's name, and answers status 0.
pub fn answer(rt: &HostRuntime, words: &[String]) -> Result<u8, Fault> {
    let asked = read_words(rt.alloc(), words)?;
    let script = match fs::read_to_string(rt, asked.file) {
        Ok(script) => script,
        Err(error) => return Err(Fault::of_read(&error)),
    };
    let mut out = Std::new(rt.stdout());
    write_run(&mut out, rt.alloc(), asked.pages, script.as_str())?;
    Ok(0)
}
