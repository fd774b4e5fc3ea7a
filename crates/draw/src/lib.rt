//! The command `draw`: a script is run on a heap, and its run is written as a trace, in the lines of docs/TRACE.md; or a run that some heap
//! wrote down is, up to the first line that the checker refuses.
//!
//! `draw --pages N FILE` prints the trace of the script in FILE, `draw --pages N --run FILE` that of the run in FILE; the
//! wrapper `mpheap` joins it with the page that shows it.
//!
//! docs/CRATES.md tells the rest: what is proved.
#![tactic(auto)]

mod drawing;
mod options;
mod reply;
mod run_drawing;
mod run_lines;
mod run_printing;
mod run_records;
mod script_printing;

use crate::options::read_words;
use crate::run_printing::draw_run;
use crate::script_printing::draw_script;
use programs::Fault;
use scripts::Std;
use std::fs;

/// How the command is used, as it says it where its words are others.
pub const USAGE: &str = "draw --pages N [--run] FILE\n";

/// Draws what the words say that stand behind the command's name, and answers the status that goes with it: that of `replay` for a run.
pub fn answer(rt: &HostRuntime, words: &[String]) -> Result<u8, Fault> {
    let asked = read_words(rt.alloc(), words)?;
    let text = match fs::read_to_string(rt, asked.file) {
        Ok(text) => text,
        Err(error) => return Err(Fault::of_read(&error)),
    };
    let mut out = Std::new(rt.stdout());
    if asked.is_run {
        return draw_run(rt, &mut out, asked.pages, text.as_str());
    }
    draw_script(&mut out, rt.alloc(), asked.pages, text.as_str())?;
    Ok(0)
}
