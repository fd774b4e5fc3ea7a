//! What all commands do around their work: the words that they are given and the options among them, how the program ends, and what is told of
//! a fault.
//!
//! # What is proved
//!
//! `end` is the status of each fault, 2 for bad words and bad lines and 1 for any other, with its line told (`Ends`), and
//! `end_with_usage` the same, or the status that a command answers itself; of bad words it tells how the command is used.
//! `Fault::of_read` is `no memory` exactly where memory was refused, and else a read fault, and `Fault::of_write` likewise a
//! write fault; `own_words` and `words_read` fail only with refused memory or bad words. `number_given` and `pages_given` give numbers of their ranges
//! alone. Which words a command takes is only tested.
#![tactic(auto)]

mod ending;
mod fault;
mod options;
mod output;
mod program_words;

pub use ending::{end, end_with_usage};
pub use fault::Fault;
pub use options::{bare_command, file_given, number_given, option, pages_given, words_read};
pub use output::put_line;
pub use program_words::own_words;
