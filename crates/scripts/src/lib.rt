//! Scripts: lines of commands are read, run over a heap of their own, and answered line by line.
//!
//! # What is proved
//!
//! `run_script`, over any reader that tells its bytes: what stands written answers what was read (`Serves`), for every line.
//! Ok: all lines. A bad line n: the lines before it, and line n is bad. A read fault: the complete lines that were read, and
//! no line that was read is too long. A write fault: a beginning of an answer to some of the first lines. Out of memory:
//! nothing, and nothing was read. The first fault ends it: exactly one call of the reader failed at a read fault, one of the
//! writer at a write fault, and none otherwise. The replies are those that some new core gave to these calls, the collector's
//! small steps too, and what each call left is a core (`AreCallsOfNew`). `run_bytes` is the same from bytes to bytes, where
//! no read and no write fails (`AnswersBytes`): out of memory it gives a beginning of an answer to some of the first lines,
//! and says so. `number_in` is the number that a word is within a range, or none exactly where there is none.
#![tactic(auto)]

mod answer;
mod commands;
mod errors;
mod field;
mod input_buffer;
pub mod limits;
mod line;
mod numbers;
mod print;
mod script;
mod source;
mod std_io;
mod words_of_line;

pub use commands::command;
pub use errors::ScriptError;
pub use input_buffer::InputBuffer;
pub use line::{LineRead, next_line};
pub use numbers::{is_text, number, number_in};
pub use print::print_reply;
pub use script::{run_bytes, run_script};
pub use source::{Failed, Sink, Source, write_all};
pub use std_io::Std;
