//! The program around the words of `run`, `threads` and `stress`: they are read, the file that they name is opened, and what they ask for is
//! done.
//!
//! # What is proved
//!
//! `program` does what its words ask for, and `answer` what a request says that was read of them, and both say how that ended
//! (`ProgramEnds`): what is written answers the script that was read, or is of a run of the workload on threads, or the random script
//! (`Does`), each fault of its input and its output is told, and with words of no request it touches neither. `read_words` answers requests
//! alone that can be done. Which request words make, which file a name opens, and what is written to a file, is only tested.
#![tactic(auto)]

mod arguments;
mod obeying;
mod recording;
mod request;
mod running;
mod streams;

pub use request::{Request, read_words};
pub use running::{answer, program};
pub use streams::Streams;
