//! Runs that are written down, in the lines of docs/REPLAY.md: how a line is read, how it is written, and what the
//! checker says of a run.
//!
//! docs/CRATES.md tells the rest: what is proved.
#![tactic(auto)]

mod behind;
mod command;
mod cut;
mod finding;
pub mod laws;
mod line;
mod places;
mod reply;
mod rules;
mod step;
mod told;
mod verdict;
mod writing;

pub use behind::Behind;
pub use command::{address_given, bytes_given, pages_given, places_given};
pub use line::{Line, read_line};
pub use places::Places;
pub use rules::Rule;
pub use told::{first_line, is_comment, told_by};
pub use verdict::{Explained, Judgement, Verdict, explain, judge};
pub use writing::{line_text, reply_text, step_text, wrong_text};
