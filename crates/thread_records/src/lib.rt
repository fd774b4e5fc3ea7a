//! The one history that threads made, in the lines of docs/REPLAY.md.
//!
//! # What is proved
//!
//! `lines_of` answers a line for each entry of a journal, in its order: the entry's command, its reply and a hint, after the checker
//! itself said yes to the three. So the lines are those of a run from a new heap on, each from where the one before led
//! (`AreLines`); where it says no to an entry, this has no line behind those before it (`HaveNoLines`). `run_written` runs a workload on threads, and its lines are those of the one history that explains all replies
//! (`AreWritten`). `text_of` is the lines' text.
#![tactic(auto)]

mod joining;
mod lines;
mod running;

pub use joining::text_of;
pub use lines::{RecordError, lines_of};
pub use running::run_written;
