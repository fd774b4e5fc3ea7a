//! Lines of a trace: one JSON object of what a line of a run changed, in the format of docs/TRACE.md. This crate knows
//! numbers and texts alone: what they are of is its caller's.
//!
//! # What is proved
//!
//! `record_line` is the bytes of a command, its reply and what is different after it (`record_text`), `refused_line`
//! those of a line that is refused and of what is said against it (`refused_text`), `head_line` those of the first line
//! (`head_text`): each key stands exactly where something changed, numbers from 2^53 on are quoted, and nothing else is
//! written. That texts hold no character that JSON would write otherwise is the caller's word.
#![tactic(auto)]

mod keys;
mod line;
mod record;
mod rows;
mod shown;

pub use line::{head_line, record_line, refused_line};
pub use record::{
    Current, CycleChanges, EntriesChange, EntryAt, LinkChange, NewObject, Numbered, ObjectChanges,
    Objection, Reads, Record, RegisterWord, SetChange, SetChanges, StackChange, WordChanges,
    WordRun,
};
