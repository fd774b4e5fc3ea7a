//! The marker: it marks what can be reached while mutators go on, and stops whenever it is asked.
//!
//! # The dirty-page invariant
//!
//! While marking, for each word of a marked Normal object: what the word points into is marked, or the word's page is
//! dirty, or an entry with that object's base still has the word to read.
//!
//! docs/CRATES.md tells the rest: what is kept, who touches what, and what is proved.
#![tactic(auto)]

mod count;
mod current;
mod entry;
mod marker;
mod mutators;
mod nearer;
mod part;
mod reread;
mod retrace;
mod run;
mod sharing;
mod spread;
mod stack;
mod step;
mod target;
mod together;
mod whole;

pub use entry::Entry;
pub use marker::Marker;
pub use part::{Part, part_between};
pub use spread::dirty_object;
pub use step::Marked;
