//! A run of a heap, line by line, as records of a trace: what a line changed is asked of the core and of the checker
//! beside it.
//!
//! What only a collector knows (marks, dirty, carried and pending pages, entries) comes from the core; what is true
//! (which objects are there, reached and touched, and the words) from the checker, which is told the same events,
//! replies and hints. Each question is no event. The same without a core shows a run that was written down.
//!
//! docs/CRATES.md tells the rest: what is proved.
#![tactic(auto)]

mod changes;
mod comings;
mod heap_words;
mod knowledge;
mod leaving;
mod looked;
mod places;
mod roots_changed;
mod seen;
mod sets;
mod stacks;
mod telling;
mod told;
mod tracer;
mod truth;
mod words_read;

pub use places::place_of;
pub use tracer::Tracer;
