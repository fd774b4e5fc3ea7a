//! Histories of the heap: what each event is to a history, what a pass of the heap knows, the headline for heaps in `specs/`, and the laws
//! that follow from it. No code of the heap lives here.
//!
//! docs/CRATES.md tells the rest: what is proved.
#![tactic(auto)]

pub mod laws;
