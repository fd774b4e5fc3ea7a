//! The objects of a heap: their words, the pages that they lie on, which of these are free, and which are still to be
//! swept after a cycle.
//!
//! docs/CRATES.md tells the rest: what is kept, who touches what, and what is proved.
#![tactic(auto)]

mod space;

pub use space::ObjectSpace;
