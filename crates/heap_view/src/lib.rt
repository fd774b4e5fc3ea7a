//! What a map and a memory show of the sequential heap.
//!
//! The marker sees objects as what the block map finds, and words as the memory's. The sequential heap has objects
//! with births and words of their own. Over any heap that map and memory show, the closure that the marker computes is
//! the heap's own: the two hold the same objects. Only definitions and laws live here.
//!
//! # What is proved
//!
//! `ShowsObjects` says which objects map and memory show; their births they don't keep. Over each heap with these objects the
//! marker's closure is the heap's `Closure`, both ways: from births (`closures_agree`) and from marks
//! (`marked_closures_agree`).
#![tactic(auto)]

mod laws;

pub use laws::{closures_agree, marked_closures_agree};
