//! The roots of a heap: the registers and stacks of its mutators, and its globals. The calls of mutators that touch
//! nothing else stand here. This crate touches no object, and takes memory where roots are made alone.
//!
//! # What is proved
//!
//! Whatever else a heap has, each call is a step of it (`StepsRoots`). `write_words` gives the root words in their order.
//! `root_into` tells a root that points into an object, if one does (`RootsHave`).
#![tactic(auto)]

mod finding;
mod mutator;
mod mutator_slot;
mod root_words;
mod roots;

pub use finding::{Root, first_into};
pub use mutator::Mutator;
pub use root_words::RootWords;
pub use roots::Roots;
