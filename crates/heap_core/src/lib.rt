//! The core of a heap on one thread: its roots, the objects on its pages, and its collector. Each call of a mutator is one
//! step of the sequential heap, and each call of the collector begins, goes on with or ends a cycle. Once a core is made no
//! call takes memory or waits, but for `close_with`, which starts helpers and joins them.
//!
//! docs/CRATES.md tells the rest: what is proved.
#![tactic(auto)]

mod heap;
pub mod laws;
mod object;
pub mod quiet;
mod ranges;

pub use heap::many::Request;
pub use heap::shares::{NotLent, Shares};
pub use heap::{Core, Limits};
