//! A heap that is plain: one row of words, a directory that says which object lies where, and nothing of blocks, marks or
//! dirty pages. It takes memory when it is made and never again, and has no thread, lock or atomic word.
//!
//! docs/CRATES.md tells the rest: what is proved.
#![tactic(auto)]

mod along;
mod claims;
mod directory;
mod extent;
mod flags;
mod fresh;
mod given_place;
mod keepers;
mod listing;
mod owners;
mod page_scan;
mod parting;
mod paths;
mod places;
mod plain;
mod reach;
mod wrongs;

pub use extent::Extent;
pub use keepers::Keeper;
pub use paths::PathStep;
pub use plain::PlainHeap;
pub use plain::laws::births_are_alone;
pub use wrongs::Wrong;
