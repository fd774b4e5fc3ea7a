//! Pages that are cut into cells, and the heads of large objects. A block knows where its cells lie in a page, which of
//! them are allocated, and where the list of its free cells begins; each call that takes or gives back a cell is told its
//! page, and lent the memory in which the list stands. Of the memory only the first words of free cells are touched. A block
//! that was only told what died has no list until one is asked for (`UNLISTED`): for that a row of bits suffices.
//!
//! docs/CRATES.md tells the rest: what is proved.
#![tactic(auto)]

mod block;
mod cells;
mod large;
mod linking;
mod list;
mod reciprocal;
mod starts;

pub use block::Block;
pub use large::LargeHead;
pub use list::{LIST_END, UNLISTED};
