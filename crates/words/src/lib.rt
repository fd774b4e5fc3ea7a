//! The words of the heap: its limits, the small numbers that name its parts, size classes, refusals, why a heap isn't opened or
//! a run not made, and rows of bits. This crate stands on nothing and touches no memory of the heap.
//!
//! # What is proved
//!
//! Contracts see a class as its words and a row as the list of its bits; the five of `laws` make a row a set. `class_of` is the
//! table of size classes, exactly (`placement_of`); `next` and `next_clear` find the least place, and `None` exactly where there
//! is none; `count` is the number of bits between two places (`members_between`); `keep` leaves of a page's row the members of a
//! part of another.
#![tactic(auto)]

mod bit_row;
mod class;
mod count;
mod granule_row;
pub mod laws;
mod layout;
pub mod limits;
mod numbers;
mod refusal;
mod scan;

pub use bit_row::{BitRow, clear_first};
pub use class::{CLASSES, Class, Kind, Placement, class_of, class_within};
pub use count::ones_of;
pub use granule_row::GranuleRow;
pub use layout::{granule_of, page_of, page_start};
pub use limits::PageNo;
pub use numbers::{Global, Reg, Slot};
pub use refusal::{OpenError, Refusal, RunError};
pub use scan::first_in;
