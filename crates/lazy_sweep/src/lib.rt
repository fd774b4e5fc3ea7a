//! The page table of a heap, and lazy sweeping: which pages are still to be swept after a cycle, and how they are swept, one at a
//! time.
//!
//! A block with an unmarked object is *pending*. Its unmarked objects are allocated still, but not kept: they go when
//! their page is swept, and then it is pending no more.
//!
//! docs/CRATES.md tells the rest: what is kept, who touches what, and what is proved.
#![tactic(auto)]

mod available_pages;
mod page_row;
mod table;

pub use available_pages::AvailablePages;
pub use table::PageTable;
