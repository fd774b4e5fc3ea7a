//! The map of the heap: what stands on each page, and the object that a word points into. This crate decides which words
//! point into which object, exactly and for every word. Of the heap's words it touches the first ones of free cells alone,
//! which make a list of each page's.
//!
//! # What is proved
//!
//! `find` answers for every `u64` the allocated object that the word points into, and `None` exactly where it points into
//! none (`found_in`). The map is also offered as a function from words to objects with its laws (`IsLawful`), each change as a
//! change of that function, and a walk over the objects of a page. Its calls keep the lists of free cells in the memory
//! (`AreListed`): `take` takes the first free cell of a page, and `take_many` one after the other, each of which brings its
//! object (`TakesCells`). `sweep` writes no word, and leaves a page without a list until `link` makes one. `put` answers what
//! is left on the page: its class and kind, whether each cell was allocated before, and whether none is now (`TellsOf`).
#![tactic(auto)]

mod found;
mod large;
mod look;
mod map;
mod page;
mod page_list;
mod walk;

pub use found::{Found, Put, Taken, TakenCells};
pub use look::{object_from, object_in_block};
pub use map::BlockMap;
