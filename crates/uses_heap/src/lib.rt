//! How a program uses the heap, by examples: its calls as a caller writes them, and what their contracts tell it.
//!
//! # What is proved
//!
//! A word that is stored into a new object and loaded again is that word (`store_and_load`), and so it is after a whole cycle
//! (`keep_through_cycle`), by the laws of `heap_core`. What each made of the heap are its calls, line by line (`AreLines`).
#![tactic(auto)]

mod cycle;
mod first_run;

pub use cycle::keep_through_cycle;
pub use first_run::store_and_load;
