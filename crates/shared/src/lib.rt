//! The heap behind one lock, with one growing history beside it. Threads share the heap by reference, and each holds a [`Mutator`] or the
//! [`Collector`]. Whatever others do between two of its calls, each call gives the reply of the sequential heap at one point of a history
//! that begins with all that the caller had seen and ends with the call.
//!
//! A call takes the lock, learns the history so far, and acts; what it learnt is how it knows that its slot is attached, and in which
//! phase the heap is. `gc_no`, `gc_no_of`, `meet`, `meet_collector`, `hear` and `hear_of` take no lock and wait for nobody. After `open`
//! no call takes memory, but for the helpers of `finish_with`, for what the caller's own work in `quiet` takes, and for the entries of
//! a journal.
//!
//! docs/CRATES.md tells the rest: what is proved.
#![tactic(auto)]

mod calls;
mod coming;
mod cycles;
mod ending;
mod heap;
mod held;
mod journal;
mod meetings;
mod noting;
mod opening;
mod replies;
mod root_calls;
mod tokens;

pub use heap::SharedHeap;
pub use journal::{Entries, Entry, Journal, Note};
pub use opening::open;
pub use tokens::{Collector, Departed, Mutator};
