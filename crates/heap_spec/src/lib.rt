//! What the sequential heap is: its calls, events and replies here, and in `specs/` the definitions that say
//! what each call may answer and how it changes the heap. No code of the heap lives here.
//!
//! A reader takes `Layout`, `Heap`, `Room`, `Steps`, `Closure`, `Runs` and `Cycles` first, then `Histories` and
//! `Transcripts`. `Shapes`, `Ranges`, `Replies` and `SequentialObject` are what contracts of other crates cite, and
//! `Sound` and `Laws` say what holds of it all.
//!
//! docs/CRATES.md tells the rest: what is proved.
#![tactic(auto)]

pub mod answers;
mod call;
mod event;
pub mod laws;
mod reply;

pub use call::Call;
pub use event::Event;
pub use reply::Reply;
