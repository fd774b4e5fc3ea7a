//! Runs of a heap are written down with what a checker of runs has to be told: each event, its reply, and a hint.
//!
//! The hint comes from questions that are no events. The recorder remembers the bases of the objects that it saw born; after
//! a collection it asks of each whether the heap still keeps it.
//!
//! # What is proved
//!
//! `Recorder::act` is the call of the core (`IsAct`), a line of a legal transcript, and notes where the object of a granted
//! request was born and which objects a collection forgot: with this hint it is what a checker's yes means, as long as the
//! objects were known before; then they are known afterwards, and what a full collection took out is noted, though a hint may
//! leave it out (`IsNoted`). Of a new heap all are known.
#![tactic(auto)]

mod recorder;

pub use recorder::Recorder;
