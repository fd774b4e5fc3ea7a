//! A checker of runs: told an event, its reply and a hint, it says whether a sequential heap may have answered so, and goes
//! on from the heap after it. A yes is proved to be a line of a legal transcript, and a no that there is none for this
//! hint. It has objects, roots, globals, the phase and two counts, and no mark, dirty page or block of a collector.
//!
//! While a cycle marks it has a flag of each object that was touched since the cycle began, so that the end of the cycle has to
//! forget all others. A cycle that begins with the marks of the last one touches the old objects first, those that were born
//! before the last collection: so it has a flag of each of these too.
//!
//! docs/CRATES.md tells the rest: what is proved.
#![tactic(auto)]

mod anywhere;
mod blaming;
mod collector;
mod expecting;
mod flags;
mod hint;
pub mod laws;
mod looking;
mod replayer;
mod request;
mod said;

pub use hint::Hint;
pub use replayer::Replayer;
