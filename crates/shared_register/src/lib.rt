//! A worked example of `history`: a register behind a lock, whose calls say the sentence that `history` is for.
//!
//! # What is proved
//!
//! `call`, and each granted `begin`, `finish` and `collect`, says the headline for a register (`Extends`); `run_to_one_history` runs
//! threads on it, and what they did is one history.
#![tactic(auto)]

mod jobs;
mod register;
mod shared;

pub use jobs::{Job, make_calls, run_all, run_to_one_history, settle};
pub use register::{Call, Register, Reply};
pub use shared::{Collector, Mutator, ReadValue, SharedRegister, open};
