//! Workloads: scripts for threads, with a list of lines for each actor. How one is read, how it is run, how its replies are printed, and
//! random ones.
//!
//! # What is proved
//!
//! `Workload::read` gives the lists of the lines of each actor, or the first line that breaks a rule of workloads.
//! `run_threads` runs them over `shared`, each actor in a thread of its own, and there is one legal history of a heap of
//! these pages in which each actor's lines with their replies are its part (`HaveOneHistory`); `run_recorded` answers this history besides (`Explains`). `print_replies` writes exactly
//! the text of its replies, or after a write fault a beginning of it; `run_workload` is all three, from bytes to bytes
//! (`ServesWorkload`). `make_stress` gives random scripts, the table of draws over the words of `rand_pcg`'s generator byte
//! for byte, and each is a workload (`stress_is_workload`). `write_stress` writes exactly its bytes, or after a write fault a
//! beginning of them (`IsWrittenAs`).
#![tactic(auto)]

mod collector_job;
mod draw;
pub mod laws;
pub mod limits;
mod lines;
mod mutator_job;
mod random;
mod reading;
mod replies;
mod serving;
mod setting;
mod settling;
mod stress;
mod threads;
mod workload;
mod written_commands;

pub use lines::Lines;
pub use random::write_stress;
pub use replies::{Replies, print_replies};
pub use serving::run_workload;
pub use setting::Setting;
pub use stress::make_stress;
pub use threads::{run_recorded, run_threads};
pub use words::RunError;
pub use workload::Workload;
pub use written_commands::put_command;
