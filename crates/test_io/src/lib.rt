//! What tests of scripts share: readers and writers that fail where they are told to, and a script that is run from one to the other.
#![tactic(auto)]

mod fakes;
mod scene;

pub use fakes::{Script, Taken};
pub use scene::Scene;
