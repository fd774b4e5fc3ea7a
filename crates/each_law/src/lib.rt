//! Threads for jobs, or an error: one for each of some jobs but the last, which the calling thread does; or one for each, and one more
//! for another job beside them. Each job goes to its thread by value, comes back as its thread left it, and is then what the jobs' law
//! says. Memory for all is taken first; where a thread is refused, no more of the jobs are started (the one beside them is), those that
//! run are joined, and all jobs are dropped.
#![tactic(auto)]

mod beside;
mod law;
mod running;
mod starting;

pub use beside::run_each_beside;
pub use law::Law;
pub use running::run_each;
