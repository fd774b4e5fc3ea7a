//! How workloads run.
use final_pause::Helpers;
use std::alloc::Global;

/// How a workload runs: on which threads, over a heap of how many pages, and how its calls and its pauses go.
#[derive(Drop)]
pub struct Setting<'a, R, G> {
    /// What starts the threads, and by what they wait.
    pub rt: &'a R,

    /// Where memory is taken.
    pub alloc: Global,

    /// The pages of the heap, which is the run's own.
    pub pages: u32,

    /// How many helpers end a cycle.
    pub helpers: Helpers,

    /// What is asked before and after each call of an actor.
    pub gate: &'a G,
}
