//! The law of random scripts. It is a function that does nothing, and its contract is the law.
ghost use Rattle.workloads.specs.Laws.{StressIsWorkload};

/// Every random script is a good script, and a workload.
pub fn stress_is_workload()
    ensures { StressIsWorkload }
{}
