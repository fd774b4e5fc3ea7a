//! How mutators and the collector come to have seen one history.
ghost use Rattle.std.specs.Prelude.{◌≡◌};
ghost use mathlib.Core.List.{IsPrefix};
ghost use Rattle.history.specs.Histories.{counted_up};
ghost use Rattle.heap_history.specs.Alone.{attaches};
ghost use Rattle.heap_history.specs.Passes.{IsLegalPass};
ghost use Rattle.shared.specs.Journals.{IsOf};
ghost use Rattle.workloads.specs.Actors.{Keeps, AllSettled};

use crate::mutator_job::MutatorJob;
use history::Naming;
use shared::{Collector, Journal, SharedHeap};
use std::sync::Wait;

// The job's mutator and the collector have then seen one history.
fn meet_one<'a, J: Naming, R: Wait>(collector: &mut Collector<J>, job: &mut MutatorJob<'a, J, R>)
    ensures keeps { Keeps job.old.attached job.new.attached × (job.new.calls ≡ job.old.calls) × (job.new.replies ≡ job.old.replies) }
    ensures both { job.new.attached.seen ≡ collector.new.seen }
    ensures collector { Keeps collector.old collector.new }
    ensures grows { IsPrefix collector.old.seen collector.new.seen }
    ensures stays { IsPrefix job.old.attached.seen collector.old.seen → collector.new.seen ≡ collector.old.seen }
    ensures fine { IsLegalPass J.origin job.new.attached }
    ensures collector_fine { IsLegalPass J.origin collector.new }
{
    job.attached.meet(collector);
}

/// After two rounds of meetings all have seen one history: in the first round the collector learns what each mutator has seen, and in
/// the second each learns what the collector has. The answer is how many mutators came in it, and 2^64 - 1 where so many or more did, and its journal.
pub(crate) fn settle<'a, J: Naming, R: Wait>(
    rt: &R,
    heap: &SharedHeap<J>,
    collector: &mut Collector<J>,
    jobs: &mut [MutatorJob<'a, J, R>],
) -> (u64, Journal)
    requires { IsLegalPass J.origin collector.old }
    ensures collector { Keeps collector.old collector.new }
    ensures grows { IsPrefix collector.old.seen collector.new.seen }
    ensures fine { IsLegalPass J.origin collector.new }
    ensures settled { AllSettled J.origin collector.new.seen jobs.old jobs.new }
    ensures came { result.0 ≡ counted_up (attaches collector.new.seen) }
    ensures journal { IsOf result.1 collector.new.seen }
{
    for i in 0..jobs.len() {
        meet_one(collector, &mut jobs[i]);
    }
    // The number and the journal are of the history that all have seen in the end, since the second round shows the collector nothing new.
    let (came, journal) = heap.take_journal(rt, collector);
    for k in 0..jobs.len() {
        meet_one(collector, &mut jobs[k]);
    }
    (came, journal)
}
