//! What is asked after a line.
ghost use Rattle.std.specs.Prelude.{◌≡◌, IfOk, length};
ghost use Rattle.tracing.specs.Seen.{IsBlank, IsSeen};

use crate::knowledge::{Knowledge, known_of};
use crate::truth::{Truth, truth_now};
use heap_core::Core;
use replayer::Replayer;
use std::alloc::{AllocError, Global};

/// What is true after a line, and what the collector knows.
#[derive(Drop)]
pub(crate) struct Seen {
    pub(crate) truth: Truth,
    pub(crate) knowledge: Knowledge,
}

impl Seen {
    /// What is seen of a new heap.
    pub(crate) fn nothing(alloc: Global) -> Seen
        ensures { IsBlank result }
    {
        Seen {
            truth: Truth::of_new_heap(alloc),
            knowledge: Knowledge::nothing(alloc),
        }
    }
}

/// What is seen now of the checker, and of the core if there is one; `flags` is room for a flag of each word.
pub(crate) fn seen_now(
    alloc: Global,
    core: Option<&Core>,
    replayer: &mut Replayer,
    flags: &mut Vec<bool>,
    pages: &[u64],
) -> Result<Seen, AllocError>
    ensures seen { IfOk result (IsSeen core.entry replayer.old (length flags.old.items) pages.now) }
    ensures same { replayer.new ≡ replayer.old }
    ensures size { length flags.new.items ≡ length flags.old.items }
{
    let truth = truth_now(alloc, replayer, flags)?;
    let knowledge = known_of(alloc, core, truth.objects.as_slice(), pages)?;
    Ok(Seen { truth, knowledge })
}
