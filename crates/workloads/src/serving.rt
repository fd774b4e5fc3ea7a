//! A workload from the bytes of its lines to the bytes of its replies.
ghost use Rattle.std.specs.Prelude.{◌≡◌, ℕ, ◌+◌, ◌≤◌, List, Some};
ghost use Rattle.words.specs.declared.limits.TheConstants.{MAX_PAGES};
ghost use Rattle.scripts.specs.Ends.{read_faults, write_faults};
ghost use Rattle.workloads.specs.Serving.{ServesWorkload};

use crate::replies::print_replies;
use crate::setting::Setting;
use crate::threads::run_threads;
use crate::workload::Workload;
use final_pause::Gate;
use scripts::{ScriptError, Sink, Source};
use std::sync::Wait;
use std::thread::Threads;

/// Reads a workload, runs it on threads over a heap of its own, and prints the replies: a workload's lines are all read
/// before the first is run, and all are run before the first reply is printed. The first fault ends it, and nothing is tried again.
#[tactic(auto, using(crate::proofs::Served::unread, crate::proofs::Served::reads_nothing))]
pub fn run_workload<Rt: Threads + Wait + Sync, G: Gate, R: Source, W: Sink>(
    setting: &Setting<'_, Rt, G>,
    reader: &mut R,
    writer: &mut W,
) -> Result<(), ScriptError>
    requires some { 1 ≤ setting.now.pages }
    requires most { setting.now.pages ≤ MAX_PAGES }
    ensures serves { (input : List ℕ) → R.remaining reader.old ≡ Some input
        → ServesWorkload setting.now.pages input (R.remaining reader.new) (W.written writer.old) (W.written writer.new) result }
    ensures reader { R.faults reader.new ≡ R.faults reader.old + read_faults result }
    ensures writer { W.faults writer.new ≡ W.faults writer.old + write_faults result }
{
    let workload = Workload::read(setting.alloc, reader)?;
    let Ok(replies) = run_threads(
        setting.rt,
        setting.alloc,
        &workload,
        setting.pages,
        setting.helpers,
        setting.gate,
    ) else {
        return Err(ScriptError::Memory);
    };
    print_replies(&replies, setting.pages, writer)
}
