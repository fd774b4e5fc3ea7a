//! A run of a workload whose history is written down.
ghost use Rattle.std.specs.Prelude.{◌≤◌, IfOk, map, string_bytes};
ghost use Rattle.words.specs.declared.limits.TheConstants.{MAX_PAGES};
ghost use Rattle.thread_records.specs.Records.{AreWritten};

use crate::lines::{RecordError, lines_of};
use final_pause::Gate;
use std::sync::Wait;
use std::thread::Threads;
use workloads::{Replies, Setting, Workload, run_recorded};

/// Runs a workload on a heap of its own, as `run_threads` of `workloads` does, and answers the replies, and the one
/// history that explains them as lines.
///
/// # Errors
/// [`RecordError::Memory`] where memory, a mutator's slot or a thread could not be had, and [`RecordError::Refused`] if the checker says
/// no.
pub fn run_written<R: Threads + Wait + Sync, G: Gate>(
    setting: &Setting<'_, R, G>,
    workload: &Workload,
) -> Result<(Replies, Vec<String>), RecordError>
    requires some { 1 ≤ setting.now.pages }
    requires most { setting.now.pages ≤ MAX_PAGES }
    ensures { IfOk result (λ run. AreWritten setting.now.pages workload.now run.0 (map string_bytes run.1.items)) }
{
    let Ok((replies, entries)) = run_recorded(setting, workload) else {
        return Err(RecordError::Memory);
    };
    let lines = lines_of(setting.alloc, setting.pages, entries.as_slice())?;
    Ok((replies, lines))
}
