//! Random scripts, from a seed to the bytes that are written.
ghost use Rattle.std.specs.Prelude.{◌≡◌, ◌+◌, ◌≤◌};
ghost use Rattle.words.specs.declared.limits.TheConstants.{SLOTS};
ghost use Rattle.workloads.specs.declared.limits.TheConstants.{MAX_STEPS};
ghost use Rattle.workloads.specs.Stress.{stress_text};
ghost use Rattle.scripts.specs.Ends.{write_faults};
ghost use Rattle.workloads.specs.Writing.{IsWrittenAs};

use crate::stress::make_stress;
use scripts::{ScriptError, Sink, write_all};
use std::alloc::Global;

/// Writes the random script of a seed, of so many mutators and so many lines behind their attaches. Nothing is tried again.
pub fn write_stress<W: Sink>(
    alloc: Global,
    writer: &mut W,
    seed: u64,
    mutators: u8,
    steps: u32,
) -> Result<(), ScriptError>
    requires some { 1 ≤ mutators }
    requires most { mutators ≤ SLOTS }
    requires steps { steps ≤ MAX_STEPS }
    ensures written { IsWrittenAs (stress_text seed mutators steps) (W.written writer.old) (W.written writer.new) result }
    ensures faults { W.faults writer.new ≡ W.faults writer.old + write_faults result }
{
    let Ok(text) = make_stress(alloc, seed, mutators, steps) else {
        return Err(ScriptError::Memory);
    };
    match write_all(writer, text.as_slice()) {
        Ok(()) => Ok(()),
        Err(_) => Err(ScriptError::Write),
    }
}
