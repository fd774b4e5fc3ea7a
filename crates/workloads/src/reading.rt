//! The lines of a workload, one after another.
ghost use Rattle.std.specs.Prelude.{◌≡◌, ℕ, ◌+◌, List, [], Some};
ghost use Rattle.scripts.specs.Ends.{read_faults, write_faults};
ghost use Rattle.workloads.specs.Taking.{no_lines, answered};
ghost use Rattle.workloads.specs.Reading.{ReadsWorkload};

use crate::workload::Workload;
use arrayvec::ArrayVec;
use scripts::limits::{LAST_LINE, LINE_BYTES};
use scripts::{InputBuffer, LineRead, ScriptError, Source, next_line};
use std::alloc::Global;

/// Reads the lines of a reader into a new workload.
pub(crate) fn read_lines<R: Source>(
    alloc: Global,
    workload: &mut Workload,
    buffer: &mut InputBuffer,
    reader: &mut R,
) -> Result<(), ScriptError>
    requires new { workload.old ≡ no_lines }
    requires empty { buffer.old ≡ [] }
    ensures reads { (input : List ℕ) → R.remaining reader.old ≡ Some input → ReadsWorkload input (R.remaining reader.new) (answered result workload.new) }
    ensures faults { R.faults reader.new ≡ R.faults reader.old + read_faults result }
    ensures writes_nothing { write_faults result ≡ 0 }
{
    let mut line = ArrayVec::<u8, LINE_BYTES>::new();
    for number in 1..LAST_LINE {
        let found = match next_line(buffer, reader, &mut line) {
            Ok(found) => found,
            Err(_) => return Err(ScriptError::Read),
        };
        match found {
            LineRead::End => return Ok(()),
            LineRead::TooLong => return Err(ScriptError::BadLine(number)),
            LineRead::Last => return workload.take_line(alloc, number, line.as_slice()),
            LineRead::Line => {}
        }
        match workload.take_line(alloc, number, line.as_slice()) {
            Ok(()) => {}
            Err(fault) => return Err(fault),
        }
    }
    let after = match next_line(buffer, reader, &mut line) {
        Ok(after) => after,
        Err(_) => return Err(ScriptError::Read),
    };
    match after {
        LineRead::End => Ok(()),
        _ => Err(ScriptError::BadLine(LAST_LINE)),
    }
}
