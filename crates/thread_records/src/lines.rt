//! Lines of entries, to which a checker said yes.
ghost use Rattle.std.specs.Prelude.{◌≡◌, ◌≤◌, IfOk, IfErr, map, string_bytes};
ghost use Rattle.words.specs.declared.limits.TheConstants.{FIRST_ADDRESS, MAX_PAGES};
ghost use Rattle.heap_spec.specs.Runs.{Run, opening_start};
ghost use Rattle.thread_records.specs.declared.lines.RecordError.TheVariants.{Refused};
ghost use Rattle.thread_records.specs.Records.{TellsNote, Writes, WritesNone, AreLines, HaveNoLines};

use arrayvec::ArrayString;
use replayer::{Hint, Replayer};
use scripts::limits::LINE_BYTES;
use shared::{Entry, Note};
use std::alloc::Global;
use workloads::put_command;
use written_runs::line_text;

/// Why a history can't be written down.
#[derive(Clone, Copy, Debug, PartialEq, Eq)]
pub enum RecordError {
    /// The checker said no, which it never does of what threads were answered.
    Refused,

    /// Memory was refused.
    Memory,
}

// What was noted, as a hint.
fn hint_of(note: &Note) -> Hint<'_>
    ensures { TellsNote note.now result }
{
    match note {
        Note::Nothing => Hint::Nothing,
        Note::Place(base) => Hint::Place(*base),
        Note::Gone(bases) => Hint::Forgot(bases.as_slice()),
    }
}

// The line of an entry, if the checker goes on by it.
fn line_of(alloc: Global, replayer: &mut Replayer, entry: &Entry) -> Result<String, RecordError>
    ensures line { IfOk result (λ line. Writes replayer.old entry.now (string_bytes line) replayer.new) }
    ensures refused { IfErr result (λ error. error ≡ Refused → replayer.old.heap.origin ≡ FIRST_ADDRESS → WritesNone replayer.old entry.now) }
    ensures origin { replayer.new.heap.origin ≡ replayer.old.heap.origin }
{
    let hint = hint_of(&entry.note);
    if !replayer.step(&entry.call, &entry.reply, hint) {
        return Err(RecordError::Refused);
    }
    let mut command = ArrayString::<LINE_BYTES>::new();
    put_command(&mut command, entry.call);
    let Ok(line) = line_text(alloc, command.as_str(), &entry.reply, hint) else {
        return Err(RecordError::Memory);
    };
    Ok(line)
}

/// The lines of entries, of a heap of so many pages.
///
/// # Errors
/// [`RecordError::Refused`] where an entry has no line behind those before it, and [`RecordError::Memory`] where memory is refused.
// The checker lies in this frame, and not in that of who runs the threads.
#[inline(never)]
pub fn lines_of(alloc: Global, pages: u32, entries: &[Entry]) -> Result<Vec<String>, RecordError>
    requires some { 1 ≤ pages }
    requires most { pages ≤ MAX_PAGES }
    ensures lines { IfOk result (λ lines. (last : Run) × AreLines (opening_start pages) entries.now (map string_bytes lines.items) last) }
    ensures refused { IfErr result (λ error. error ≡ Refused → HaveNoLines (opening_start pages) entries.now) }
{
    let Ok(mut replayer) = Replayer::new(alloc, pages) else {
        return Err(RecordError::Memory);
    };
    let mut lines = Vec::new(alloc);
    for entry in entries {
        let line = match line_of(alloc, &mut replayer, entry) {
            Ok(line) => line,
            Err(error) => return Err(error),
        };
        let Ok(()) = lines.push(line) else {
            return Err(RecordError::Memory);
        };
    }
    Ok(lines)
}
