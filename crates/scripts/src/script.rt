//! Scripts over a heap of their own: each line is read, run and answered before the next.
ghost use Rattle.std.specs.Prelude.{◌≡◌, ℕ, ◌+◌, ◌≤◌, List, [], Some, Err};
ghost use Rattle.words.specs.declared.limits.TheConstants.{MAX_PAGES};
ghost use Rattle.heap_core.specs.Opening.{IsNew};
ghost use Rattle.scripts.specs.declared.errors.ScriptError.TheVariants.{Read, Write, Memory};
ghost use Rattle.scripts.specs.Answers.{Serves, AnswersBytes};
ghost use Rattle.scripts.specs.Ends.{read_faults, write_faults};

use crate::answer::answer_line;
use crate::errors::ScriptError;
use crate::input_buffer::InputBuffer;
use crate::limits::{LAST_LINE, LINE_BYTES};
use crate::line::{LineRead, next_line};
use crate::source::{Sink, Source};
use crate::std_io::Std;
use arrayvec::ArrayVec;
use heap_core::Core;
use std::alloc::Global;

// Runs the lines of a reader over a new core.
fn run_lines<R: Source, W: Sink>(
    core: &mut Core,
    buffer: &mut InputBuffer,
    reader: &mut R,
    writer: &mut W,
    pages: u32,
) -> Result<(), ScriptError>
    requires pages { pages ≤ MAX_PAGES }
    requires new { IsNew pages core.old }
    requires empty { buffer.old ≡ [] }
    ensures serves { (input : List ℕ) → R.remaining reader.old ≡ Some input
        → Serves pages input (R.remaining reader.new) (W.written writer.old) (W.written writer.new) result }
    ensures reader { R.faults reader.new ≡ R.faults reader.old + read_faults result }
    ensures writer { W.faults writer.new ≡ W.faults writer.old + write_faults result }
{
    let mut line = ArrayVec::<u8, LINE_BYTES>::new();
    for number in 1..LAST_LINE {
        let found = match next_line(buffer, reader, &mut line) {
            Ok(found) => found,
            Err(_) => return Err(ScriptError::Read),
        };
        match found {
            LineRead::End => return Ok(()),
            LineRead::TooLong => return Err(ScriptError::BadLine(number)),
            LineRead::Last => return answer_line(core, pages, number, line.as_slice(), writer),
            LineRead::Line => {}
        }
        match answer_line(core, pages, number, line.as_slice(), writer) {
            Ok(()) => {}
            Err(fault) => return Err(fault),
        }
    }
    let after = match next_line(buffer, reader, &mut line) {
        Ok(after) => after,
        Err(_) => return Err(ScriptError::Read),
    };
    match after {
        LineRead::End => Ok(()),
        _ => Err(ScriptError::BadLine(LAST_LINE)),
    }
}

/// Runs a script over a heap of its own of so many pages, and answers each line before the next is run. The first fault
/// ends it, and nothing is tried again.
///
/// # Errors
/// [`ScriptError::BadLine`] once the lines before it are answered, [`ScriptError::Read`] once the complete lines that were
/// read are, [`ScriptError::Write`] at the first call of the writer that fails, in the middle of a reply too, and
/// [`ScriptError::Memory`] before anything is read.
pub fn run_script<R: Source, W: Sink>(
    alloc: Global,
    reader: &mut R,
    writer: &mut W,
    pages: u32,
) -> Result<(), ScriptError>
    requires some { 1 ≤ pages }
    requires most { pages ≤ MAX_PAGES }
    // What is written answers what is read, wherever the reader tells its bytes.
    ensures serves { (input : List ℕ) → R.remaining reader.old ≡ Some input
        → Serves pages input (R.remaining reader.new) (W.written writer.old) (W.written writer.new) result }
    ensures reader { R.faults reader.new ≡ R.faults reader.old + read_faults result }
    ensures writer { W.faults writer.new ≡ W.faults writer.old + write_faults result }
{
    let Ok(mut core) = Core::new(alloc, pages) else {
        return Err(ScriptError::Memory);
    };
    let Ok(mut buffer) = InputBuffer::new(alloc) else {
        return Err(ScriptError::Memory);
    };
    run_lines(&mut core, &mut buffer, reader, writer, pages)
}

// The answer where replies go into a vector: it takes all bytes, unless it gets no memory.
fn in_memory(answer: Result<(), ScriptError>) -> Result<(), ScriptError>
    ensures write { answer ≡ Err Write → result ≡ Err Memory }
    ensures other { (answer ≡ Err Write → ⊥) → result ≡ answer }
{
    match answer {
        Err(ScriptError::Write) => Err(ScriptError::Memory),
        answer => answer,
    }
}

/// Runs a script that is at hand as bytes, and gives the bytes of its replies beside the answer.
///
/// # Errors
/// [`ScriptError::BadLine`] beside the replies to the lines before it, and [`ScriptError::Memory`] beside a beginning of the
/// replies: memory was refused to the heap, or to the replies at whichever line. No read and no write fails.
pub fn run_bytes(alloc: Global, script: &[u8], pages: u32) -> (Vec<u8>, Result<(), ScriptError>)
    requires some { 1 ≤ pages }
    requires most { pages ≤ MAX_PAGES }
    ensures answers { AnswersBytes pages script.now result.0.items result.1 }
    ensures no_read_fault { result.1 ≡ Err Read → ⊥ }
    ensures no_write_fault { result.1 ≡ Err Write → ⊥ }
{
    let mut reader = script;
    let mut writer = Std::new(Vec::<u8>::new(alloc));
    let answer = run_script(alloc, &mut reader, &mut writer, pages);
    (writer.inner, in_memory(answer))
}
