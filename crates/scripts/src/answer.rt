//! A line is run, and its reply is written.
ghost use Rattle.std.specs.Prelude.{◌≡◌, ◌+◌, ◌≤◌, length};
ghost use Rattle.words.specs.declared.limits.TheConstants.{MAX_PAGES};
ghost use Rattle.scripts.specs.declared.limits.TheConstants.{LINE_BYTES};
ghost use Rattle.scripts.specs.Ends.{read_faults, write_faults};
ghost use Rattle.scripts.specs.Turns.{IsTurn};

use crate::commands::command;
use crate::errors::ScriptError;
use crate::print::print_reply;
use crate::source::Sink;
use heap_core::Core;

/// Runs the line of this number, and writes its reply.
pub(crate) fn answer_line<W: Sink>(
    core: &mut Core,
    pages: u32,
    number: u64,
    line: &[u8],
    sink: &mut W,
) -> Result<(), ScriptError>
    requires pages { pages ≤ MAX_PAGES }
    requires short { length line.now ≤ LINE_BYTES }
    ensures turn { IsTurn pages number line.now core.old core.new (W.written sink.old) (W.written sink.new) result }
    ensures reads_nothing { read_faults result ≡ 0 }
    ensures faults { W.faults sink.new ≡ W.faults sink.old + write_faults result }
{
    let Some(command) = command(line) else {
        return Err(ScriptError::BadLine(number));
    };
    let reply = core.act(command);
    core.laws();
    match print_reply(sink, pages, reply) {
        Ok(()) => Ok(()),
        Err(_) => Err(ScriptError::Write),
    }
}
