//! The lines that a command writes.
ghost use Rattle.std.specs.Prelude.{◌∷◌, [], IfErr, OnOk, string_bytes};
ghost use Rattle.std.specs.Io.KnownBytes.{Appends};
ghost use Rattle.scripts.specs.Turns.{text_of};
ghost use Rattle.programs.specs.Faults.{IsRefusal};

use crate::fault::Fault;
use scripts::{Sink, write_all};

/// Writes a line, and a newline behind it.
pub fn put_line<W: Sink>(out: &mut W, line: String) -> Result<(), Fault>
    ensures ok { OnOk result (Appends (W.written out.old) (W.written out.new) (text_of (string_bytes line ∷ []))) }
    ensures fault { IfErr result IsRefusal }
{
    let mut line = line;
    let Ok(()) = line.push_str("\n") else {
        return Err(Fault::Memory);
    };
    match write_all(out, line.as_str().as_bytes()) {
        Ok(()) => Ok(()),
        Err(_) => Err(Fault::Write),
    }
}
