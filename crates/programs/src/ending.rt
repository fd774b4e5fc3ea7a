//! How the program ends.
ghost use Rattle.std.specs.Prelude.{◌≡◌, IfOk, IfErr, OnOk};
ghost use Rattle.std.specs.Io.KnownBytes.{Appends};
ghost use Rattle.programs.specs.declared.fault.Fault.TheVariants.{BadCommand};
ghost use Rattle.programs.specs.Faults.{EndsBy, Ends, status_of};

use crate::fault::Fault;
use scripts::{Sink, write_all};

// Ends with a fault, whose line is told.
fn end_by<E: Sink>(fault: Fault, errors: &mut E) -> u8
    ensures { EndsBy fault result (E.written errors.old) (E.written errors.new) (E.faults errors.old) (E.faults errors.new) }
{
    let status = fault.status();
    match fault.tell(errors) {
        Ok(()) => status,
        Err(_) => status,
    }
}

/// The status with which the program ends, after a fault is told. A fault of `errors` changes nothing, and nothing is tried again.
pub fn end<E: Sink>(answer: Result<(), Fault>, errors: &mut E) -> u8
    ensures { Ends answer result (E.written errors.old) (E.written errors.new) (E.faults errors.old) (E.faults errors.new) }
{
    match answer {
        Ok(()) => 0,
        Err(fault) => end_by(fault, errors),
    }
}

/// The status of a command that answers one of its own, after a fault is told: of bad words, how the command is used.
pub fn end_with_usage<E: Sink>(answer: Result<u8, Fault>, usage: &str, errors: &mut E) -> u8
    ensures own { IfOk answer (λ status. result ≡ status) }
    ensures silent { OnOk answer (errors.new ≡ errors.old) }
    ensures fault { IfErr answer (λ fault. result ≡ status_of fault) }
    ensures told { IfErr answer (λ fault. (fault ≡ BadCommand → ⊥) → EndsBy fault result (E.written errors.old) (E.written errors.new) (E.faults errors.old) (E.faults errors.new)) }
    ensures usage { IfErr answer (λ fault. fault ≡ BadCommand → E.faults errors.new ≡ E.faults errors.old → Appends (E.written errors.old) (E.written errors.new) usage.now) }
{
    match answer {
        Ok(status) => status,
        Err(Fault::BadCommand) => {
            let _ = write_all(errors, usage.as_bytes());
            Fault::BadCommand.status()
        }
        Err(fault) => end_by(fault, errors),
    }
}
