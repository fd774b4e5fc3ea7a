//! Why the program ends with a status that isn't 0, and what it says of it.
ghost use Rattle.std.specs.Prelude.{◌≡◌, ◌+◌, ◌<◌, ℕ, length, take, OnOk, OnErr, ◌⊎◌};
ghost use Rattle.std.specs.IoError.{error_kind};
ghost use Rattle.std.specs.declared.io.ErrorKind.TheVariants.{OutOfMemory};
ghost use Rattle.std.specs.Io.KnownBytes.{Appends};
ghost use Rattle.scripts.specs.declared.limits.TheConstants.{REPLY_BYTES};
ghost use Rattle.programs.specs.declared.fault.Fault.TheVariants.{Read, WriteFile, Memory};
ghost use Rattle.programs.specs.Faults.{fault_of, status_of, fault_text, fault_line};

use arrayvec::ArrayString;
use itoa::Buffer;
use scripts::limits::REPLY_BYTES;
use scripts::{Failed, ScriptError, Sink, write_all};
use std::io::{Error, ErrorKind};

/// Why the program ends with a status that isn't 0.
#[derive(Clone, Copy, Debug, PartialEq, Eq)]
pub enum Fault {
    /// The words are of no command, or a number is out of its range.
    BadCommand,

    /// The line of this number is bad.
    BadLine(u64),

    /// A read or an open failed.
    Read,

    /// A write of the output failed.
    Write,

    /// A write of a file that the words name failed.
    WriteFile,

    /// The checker says no to a history that was to be written down, which it never does of what threads were answered.
    NoRun,

    /// Memory was refused.
    Memory,
}

impl Fault {
    /// What ends a script, or a workload, as the program's fault.
    pub fn of(error: ScriptError) -> Fault
        ensures { result ≡ fault_of error }
    {
        match error {
            ScriptError::BadLine(n) => Fault::BadLine(n),
            ScriptError::Read => Fault::Read,
            ScriptError::Write => Fault::Write,
            ScriptError::Memory => Fault::Memory,
        }
    }

    /// What an open or a read of a file that failed is to the program: only where memory was refused it isn't a read fault.
    pub fn of_read(error: &Error) -> Fault
        ensures memory { error_kind error.now ≡ OutOfMemory → result ≡ Memory }
        ensures read { (error_kind error.now ≡ OutOfMemory → ⊥) → result ≡ Read }
        ensures either { (result ≡ Read) ⊎ (result ≡ Memory) }
    {
        if error.kind() == ErrorKind::OutOfMemory {
            Fault::Memory
        } else {
            Fault::Read
        }
    }

    /// What a write of a file that failed is to the program: only where memory was refused it isn't a write fault.
    pub fn of_write(error: &Error) -> Fault
        ensures memory { error_kind error.now ≡ OutOfMemory → result ≡ Memory }
        ensures write { (error_kind error.now ≡ OutOfMemory → ⊥) → result ≡ WriteFile }
        ensures either { (result ≡ WriteFile) ⊎ (result ≡ Memory) }
    {
        if error.kind() != ErrorKind::OutOfMemory {
            return Fault::WriteFile;
        }
        Fault::Memory
    }

    /// The status with which the program ends.
    pub fn status(self) -> u8
        ensures { result ≡ status_of self }
    {
        match self {
            Fault::BadCommand | Fault::BadLine(_) => 2,
            Fault::Read | Fault::Write | Fault::WriteFile | Fault::NoRun | Fault::Memory => 1,
        }
    }

    // Puts its text in the place of what was there.
    fn put_text(self, text: &mut ArrayString<REPLY_BYTES>)
        ensures text { text.new.bytes ≡ fault_text self }
        ensures room { length text.new.bytes < REPLY_BYTES }
    {
        text.clear();
        match self {
            Fault::BadCommand => text.push_str("bad command"),
            Fault::BadLine(n) => {
                let mut number = Buffer::new();
                text.push_str("bad line ");
                text.push_str(number.format(n));
            }
            Fault::Read => text.push_str("read fault"),
            Fault::Write | Fault::WriteFile => text.push_str("write fault"),
            Fault::NoRun => text.push_str("no legal run"),
            Fault::Memory => text.push_str("no memory"),
        }
    }

    /// Writes its line.
    pub fn tell<E: Sink>(self, errors: &mut E) -> Result<(), Failed>
        ensures ok { OnOk result (Appends (E.written errors.old) (E.written errors.new) (fault_line self)) }
        ensures err { OnErr result ((n : ℕ) × Appends (E.written errors.old) (E.written errors.new) (take n (fault_line self))) }
        ensures none { OnOk result (E.faults errors.new ≡ E.faults errors.old) }
        ensures fault { OnErr result (E.faults errors.new ≡ E.faults errors.old + 1) }
    {
        let mut text = ArrayString::<REPLY_BYTES>::new();
        self.put_text(&mut text);
        text.push('\n');
        write_all(errors, text.as_str().as_bytes())
    }
}
