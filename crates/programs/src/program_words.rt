//! The words that a program is given.
ghost use Rattle.std.specs.Prelude.{◌≡◌, ◌⊎◌, IfErr};
ghost use Rattle.programs.specs.declared.fault.Fault.TheVariants.{BadCommand, Memory};

use crate::fault::Fault;
use std::rt::Env;
use std::{env, io};

// Why a program doesn't get its words: memory was refused, or one of them isn't UTF-8.
fn unread(error: &io::Error) -> Fault
    ensures { (result ≡ Memory) ⊎ (result ≡ BadCommand) }
{
    if error.kind() == io::ErrorKind::OutOfMemory {
        Fault::Memory
    } else {
        Fault::BadCommand
    }
}

/// The words that the program is given, without its own name.
pub fn own_words<R: Env + AllocGlobal>(rt: &R) -> Result<Vec<String>, Fault>
    ensures { IfErr result (λ fault. (fault ≡ Memory) ⊎ (fault ≡ BadCommand)) }
{
    let all = match env::args(rt) {
        Ok(all) => all,
        Err(error) => return Err(unread(&error)),
    };
    match all.skip(1).collect::<Vec<String>>(rt.alloc()) {
        Ok(own) => Ok(own),
        Err(_) => Err(Fault::Memory),
    }
}
