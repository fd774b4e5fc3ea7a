//! The options of a command line, and the numbers among them.
ghost use Rattle.std.specs.Prelude.{◌≡◌, ◌≤◌, ◌⊎◌, IfOk, IfErr};
ghost use Rattle.words.specs.declared.limits.TheConstants.{MAX_PAGES};
ghost use Rattle.programs.specs.declared.fault.Fault.TheVariants.{BadCommand, Memory};

use crate::fault::Fault;
use clap::error::ErrorKind;
use clap::{Arg, ArgMatches, Command, Error};
use scripts::number_in;
use std::alloc::{AllocError, Global};
use std::convert::AsStr;
use words::limits::MAX_PAGES;

/// A command line without the name of its program, and with no help or version form.
pub fn bare_command<'a>(alloc: Global, name: &'a str) -> Command<'a> {
    Command::new(alloc, name)
        .no_binary_name(true)
        .disable_help_flag(true)
        .disable_version_flag(true)
}

/// An option with a value.
pub fn option<'a>(alloc: Global, name: &'a str) -> Arg<'a> {
    Arg::new(alloc, name).long(name)
}

// A refused parse is that of no command, except out of memory.
fn refused(error: &Error) -> Fault
    ensures { (result ≡ BadCommand) ⊎ (result ≡ Memory) }
{
    if error.kind() == ErrorKind::OutOfMemory {
        Fault::Memory
    } else {
        Fault::BadCommand
    }
}

/// The words that a command line is given, as it reads them.
pub fn words_read<'a, S: AsStr>(
    command: Result<Command<'a>, AllocError>,
    words: &'a [S],
) -> Result<ArgMatches<'a>, Fault>
    ensures { IfErr result (λ fault. (fault ≡ BadCommand) ⊎ (fault ≡ Memory)) }
{
    let Ok(command) = command else {
        return Err(Fault::Memory);
    };
    match command.try_get_matches_from(words) {
        Ok(given) => Ok(given),
        Err(error) => Err(refused(&error)),
    }
}

/// The number that an option is given, which has to lie in this range.
pub fn number_given(
    given: &ArgMatches<'_>,
    option: &str,
    least: u64,
    most: u64,
) -> Result<u64, Fault>
    ensures least { IfOk result (λ n. least ≤ n) }
    ensures most { IfOk result (λ n. n ≤ most) }
    ensures bad { IfErr result (λ fault. fault ≡ BadCommand) }
{
    let text = given.get_str(option).ok_or(Fault::BadCommand)?;
    number_in(text.as_bytes(), least, most).ok_or(Fault::BadCommand)
}

/// The number of pages that a heap is to have.
pub fn pages_given(given: &ArgMatches<'_>) -> Result<u32, Fault>
    ensures some { IfOk result (λ pages. 1 ≤ pages) }
    ensures most { IfOk result (λ pages. pages ≤ MAX_PAGES) }
    ensures bad { IfErr result (λ fault. fault ≡ BadCommand) }
{
    let pages = number_given(given, "pages", 1, u64::from(MAX_PAGES))?;
    Ok(pages as u32)
}

/// The file that a command is given.
pub fn file_given<'a>(given: &ArgMatches<'a>) -> Result<&'a str, Fault>
    ensures { IfErr result (λ fault. fault ≡ BadCommand) }
{
    given.get_str("file").ok_or(Fault::BadCommand)
}
