//! The words of the command line: which there may be, and the number of helpers among them.
ghost use Rattle.std.specs.Prelude.{◌≡◌, IfErr};
ghost use Rattle.programs.specs.declared.fault.Fault.TheVariants.{BadCommand};

use clap::{Arg, ArgMatches, Command};
use final_pause::Helpers;
use programs::{Fault, bare_command, number_given, option};
use std::alloc::{AllocError, Global};
use words::limits::MAX_HELPERS;

// `run --pages N [FILE]`.
fn run_words<'a>(alloc: Global) -> Result<Command<'a>, AllocError> {
    Command::new(alloc, "run")
        .disable_help_flag(true)
        .arg(option(alloc, "pages").required(true))?
        .arg(Arg::new(alloc, "file"))
}

// `threads --pages N [--helpers H] [--record FILE] FILE`.
fn threads_words<'a>(alloc: Global) -> Result<Command<'a>, AllocError> {
    Command::new(alloc, "threads")
        .disable_help_flag(true)
        .arg(option(alloc, "pages").required(true))?
        .arg(option(alloc, "helpers"))?
        .arg(option(alloc, "record"))?
        .arg(Arg::new(alloc, "file").required(true))
}

// `stress --seed S --mutators M --steps K`.
fn stress_words<'a>(alloc: Global) -> Result<Command<'a>, AllocError> {
    Command::new(alloc, "stress")
        .disable_help_flag(true)
        .arg(option(alloc, "seed").required(true))?
        .arg(option(alloc, "mutators").required(true))?
        .arg(option(alloc, "steps").required(true))
}

/// What the command line may be: a subcommand for each of the program's commands.
pub(crate) fn command_line<'a>(alloc: Global) -> Result<Command<'a>, AllocError> {
    bare_command(alloc, "mpheap")
        .disable_help_subcommand(true)
        .subcommand_required(true)
        .subcommand(run_words(alloc)?)?
        .subcommand(threads_words(alloc)?)?
        .subcommand(stress_words(alloc)?)
}

/// The number of helpers of a pause: one where none is given.
pub(crate) fn helpers_given(given: &ArgMatches<'_>) -> Result<Helpers, Fault>
    ensures { IfErr result (λ fault. fault ≡ BadCommand) }
{
    let number = match given.get_str("helpers") {
        Some(_) => number_given(given, "helpers", 1, u64::from(MAX_HELPERS))?,
        None => 1,
    };
    Helpers::new(number as u8).ok_or(Fault::BadCommand)
}
