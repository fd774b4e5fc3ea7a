//! What the program is asked to do, as its words say it.
ghost use Rattle.std.specs.Prelude.{◌≡◌, IfOk, IfErr};
ghost use Rattle.programs.specs.declared.fault.Fault.TheVariants.{BadCommand};
ghost use Rattle.command_line.specs.Requests.{CanBeDone, MayBeRead};

use crate::arguments::{command_line, helpers_given};
use clap::ArgMatches;
use final_pause::Helpers;
use programs::{Fault, file_given, number_given, pages_given, words_read};
use std::alloc::Global;
use std::convert::AsStr;
use words::limits::SLOTS;
use workloads::limits::MAX_STEPS;

/// What the program is asked to do.
#[derive(Drop)]
pub enum Request<'a> {
    /// To run the script in the input, over so many pages.
    Run(u32),

    /// To run the script in the file of this name, over so many pages.
    RunFile(u32, &'a str),

    /// To run the workload in the file of this name, over so many pages and with so many helpers.
    Threads(u32, Helpers, &'a str),

    /// To do so, and to write the history that its threads made to the file of the second name.
    Record(u32, Helpers, &'a str, &'a str),

    /// To write the random script of this seed, of so many mutators and so many lines behind their attaches.
    Stress(u64, u8, u32),
}

// `run --pages N [FILE]`.
fn run_given<'a>(given: &ArgMatches<'a>) -> Result<Request<'a>, Fault>
    ensures range { IfOk result CanBeDone }
    ensures bad { IfErr result (λ fault. fault ≡ BadCommand) }
{
    let pages = pages_given(given)?;
    match given.get_str("file") {
        Some(path) => Ok(Request::RunFile(pages, path)),
        None => Ok(Request::Run(pages)),
    }
}

// `threads --pages N [--helpers H] [--record FILE] FILE`.
fn threads_given<'a>(given: &ArgMatches<'a>) -> Result<Request<'a>, Fault>
    ensures range { IfOk result CanBeDone }
    ensures bad { IfErr result (λ fault. fault ≡ BadCommand) }
{
    let pages = pages_given(given)?;
    let helpers = helpers_given(given)?;
    let path = file_given(given)?;
    match given.get_str("record") {
        Some(history) => Ok(Request::Record(pages, helpers, path, history)),
        None => Ok(Request::Threads(pages, helpers, path)),
    }
}

// `stress --seed S --mutators M --steps K`.
fn stress_given<'a>(given: &ArgMatches<'_>) -> Result<Request<'a>, Fault>
    ensures range { IfOk result CanBeDone }
    ensures bad { IfErr result (λ fault. fault ≡ BadCommand) }
{
    let seed = number_given(given, "seed", 0, u64::MAX)?;
    let mutators = number_given(given, "mutators", 1, u64::from(SLOTS))?;
    let steps = number_given(given, "steps", 0, u64::from(MAX_STEPS))?;
    Ok(Request::Stress(seed, mutators as u8, steps as u32))
}

// What the words that were read ask for.
fn given<'a>(words: &ArgMatches<'a>) -> Result<Request<'a>, Fault>
    ensures range { IfOk result CanBeDone }
    ensures bad { IfErr result (λ fault. fault ≡ BadCommand) }
{
    if let Some(given) = words.subcommand_matches("run") {
        return run_given(given);
    }
    if let Some(given) = words.subcommand_matches("threads") {
        return threads_given(given);
    }
    if let Some(given) = words.subcommand_matches("stress") {
        return stress_given(given);
    }
    Err(Fault::BadCommand)
}

/// What the words ask for, without the program's own name.
///
/// # Errors
/// [`Fault::BadCommand`] where they are of no command, or a number is out of its range, and [`Fault::Memory`] where memory is
/// refused.
pub fn read_words<'a, S: AsStr>(alloc: Global, words: &'a [S]) -> Result<Request<'a>, Fault>
    ensures { MayBeRead result }
{
    match words_read(command_line(alloc), words) {
        Ok(words) => given(&words),
        Err(fault) => Err(fault),
    }
}
