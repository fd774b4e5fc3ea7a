//! The words that the command is given.
ghost use Rattle.std.specs.Prelude.{◌≤◌, IfOk};
ghost use Rattle.words.specs.declared.limits.TheConstants.{MAX_PAGES};

use clap::{Arg, ArgMatches, Command};
use programs::{Fault, bare_command, file_given, option, pages_given, words_read};
use std::alloc::{AllocError, Global};

/// What the command is asked.
#[derive(Clone, Copy)]
pub(crate) struct Asked<'a> {
    /// How many pages the heap has.
    pub(crate) pages: u32,

    /// Where the script is.
    pub(crate) file: &'a str,
}

// `--pages N FILE`.
fn command<'a>(alloc: Global) -> Result<Command<'a>, AllocError> {
    bare_command(alloc, "record")
        .arg(option(alloc, "pages").required(true))?
        .arg(Arg::new(alloc, "file").required(true))
}

// What the words that were read ask for.
fn given<'a>(words: &ArgMatches<'a>) -> Result<Asked<'a>, Fault>
    ensures { IfOk result (λ asked. (1 ≤ asked.pages) × (asked.pages ≤ MAX_PAGES)) }
{
    let pages = pages_given(words)?;
    let file = file_given(words)?;
    Ok(Asked { pages, file })
}

/// What the words ask for.
pub(crate) fn read_words<'a>(alloc: Global, words: &'a [String]) -> Result<Asked<'a>, Fault>
    ensures { IfOk result (λ asked. (1 ≤ asked.pages) × (asked.pages ≤ MAX_PAGES)) }
{
    match words_read(command(alloc), words) {
        Ok(words) => given(&words),
        Err(fault) => Err(fault),
    }
}
