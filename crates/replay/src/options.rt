//! The words that the command is given.
ghost use Rattle.std.specs.Prelude.{◌≤◌, IfOk, IfSome};
ghost use Rattle.words.specs.declared.limits.TheConstants.{MAX_PAGES};
ghost use Rattle.written_runs.specs.Ranges.{HasRange};

use clap::{Arg, ArgAction, ArgMatches, Command};
use programs::{Fault, bare_command, option, words_read};
use retelling::Range;
use std::alloc::{AllocError, Global};
use words::limits::FIRST_ADDRESS;
use written_runs::{Places, address_given, bytes_given, pages_given, places_given};

/// What the command is asked of a run.
#[derive(Clone, Copy)]
pub(crate) struct Asked<'a> {
    /// How many pages the heap has.
    pub(crate) pages: u32,

    /// Where its objects may lie.
    pub(crate) places: Places,

    /// Whether a path is asked for.
    pub(crate) why: bool,

    /// Where the run is.
    pub(crate) file: &'a str,
}

impl Asked<'_> {
    /// Where the heap lies.
    pub(crate) fn range(&self) -> Range {
        Range {
            places: self.places,
            pages: self.pages,
        }
    }
}

// `(--pages N | --bytes N) [--places any [--from ADDRESS]] [--why] FILE`.
fn command<'a>(alloc: Global) -> Result<Command<'a>, AllocError> {
    bare_command(alloc, "replay")
        .arg(option(alloc, "pages"))?
        .arg(option(alloc, "bytes"))?
        .arg(option(alloc, "places"))?
        .arg(option(alloc, "from"))?
        .arg(option(alloc, "why").action(ArgAction::SetTrue))?
        .arg(Arg::new(alloc, "file").required(true))
}

// How many pages the heap has, by their number or by their bytes, and not by both.
fn pages(given: &ArgMatches<'_>) -> Option<u32>
    ensures { IfSome result (λ pages. (1 ≤ pages) × (pages ≤ MAX_PAGES)) }
{
    let Some(pages) = given.get_str("pages") else {
        return bytes_given(given.get_str("bytes")?);
    };
    if given.get_str("bytes").is_some() {
        return None;
    }
    pages_given(pages)
}

// Where the heap begins.
fn from(given: &ArgMatches<'_>) -> Option<u64> {
    let Some(from) = given.get_str("from") else {
        return Some(FIRST_ADDRESS);
    };
    address_given(from)
}

// Where objects may lie. Only a heap that places them anywhere is told a range.
fn places(given: &ArgMatches<'_>) -> Option<Places> {
    let places = places_given(given.get_str("places").unwrap_or("classes"), from(given)?)?;
    let has_range = given.contains_id("from") || given.contains_id("bytes");
    if places == Places::Classes && has_range {
        return None;
    }
    Some(places)
}

// What they ask, if they have a number of pages and nothing bad.
fn given<'a>(words: &ArgMatches<'a>) -> Option<Asked<'a>>
    ensures { IfSome result (λ asked. (1 ≤ asked.pages) × (asked.pages ≤ MAX_PAGES) × HasRange asked.places asked.pages) }
{
    let pages = pages(words)?;
    let places = places(words)?;
    if !places.has_range(pages) {
        return None;
    }
    let file = words.get_str("file")?;
    Some(Asked {
        pages,
        places,
        why: words.get_flag("why"),
        file,
    })
}

/// What the words ask for.
pub(crate) fn read_words<'a>(alloc: Global, words: &'a [String]) -> Result<Asked<'a>, Fault>
    ensures { IfOk result (λ asked. (1 ≤ asked.pages) × (asked.pages ≤ MAX_PAGES) × HasRange asked.places asked.pages) }
{
    match words_read(command(alloc), words) {
        Ok(words) => given(&words).ok_or(Fault::BadCommand),
        Err(fault) => Err(fault),
    }
}
