//! Which words a step of marking read, as far as what was asked before and after it tells.
//!
//! A step reads words of entries alone: of those that were there, and of those of the objects that it marks. How far it
//! came is seen afterwards: an entry that is begun names its next word, one that waits has no word read, and one that is
//! gone was read to its object's end. That is wrong only of an object that found no room on the mark stack, since none of
//! its words is read: then the words are more than the reply counts, and none are told.
ghost use Rattle.std.specs.Prelude.{◌≡◌, ◌==◌, ◌++◌, IfOk, OnOk, sum_by};
ghost use Rattle.marker.specs.Work.{read_of};
ghost use Rattle.tracing.specs.Looked.{entries_read as entries_of, kept_from, looked_by, read_to as read_to_of, run_of, runs_of, unbegun_to, waits_at};
ghost use Rattle.tracing.specs.Sets.{SaysChange, listed as listed_of};

use crate::knowledge::Knowledge;
use crate::sets::{came, listed};
use crate::told::Told;
use block_map::Found;
use heap_core::Core;
use heap_spec::{Event, Reply};
use std::alloc::{AllocError, Global};
use trace_lines::{EntryAt, SetChange, WordRun};
use words::Kind;
use words::limits::{FIRST_ADDRESS, MAX_PAGES, PAGE_WORDS, WORD_BYTES};

// The object that begins at a place, if one is kept there.
fn object_from(core: &Core, place: u64) -> Option<Found>
    ensures { result ≡ kept_from core.now place }
{
    if place >= PAGE_WORDS * u64::from(MAX_PAGES) {
        return None;
    }
    let base = FIRST_ADDRESS + WORD_BYTES * place;
    let Some(found) = core.kept_at(base) else {
        return None;
    };
    if found.base == base {
        Some(found)
    } else {
        None
    }
}

// Whether an entry at the place waits on the mark stack.
fn waits(now: &Knowledge, place: u64) -> bool
    ensures { result ≡ waits_at now.now place }
{
    now.entries
        .as_slice()
        .iter()
        .any(|entry| entry.place == place)
}

// How many words of an object are read to its end.
fn readable(found: Found) -> u64
    ensures { result ≡ read_of found.kind found.len }
{
    match found.kind {
        Kind::Normal => u64::from(found.len),
        Kind::PointerFree => 0,
    }
}

// How many words of the object at a place are read, if its entry isn't begun.
fn read_unless_begun(now: &Knowledge, place: u64, found: Found) -> u64
    ensures { result ≡ unbegun_to now.now place found }
{
    if waits(now, place) {
        0
    } else {
        readable(found)
    }
}

// How many words of the object at a place are read.
fn read_to(now: &Knowledge, place: u64, found: Found) -> u64
    ensures { result ≡ read_to_of now.now place found }
{
    let Some(entry) = now.current else {
        return read_unless_begun(now, place, found);
    };
    if entry.place == place {
        entry.next
    } else {
        read_unless_begun(now, place, found)
    }
}

// The words of an entry's object that are read now, from the entry's next word on.
fn run_from(core: &Core, now: &Knowledge, entry: EntryAt) -> Option<WordRun>
    ensures { result ≡ run_of now.now entry (kept_from core.now entry.place) }
{
    let Some(found) = object_from(core, entry.place) else {
        return None;
    };
    let end = read_to(now, entry.place, found);
    if entry.next < end && end <= u64::from(found.len) {
        Some(WordRun {
            place: entry.place + entry.next,
            words: end - entry.next,
        })
    } else {
        None
    }
}

// The entries that a step reads words of, if it marks the objects at these places.
fn entries_read(alloc: Global, old: &Knowledge, marked: &[u64]) -> Result<Vec<EntryAt>, AllocError>
    ensures { IfOk result (λ entries. entries.items ≡ entries_of old.now marked.now) }
{
    let mut entries = listed(alloc, old.current)?;
    entries.extend_from_slice(old.entries.as_slice())?;
    for place in marked {
        entries.push(EntryAt {
            place: *place,
            next: 0,
        })?;
    }
    Ok(entries)
}

// Puts a run behind others, if there is one.
fn add_run(runs: &mut Vec<WordRun>, run: Option<WordRun>) -> Result<(), AllocError>
    ensures { OnOk result (runs.new.items ≡ runs.old.items ++ listed_of run) }
{
    let Some(run) = run else {
        return Ok(());
    };
    runs.push(run)?;
    Ok(())
}

// The words of these entries' objects that are read now.
fn runs_now(
    alloc: Global,
    core: &Core,
    now: &Knowledge,
    entries: &[EntryAt],
) -> Result<Vec<WordRun>, AllocError>
    ensures { IfOk result (λ runs. runs.items ≡ runs_of core.now now.now entries.now) }
{
    let mut runs = Vec::new(alloc);
    for entry in entries {
        add_run(&mut runs, run_from(core, now, *entry))?;
    }
    Ok(runs)
}

// Whether runs are of so many words.
fn are_so_many(runs: &[WordRun], words: u64) -> bool
    ensures { result ≡ (sum_by (λ r. r.words) runs.now == words) }
{
    let mut left = words;
    for run in runs {
        if run.words > left {
            return false;
        }
        left -= run.words;
    }
    left == 0
}

/// The words of marked objects that an event read, where it is a step of marking whose reply counts as many: how the
/// marked objects became those of now is told.
pub(crate) fn words_read(
    alloc: Global,
    told: &Told<'_>,
    old: &Knowledge,
    now: &Knowledge,
    marked: &Option<SetChange>,
) -> Result<Vec<WordRun>, AllocError>
    requires { SaysChange old.now.marked.items now.now.marked.items marked.now }
    ensures { IfOk result (λ runs. runs.items ≡ looked_by told.now.core told.now.event.now told.now.reply.now old.now now.now) }
{
    let Some(core) = told.core else {
        return Ok(Vec::new(alloc));
    };
    let (Event::Mark(_), Reply::Count(words)) = (told.event, told.reply) else {
        return Ok(Vec::new(alloc));
    };
    let marked = came(alloc, old.marked.as_slice(), now.marked.as_slice(), marked)?;
    let entries = entries_read(alloc, old, marked.as_slice())?;
    let runs = runs_now(alloc, core, now, entries.as_slice())?;
    if are_so_many(runs.as_slice(), *words) {
        Ok(runs)
    } else {
        Ok(Vec::new(alloc))
    }
}
