//! What a collector knows after a line, asked of the core.
ghost use Rattle.std.specs.Prelude.{◌≡◌, IfOk, map};
ghost use Rattle.std.specs.Option.{option_map};
ghost use Rattle.heap_core.specs.Looks.{marks_at};
ghost use Rattle.tracing.specs.Sets.{places_that, those_that};
ghost use Rattle.tracing.specs.Entries.{shown as shown_entry};
ghost use Rattle.tracing.specs.Pages.{is_in, IsKnown, IsNothing, KnowsOf};

use crate::places::place_of;
use crate::sets::push_if;
use heap_core::Core;
use marker::Entry;
use plain_heap::Extent;
use std::alloc::{AllocError, Global};
use trace_lines::EntryAt;

/// What a collector knows.
#[derive(Drop)]
pub(crate) struct Knowledge {
    /// The places of the marked objects.
    pub(crate) marked: Vec<u64>,

    /// Numbers of pages.
    pub(crate) dirty: Vec<u64>,
    pub(crate) carried: Vec<u64>,
    pub(crate) pending: Vec<u64>,

    /// The mark stack, the next entry last, and the entry that is begun.
    pub(crate) entries: Vec<EntryAt>,
    pub(crate) current: Option<EntryAt>,
}

/// A set of pages that a collector has.
#[derive(Clone, Copy)]
pub(crate) enum PageSet {
    Dirty,
    Carried,
    Pending,
}

impl Knowledge {
    /// That of a new heap's collector, or of none.
    pub(crate) fn nothing(alloc: Global) -> Knowledge
        ensures { IsNothing result }
    {
        Knowledge {
            marked: Vec::new(alloc),
            dirty: Vec::new(alloc),
            carried: Vec::new(alloc),
            pending: Vec::new(alloc),
            entries: Vec::new(alloc),
            current: None,
        }
    }
}

// An entry, as a trace names it.
fn shown(entry: Entry) -> EntryAt
    ensures { result ≡ shown_entry entry }
{
    EntryAt {
        place: place_of(entry.base),
        next: u64::from(entry.next),
    }
}

// The entry that is begun.
fn current(core: &Core) -> Option<EntryAt>
    ensures { result ≡ option_map shown_entry core.now.cycle.marker.current }
{
    match core.current() {
        Some(entry) => Some(shown(entry)),
        None => None,
    }
}

// The places of the marked objects.
fn marked(alloc: Global, core: &Core, objects: &[Extent]) -> Result<Vec<u64>, AllocError>
    ensures { IfOk result (λ places. places.items ≡ places_that (λ base. marks_at core.now base) objects.now) }
{
    let mut places = Vec::new(alloc);
    for object in objects {
        let base = object.base;
        push_if(&mut places, core.is_marked(base), place_of(base))?;
    }
    Ok(places)
}

// The mark stack.
fn entries(alloc: Global, core: &Core) -> Result<Vec<EntryAt>, AllocError>
    ensures { IfOk result (λ entries. entries.items ≡ map shown_entry core.now.cycle.marker.stack) }
{
    let mut entries = Vec::new(alloc);
    for entry in core.entries() {
        entries.push(shown(*entry))?;
    }
    Ok(entries)
}

// Whether a page is in the set.
fn has(core: &Core, set: PageSet, page: u64) -> bool
    ensures { result ≡ is_in core.now set page }
{
    match set {
        PageSet::Dirty => core.is_dirty(page),
        PageSet::Carried => core.is_carried(page),
        PageSet::Pending => core.is_pending(page),
    }
}

// Those pages that are in the set.
fn pages_in(alloc: Global, core: &Core, set: PageSet, pages: &[u64]) -> Result<Vec<u64>, AllocError>
    ensures { IfOk result (λ numbers. numbers.items ≡ those_that (λ page. is_in core.now set page) pages.now) }
{
    let mut numbers = Vec::new(alloc);
    for page in pages {
        push_if(&mut numbers, has(core, set, *page), *page)?;
    }
    Ok(numbers)
}

// What the core's collector knows now of these objects and pages.
fn knowledge_now(
    alloc: Global,
    core: &Core,
    objects: &[Extent],
    pages: &[u64],
) -> Result<Knowledge, AllocError>
    ensures { IfOk result (IsKnown core.now objects.now pages.now) }
{
    Ok(Knowledge {
        marked: marked(alloc, core, objects)?,
        dirty: pages_in(alloc, core, PageSet::Dirty, pages)?,
        carried: pages_in(alloc, core, PageSet::Carried, pages)?,
        pending: pages_in(alloc, core, PageSet::Pending, pages)?,
        entries: entries(alloc, core)?,
        current: current(core),
    })
}

/// What a collector knows of these objects and pages, if there is one.
pub(crate) fn known_of(
    alloc: Global,
    core: Option<&Core>,
    objects: &[Extent],
    pages: &[u64],
) -> Result<Knowledge, AllocError>
    ensures { IfOk result (KnowsOf core.entry objects.now pages.now) }
{
    match core {
        Some(core) => knowledge_now(alloc, core, objects, pages),
        None => Ok(Knowledge::nothing(alloc)),
    }
}
