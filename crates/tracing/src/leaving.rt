//! Where objects go: their cells are free, or wait to be swept.
ghost use Rattle.std.specs.Prelude.{◌≡◌, ◌&&◌, not, IfOk};
ghost use Rattle.tracing.specs.Sets.{those_that};
ghost use Rattle.tracing.specs.Leaving.{IsParted, forgets as is_forgetting, waits as is_waiting};

use crate::places::page_of;
use crate::sets::push_if;
use heap_core::Core;
use heap_spec::Event;
use std::alloc::{AllocError, Global};

/// Bases of what is no object any more.
#[derive(Drop)]
pub(crate) struct Leaving {
    /// Cells that wait from now on.
    pub(crate) forgotten: Vec<u64>,

    /// Cells and pages that are free from now on.
    pub(crate) freed: Vec<u64>,

    /// All cells that wait.
    pub(crate) waiting: Vec<u64>,
}

/// Whether an event forgets objects: then small ones wait until their pages are swept.
pub(crate) fn forgets(event: &Event) -> bool
    ensures { result ≡ is_forgetting event.now }
{
    match event {
        Event::Finish | Event::Collect => true,
        _ => false,
    }
}

// Whether the page of a base is pending. Where no core is known none is.
fn waits(core: Option<&Core>, base: u64) -> bool
    ensures { result ≡ is_waiting core.entry base }
{
    match core {
        Some(core) => core.is_pending(page_of(base)),
        None => false,
    }
}

// The cells of these that wait, if they are forgotten at all.
fn waiting(
    alloc: Global,
    core: Option<&Core>,
    forgets: bool,
    bases: &[u64],
) -> Result<Vec<u64>, AllocError>
    ensures { IfOk result (λ some. some.items ≡ those_that (λ base. forgets && is_waiting core.entry base) bases.now) }
{
    let mut some = Vec::new(alloc);
    for base in bases {
        push_if(&mut some, forgets && waits(core, *base), *base)?;
    }
    Ok(some)
}

// The cells of these that are free.
fn free(
    alloc: Global,
    core: Option<&Core>,
    forgets: bool,
    bases: &[u64],
) -> Result<Vec<u64>, AllocError>
    ensures { IfOk result (λ some. some.items ≡ those_that (λ base. not (forgets && is_waiting core.entry base)) bases.now) }
{
    let mut some = Vec::new(alloc);
    for base in bases {
        push_if(&mut some, !(forgets && waits(core, *base)), *base)?;
    }
    Ok(some)
}

/// Where the objects went that this event took, and the cells that waited before it: all by their bases.
pub(crate) fn leaving_now(
    alloc: Global,
    core: Option<&Core>,
    event: &Event,
    waited: &[u64],
    gone: &[u64],
) -> Result<Leaving, AllocError>
    ensures { IfOk result (IsParted core.entry event.now waited.now gone.now) }
{
    let forgotten = waiting(alloc, core, forgets(event), gone)?;
    let mut freed = free(alloc, core, true, waited)?;
    let freed_now = free(alloc, core, forgets(event), gone)?;
    let mut all = waiting(alloc, core, true, waited)?;
    freed.extend_from_slice(freed_now.as_slice())?;
    all.extend_from_slice(forgotten.as_slice())?;
    Ok(Leaving {
        forgotten,
        freed,
        waiting: all,
    })
}
