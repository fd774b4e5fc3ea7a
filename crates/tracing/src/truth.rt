//! What is true of a heap after a line, asked of the checker.
ghost use Rattle.std.specs.Prelude.{◌≡◌, [], IfOk, length, if◌then◌else◌};
ghost use Rattle.tracing.specs.Truth.{IsBare, IsTrueOf, flagged as flagged_of};

use crate::places::{is_flagged, place_of};
use crate::sets::push_if;
use links::Link;
use plain_heap::{Extent, PlainHeap};
use replayer::Replayer;
use std::alloc::{AllocError, Global};

/// What is true after a line.
#[derive(Drop)]
pub(crate) struct Truth {
    /// Where the objects lie.
    pub(crate) objects: Vec<Extent>,

    /// The places of the reached objects, and of the touched ones while a cycle marks.
    pub(crate) reached: Vec<u64>,
    pub(crate) touched: Vec<u64>,

    /// The links that stand.
    pub(crate) links: Vec<Link>,

    pub(crate) is_marking: bool,
    pub(crate) count: u64,
}

impl Truth {
    /// What is true of a new heap.
    pub(crate) fn of_new_heap(alloc: Global) -> Truth
        ensures { IsBare result }
    {
        Truth {
            objects: Vec::new(alloc),
            reached: Vec::new(alloc),
            touched: Vec::new(alloc),
            links: Vec::new(alloc),
            is_marking: false,
            count: 0,
        }
    }
}

// The objects.
fn objects_now(alloc: Global, heap: &PlainHeap) -> Result<Vec<Extent>, AllocError>
    ensures { IfOk result (λ objects. objects.items ≡ heap.now.objects) }
{
    heap.objects().iter().copied().collect::<Vec<Extent>>(alloc)
}

// The places of those objects that have their flags.
fn flagged(alloc: Global, objects: &[Extent], flags: &[bool]) -> Result<Vec<u64>, AllocError>
    ensures { IfOk result (λ places. places.items ≡ flagged_of flags.now objects.now) }
{
    let mut places = Vec::new(alloc);
    for object in objects {
        let base = object.base;
        push_if(&mut places, is_flagged(flags, base), place_of(base))?;
    }
    Ok(places)
}

// The places of the touched objects, while a cycle marks.
fn touched(alloc: Global, replayer: &Replayer) -> Result<Vec<u64>, AllocError>
    ensures { IfOk result (λ places. places.items
        ≡ (if replayer.now.marking then flagged_of replayer.now.touched replayer.now.heap.objects else [])) }
{
    if !replayer.is_marking() {
        return Ok(Vec::new(alloc));
    }
    flagged(alloc, replayer.heap().objects(), replayer.touched())
}

// The links that stand.
fn links_now(alloc: Global, heap: &PlainHeap) -> Result<Vec<Link>, AllocError>
    ensures { IfOk result (λ links. links.items ≡ heap.now.links) }
{
    heap.links().iter().copied().collect::<Vec<Link>>(alloc)
}

/// What is true now; `flags` is room for a flag of each word.
pub(crate) fn truth_now(
    alloc: Global,
    replayer: &mut Replayer,
    flags: &mut Vec<bool>,
) -> Result<Truth, AllocError>
    ensures truth { IfOk result (IsTrueOf replayer.old (length flags.old.items)) }
    ensures same { replayer.new ≡ replayer.old }
    ensures size { length flags.new.items ≡ length flags.old.items }
{
    replayer.flag_reached(flags);
    let heap = replayer.heap();
    Ok(Truth {
        objects: objects_now(alloc, heap)?,
        reached: flagged(alloc, heap.objects(), flags.as_slice())?,
        touched: touched(alloc, replayer)?,
        links: links_now(alloc, heap)?,
        is_marking: replayer.is_marking(),
        count: replayer.collections(),
    })
}
