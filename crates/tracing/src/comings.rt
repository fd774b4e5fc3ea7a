//! Mutators and objects that come and go.
ghost use Rattle.std.specs.Prelude.{◌≡◌, IfOk};
ghost use Rattle.tracing.specs.Comings.{attached_slot, detached_slot, is_pointer_free, new_object as new_object_of, born as born_of};

use crate::places::place_of;
use crate::sets::objects_without;
use heap_spec::{Call, Event, Reply};
use plain_heap::Extent;
use std::alloc::{AllocError, Global};
use trace_lines::NewObject;
use words::Kind;

/// The slot of the mutator that came.
pub(crate) fn attached(reply: &Reply) -> Option<u64>
    ensures { result ≡ attached_slot reply.now }
{
    let Reply::Slot(slot) = reply else {
        return None;
    };
    Some(u64::from(slot.number()))
}

/// The slot of the mutator that went.
pub(crate) fn detached(event: &Event, reply: &Reply) -> Option<u64>
    ensures { result ≡ detached_slot event.now reply.now }
{
    let Event::Mutator(slot, Call::Detach) = event else {
        return None;
    };
    let Reply::Done = reply else {
        return None;
    };
    Some(u64::from(slot.number()))
}

// Whether words of the kind are never read.
fn is_atomic(kind: Kind) -> bool
    ensures { result ≡ is_pointer_free kind }
{
    match kind {
        Kind::Normal => false,
        Kind::PointerFree => true,
    }
}

// An object that came, by the number of its birth.
fn new_object(object: Extent, birth: u64) -> NewObject
    ensures { result ≡ new_object_of birth object }
{
    NewObject {
        place: place_of(object.base),
        birth,
        words: object.length,
        is_atomic: is_atomic(object.kind),
    }
}

/// The objects that came: those at whose bases none lay before. One comes at a time, and its birth is the last.
pub(crate) fn born(
    alloc: Global,
    old: &[Extent],
    new: &[Extent],
    births: u64,
) -> Result<Vec<NewObject>, AllocError>
    ensures { IfOk result (λ born. born.items ≡ born_of births old.now new.now) }
{
    let came = objects_without(alloc, new, old)?;
    let mut born = Vec::new(alloc);
    for object in came.as_slice() {
        born.push(new_object(*object, births))?;
    }
    Ok(born)
}
