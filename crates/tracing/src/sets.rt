//! How a set changes from one line to the next.
ghost use Rattle.std.specs.Prelude.{◌≡◌, ◌++◌, ◌∷◌, [], IfOk, OnOk, nat_eq, if◌then◌else◌};
ghost use Rattle.std.specs.HashSet.{IsFromIterResult};
ghost use Rattle.tracing.specs.Sets.{SaysChange, bases_of, listed as listed_of, objects_without as without_of, without};

use plain_heap::Extent;
use std::alloc::{AllocError, Global};
use std::collections::HashSet;
use trace_lines::SetChange;

/// Puts an item behind a list, if it is wanted.
pub(crate) fn push_if<T: Drop>(list: &mut Vec<T>, wanted: bool, item: T) -> Result<(), AllocError>
    ensures { OnOk result (list.new.items ≡ list.old.items ++ (if wanted then item ∷ [] else [])) }
{
    if wanted {
        list.push(item)?;
    }
    Ok(())
}

/// A list of the one item, or of none.
pub(crate) fn listed<T: Drop>(alloc: Global, item: Option<T>) -> Result<Vec<T>, AllocError>
    ensures { IfOk result (λ list. list.items ≡ listed_of item) }
{
    let mut list = Vec::new(alloc);
    let Some(item) = item else {
        return Ok(list);
    };
    list.push(item)?;
    Ok(list)
}

// The set of some numbers.
fn set_of(alloc: Global, numbers: &[u64]) -> Result<HashSet<u64>, AllocError>
    ensures { IfOk result (IsFromIterResult nat_eq numbers.now) }
{
    numbers.iter().copied().collect::<HashSet<u64>>(alloc)
}

/// Those numbers that are not among others, in their order.
pub(crate) fn without(
    alloc: Global,
    numbers: &[u64],
    others: &[u64],
) -> Result<Vec<u64>, AllocError>
    ensures { IfOk result (λ rest. rest.items ≡ without numbers.now others.now) }
{
    let known = set_of(alloc, others)?;
    let mut rest = Vec::new(alloc);
    for number in numbers {
        push_if(&mut rest, !known.contains(number), *number)?;
    }
    Ok(rest)
}

/// The bases of some objects.
pub(crate) fn bases(alloc: Global, objects: &[Extent]) -> Result<Vec<u64>, AllocError>
    ensures { IfOk result (λ bases. bases.items ≡ bases_of objects.now) }
{
    objects
        .iter()
        .map(|object| object.base)
        .collect::<Vec<u64>>(alloc)
}

// The set of the bases of some objects.
fn base_set(alloc: Global, objects: &[Extent]) -> Result<HashSet<u64>, AllocError>
    ensures { IfOk result (IsFromIterResult nat_eq (bases_of objects.now)) }
{
    objects
        .iter()
        .map(|object| object.base)
        .collect::<HashSet<u64>>(alloc)
}

/// Those objects at whose bases none of the others lies, in their order.
pub(crate) fn objects_without(
    alloc: Global,
    objects: &[Extent],
    others: &[Extent],
) -> Result<Vec<Extent>, AllocError>
    ensures { IfOk result (λ rest. rest.items ≡ without_of objects.now others.now) }
{
    let known = base_set(alloc, others)?;
    let mut rest = Vec::new(alloc);
    for object in objects {
        push_if(&mut rest, !known.contains(&object.base), *object)?;
    }
    Ok(rest)
}

// A copy of some numbers.
fn copied(alloc: Global, numbers: &[u64]) -> Result<Vec<u64>, AllocError>
    ensures { IfOk result (λ copy. copy.items ≡ numbers.now) }
{
    numbers.iter().copied().collect::<Vec<u64>>(alloc)
}

/// How a set became another one, and `None` if it stayed.
pub(crate) fn set_change(
    alloc: Global,
    old: &[u64],
    new: &[u64],
) -> Result<Option<SetChange>, AllocError>
    ensures { IfOk result (SaysChange old.now new.now) }
{
    let came = without(alloc, new, old)?;
    let went = without(alloc, old, new)?;
    if came.is_empty() && went.is_empty() {
        return Ok(None);
    }
    if new.len() < came.len() + went.len() {
        return Ok(Some(SetChange::Whole(copied(alloc, new)?)));
    }
    if went.is_empty() {
        return Ok(Some(SetChange::Comes(came)));
    }
    if came.is_empty() {
        return Ok(Some(SetChange::Goes(went)));
    }
    Ok(Some(SetChange::Differs(came, went)))
}

/// The members that came into a set, which became another one so.
pub(crate) fn came(
    alloc: Global,
    old: &[u64],
    new: &[u64],
    change: &Option<SetChange>,
) -> Result<Vec<u64>, AllocError>
    requires { SaysChange old.now new.now change.now }
    ensures { IfOk result (λ came. came.items ≡ without new.now old.now) }
{
    let Some(change) = change else {
        return Ok(Vec::new(alloc));
    };
    match change {
        SetChange::Comes(came) | SetChange::Differs(came, _) => copied(alloc, came.as_slice()),
        SetChange::Goes(_) => Ok(Vec::new(alloc)),
        SetChange::Whole(_) => without(alloc, new, old),
    }
}
