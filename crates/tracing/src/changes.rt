//! What is different between two lines, of links, entries and single values.
ghost use Rattle.std.specs.Prelude.{◌≡◌, ◌++◌, ◌≤◌, IfOk, OnOk, take, drop, length, IsTrue, false};
ghost use Rattle.links.specs.Rows.{has_at};
ghost use Rattle.tracing.specs.Links.{has_link as has_link_of, link_changes as changes_of, links_came, links_gone as gone_of};
ghost use Rattle.tracing.specs.Entries.{SaysCurrent, SaysEntries};
ghost use Rattle.tracing.specs.Values.{SaysValue};

use crate::places::place_of;
use crate::sets::push_if;
use links::Link;
use std::alloc::{AllocError, Global};
use trace_lines::{Current, EntriesChange, EntryAt, LinkChange};

// Whether this link stands.
fn has_link(links: &[Link], wanted: Link) -> bool
    ensures { result ≡ has_link_of links.now wanted }
{
    links.iter().any(|link| link.address == wanted.address && link.base == wanted.base)
}

// Whether a link stands at the address.
fn has_link_at(links: &[Link], address: u64) -> bool
    ensures { result ≡ has_at links.now address }
{
    links.iter().any(|link| link.address == address)
}

/// The links of a row that stand no more.
pub(crate) fn links_gone(alloc: Global, old: &[Link], new: &[Link]) -> Result<Vec<Link>, AllocError>
    ensures { IfOk result (λ gone. gone.items ≡ gone_of old.now new.now) }
{
    let mut gone = Vec::new(alloc);
    for link in old {
        push_if(&mut gone, !has_link_at(new, link.address), *link)?;
    }
    Ok(gone)
}

// Adds the links that came, or name another object now.
fn add_links(changes: &mut Vec<LinkChange>, old: &[Link], new: &[Link]) -> Result<(), AllocError>
    ensures { OnOk result (changes.new.items ≡ changes.old.items ++ links_came old.now new.now) }
{
    for link in new {
        let change = LinkChange {
            place: place_of(link.address),
            base: Some(place_of(link.base)),
        };
        push_if(changes, !has_link(old, *link), change)?;
    }
    Ok(())
}

/// How links change.
pub(crate) fn link_changes(
    alloc: Global,
    old: &[Link],
    new: &[Link],
) -> Result<Vec<LinkChange>, AllocError>
    ensures { IfOk result (λ changes. changes.items ≡ changes_of old.now new.now) }
{
    let gone = links_gone(alloc, old, new)?;
    let mut changes = Vec::new(alloc);
    for link in gone.as_slice() {
        changes.push(LinkChange {
            place: place_of(link.address),
            base: None,
        })?;
    }
    add_links(&mut changes, old, new)?;
    Ok(changes)
}

// Whether two entries are the same.
fn are_same(one: EntryAt, other: EntryAt) -> bool
    ensures yes { IsTrue result → one ≡ other }
    ensures no { result ≡ false → one ≡ other → ⊥ }
{
    one.place == other.place && one.next == other.next
}

// How many of the lowest entries are the same.
fn common(old: &[EntryAt], new: &[EntryAt]) -> usize
    ensures same { take result old.now ≡ take result new.now }
    ensures within_old { result ≤ length old.now }
    ensures within_new { result ≤ length new.now }
{
    let least = old.len().min(new.len());
    for i in 0..least {
        if !are_same(old[i], new[i]) {
            return i;
        }
    }
    least
}

// The entries from one on.
fn entries_from(
    alloc: Global,
    entries: &[EntryAt],
    first: usize,
) -> Result<Vec<EntryAt>, AllocError>
    requires { first ≤ length entries.now }
    ensures { IfOk result (λ pushed. pushed.items ≡ drop first entries.now) }
{
    entries[first..]
        .iter()
        .copied()
        .collect::<Vec<EntryAt>>(alloc)
}

/// How the mark stack changes.
pub(crate) fn entries_change(
    alloc: Global,
    old: &[EntryAt],
    new: &[EntryAt],
) -> Result<Option<EntriesChange>, AllocError>
    ensures { IfOk result (SaysEntries old.now new.now) }
{
    let keep = common(old, new);
    if keep == old.len() && keep == new.len() {
        return Ok(None);
    }
    Ok(Some(EntriesChange {
        keep: keep as u64,
        pushed: entries_from(alloc, new, keep)?,
    }))
}

/// How the entry that is begun changes.
pub(crate) fn current_change(old: Option<EntryAt>, new: Option<EntryAt>) -> Option<Current>
    ensures { SaysCurrent old new result }
{
    let Some(now) = new else {
        return match old {
            Some(_) => Some(Current::Nothing),
            None => None,
        };
    };
    let Some(before) = old else {
        return Some(Current::Begun(now));
    };
    if are_same(before, now) {
        None
    } else {
        Some(Current::Begun(now))
    }
}

/// The number, if it is another than before.
pub(crate) fn number_change(old: u64, new: u64) -> Option<u64>
    ensures { SaysValue old new result }
{
    if old == new { None } else { Some(new) }
}

/// The flag, if it is another than before.
pub(crate) fn flag_change(old: bool, new: bool) -> Option<bool>
    ensures { SaysValue old new result }
{
    if old == new { None } else { Some(new) }
}
