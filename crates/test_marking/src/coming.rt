//! What the collector owes to an object that comes while it marks.
ghost use Rattle.std.specs.Prelude.{◌≡◌, ℕ, ◌<◌, ◌≤◌, Option, Some, length};
ghost use Rattle.words.specs.declared.limits.TheConstants.{MOST_PAGES};
ghost use Rattle.block_map.specs.declared.found.Found.{Found};
ghost use Rattle.block_map.specs.Changes.{IsAdded};
ghost use Rattle.block_map.specs.Objects.{large_object};
ghost use Rattle.block_map.specs.FoundIn.{found_in};
ghost use Rattle.block_map.specs.Listed.{AreListed};
ghost use Rattle.marker.specs.Invariant.{DirtyPageInvariant};
ghost use Rattle.marker.specs.Marking.{AreMarksObjects};

use block_map::{BlockMap, Found};
use marker::Marker;
use pages::Memory;
use words::limits::{FIRST_ADDRESS, PAGE_BYTES, PAGE_WORDS};
use words::{Kind, PageNo};

/// The large object that begins on a page.
pub(crate) fn large_at(page: PageNo, pages: u32, kind: Kind) -> Found
    requires page { page < MOST_PAGES }
    requires some { 0 < pages }
    requires few { pages ≤ MOST_PAGES }
    ensures object { result ≡ large_object page pages kind }
    ensures some { 0 < result.len }
{
    Found {
        base: FIRST_ADDRESS + PAGE_BYTES * u64::from(page),
        len: PAGE_WORDS as u32 * pages,
        kind,
        page,
        cell: 0,
    }
}

/// Writes 0 into the words of an object that has come into the map, and marks it.
pub(crate) fn receive(map: &BlockMap, memory: &mut Memory, marker: &mut Marker, found: Found)
    requires object { found_in map.now found.base ≡ Some found }
    requires pages { length marker.old.dirty ≡ length map.now }
    requires listed { AreListed memory.old map.now }
    ensures keeps { (before : ℕ → Option Found) → IsAdded before (found_in map.now) found → DirtyPageInvariant before memory.old marker.old → DirtyPageInvariant (found_in map.now) memory.new marker.new }
    ensures objects { (before : ℕ → Option Found) → IsAdded before (found_in map.now) found → AreMarksObjects before marker.old → AreMarksObjects (found_in map.now) marker.new }
    ensures pages { length marker.new.dirty ≡ length map.now }
    ensures listed { AreListed memory.new map.now }
{
    // The laws of the map and of the marker say that the object's words are the memory's, and that it has a mark.
    let _ = map.len();
    marker.laws();
    memory.zero(found.base, found.len);
    marker.allocated(found.base);
}
