//! Closing the marks by one thread.
ghost use Rattle.std.specs.Prelude.{◌≡◌, ◌∷◌, ◌+◌, ◌*◌, ◌<◌, ◌≤◌, [], IfNone, IfSome, length};
ghost use Rattle.words.specs.declared.limits.TheConstants.{PAGE_WORDS};
ghost use Rattle.block_map.specs.FoundIn.{found_in};
ghost use Rattle.marker.specs.Marking.{AreMarksObjects, IsDone};
ghost use Rattle.marker.specs.Work.{cost, dirty_pages, newly_pages, entry_words};
ghost use Rattle.marker.specs.Invariant.{DirtyPageInvariant};
ghost use Rattle.marker.specs.Closure.{AreClosed};
ghost use Rattle.marker.specs.Growth.{Traces};

use block_map::BlockMap;
use marker::Marker;
use pages::Reader;
use words::limits::PAGE_WORDS;

/// Marks on until nothing is left to read: the marks become the closure of the marks before and the roots.
pub fn close_marks(marker: &mut Marker, map: &BlockMap, reader: &mut Reader, roots: &[u64])
    requires pages { length marker.old.dirty ≡ length map.now }
    requires memory { length reader.old.words ≡ PAGE_WORDS * length map.now }
    requires one { reader.old.moments ≡ reader.old.words ∷ [] }
    requires objects { AreMarksObjects (found_in map.now) marker.old }
    requires invariant { DirtyPageInvariant (found_in map.now) reader.old.words marker.old }
    ensures closure { AreClosed (found_in map.now) reader.old.words roots.now marker.old marker.new }
    ensures done { IsDone marker.new }
    ensures traces { Traces (found_in map.now) reader.old.words roots.now marker.old marker.new }
    ensures words { reader.new.words ≡ reader.old.words }
    ensures moments { reader.new.moments ≡ reader.old.moments }
    ensures reads { reader.new.reads ≤ reader.old.reads + (PAGE_WORDS * (dirty_pages marker.old + newly_pages (found_in map.now) marker.old marker.new) + entry_words (found_in map.now) marker.old) }
{
    marker.scan_roots(map, roots);
    while let Some(_) = mark_on(marker, map, reader, u64::MAX) {}
}

/// Reads so many words of entries, or all that they have and then the lowest dirty page. Answers how many words these were at
/// most, and `None` where nothing was left to read.
pub(crate) fn mark_on(
    marker: &mut Marker,
    map: &BlockMap,
    reader: &mut Reader,
    most: u64,
) -> Option<u64>
    requires pages { length marker.old.dirty ≡ length map.now }
    requires memory { length reader.old.words ≡ PAGE_WORDS * length map.now }
    requires one { reader.old.moments ≡ reader.old.words ∷ [] }
    requires some { 0 < most }
    requires objects { AreMarksObjects (found_in map.now) marker.old }
    ensures traces { Traces (found_in map.now) reader.old.words [] marker.old marker.new }
    ensures done { IfNone result (IsDone marker.new) }
    ensures less { IfSome result (λ _. cost (found_in map.now) marker.new < cost (found_in map.now) marker.old) }
    ensures words { reader.new.words ≡ reader.old.words }
    ensures moments { reader.new.moments ≡ reader.old.moments }
    ensures reads { reader.new.reads + cost (found_in map.now) marker.new ≤ reader.old.reads + cost (found_in map.now) marker.old }
{
    let marked = marker.step(map, reader, most);
    if !marked.empty {
        return Some(marked.read);
    }
    match marker.retrace(map, reader) {
        Some(_) => Some(marked.read.saturating_add(PAGE_WORDS)),
        None => None,
    }
}
