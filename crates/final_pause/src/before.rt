//! What the calling thread marks before any helper starts.
//!
//! A thread costs more than little work gains, and what hangs from one entry can't be shared. So over a small heap the calling
//! thread marks alone. Over another it marks on until it has read some words and several entries wait for each helper, or until
//! nothing is left.
ghost use Rattle.std.specs.Prelude.{◌≡◌, ◌*◌, true, length};
ghost use Rattle.words.specs.declared.limits.TheConstants.{PAGE_WORDS};
ghost use Rattle.block_map.specs.FoundIn.{found_in};
ghost use Rattle.marker.specs.Marking.{AreMarksObjects, IsDone};
ghost use Rattle.marker.specs.Invariant.{DirtyPageInvariant};
ghost use Rattle.marker.specs.Closure.{AreClosed};
ghost use Rattle.marker.specs.Growth.{Traces};

use crate::alone::mark_on;
use crate::graph::Graph;
use crate::helpers::Helpers;
use block_map::BlockMap;
use marker::Marker;
use pages::{Reader, Uncounted};
use words::limits::PAGE_WORDS;

// How many words are read between two looks at what waits.
const SLICE: u64 = 1_024;

// How many dirty pages are as good to share as one entry, which may lead to any number of words.
const DIRTY_PAGES: usize = 16;

// How many entries wait for each helper at least: then no helper gets a quarter more of them than another.
const ENTRIES_EACH: usize = 4;

// Whether the pages in use have so many words.
fn has_words(map: &BlockMap, least: u64) -> bool {
    let mut words = 0u64;
    for page in 0..map.len() {
        if words >= least {
            return true;
        }
        if !map.is_free(page) {
            words = words.saturating_add(PAGE_WORDS);
        }
    }
    words >= least
}

// Whether each of so many helpers gets several of the entries and dirty pages, and is not the only one.
fn is_shareable(marker: &Marker, helpers: Helpers) -> bool {
    let number = usize::from(helpers.number());
    let entries = marker.waiting().len();
    let pages = marker.count_dirty() as usize / DIRTY_PAGES;
    number > 1 && entries.saturating_add(pages) >= ENTRIES_EACH * number
}

/// Marks on alone, from the roots, until nothing is left to read, or enough waits for the helpers on a heap of as many words as
/// they start for, of which a quarter is read. Where they start at once it does nothing. Answers whether nothing is left to
/// read: then the marks are the closure of the marks before and the roots.
pub(crate) fn mark_before_helpers(
    marker: &mut Marker,
    graph: Graph,
    helpers: Helpers,
    leave: Uncounted,
) -> bool
    requires pages { length marker.old.dirty ≡ length graph.map.now }
    requires memory { length graph.memory.now ≡ PAGE_WORDS * length graph.map.now }
    requires objects { AreMarksObjects (found_in graph.map.now) marker.old }
    requires invariant { DirtyPageInvariant (found_in graph.map.now) graph.memory.now marker.old }
    ensures closure { result ≡ true → AreClosed (found_in graph.entry.map.now) graph.entry.memory.now graph.entry.roots.now marker.old marker.new }
    ensures done { result ≡ true → IsDone marker.new }
    ensures traces { Traces (found_in graph.entry.map.now) graph.entry.memory.now graph.entry.roots.now marker.old marker.new }
{
    let least = helpers.least_words();
    if least == 0 {
        return false;
    }
    let mut reader = Reader::new(graph.memory);
    let (mut read, mut wanted) = (0u64, least / 4);
    marker.scan_roots(graph.map, graph.roots);
    while let Some(more) = mark_on(marker, graph.map, &mut reader, SLICE) {
        read = read.saturating_add(more);
        if read >= wanted && is_shareable(marker, helpers) {
            if has_words(graph.map, least) {
                reader.end_uncounted(leave);
                return false;
            }
            // The heap is too small, and is not asked again.
            wanted = u64::MAX;
        }
    }
    reader.end_uncounted(leave);
    true
}
