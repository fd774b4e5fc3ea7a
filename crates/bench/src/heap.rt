//! A heap that is laid out and marked.
ghost use Rattle.std.specs.Prelude.{◌≡◌, ℕ, ◌*◌, List, length};
ghost use Rattle.words.specs.declared.limits.TheConstants.{PAGE_WORDS};
ghost use Rattle.block_map.specs.FoundIn.{found_in};
ghost use Rattle.marker.specs.Invariant.{DirtyPageInvariant};
ghost use Rattle.marker.specs.Marking.{AreMarksObjects};

use block_map::BlockMap;
use final_pause::{Graph, Helpers, Open, close_marks, close_marks_with};
use fixtures::BlockSpace;
use marker::Marker;
use pages::{Memory, Reader, Uncounted};
use std::alloc::Global;
use std::marker::{Model, Sync};
use std::sync::Wait;
use std::thread::Threads;
use words::{Kind, PageNo};

/// Blocks and marker of one heap.
#[derive(Drop)]
pub(crate) struct Heap {
    space: BlockSpace,
    marker: Marker,
    leave: Uncounted,
}

impl Model for Heap {
    ghost use Rattle.std.specs.Prelude.{◌≡◌, List, length};
    ghost use Rattle.block_map.specs.States.{PageState};

    ghost Value = { List PageState };

    ghost view = { λ h. h.space };

    ghost invariant = { λ h. length h.marker.dirty ≡ length h.space };
}

// Begins a cycle: nothing is marked.
fn begin(marker: &mut Marker, map: &BlockMap)
    requires { length marker.old.dirty ≡ length map.now }
    ensures pages { length marker.new.dirty ≡ length map.now }
    ensures objects { AreMarksObjects (found_in map.now) marker.new }
    ensures invariant { (words : List ℕ) → DirtyPageInvariant (found_in map.now) words marker.new }
{
    marker.laws();
    marker.begin(map.len());
}

// Marks all that roots reach in one pause, with so many helpers, or alone.
fn mark_in_pause<R: Threads + Wait + Sync>(
    rt: &R,
    alloc: Global,
    marker: &mut Marker,
    graph: Graph,
    helpers: Option<Helpers>,
)
    requires pages { length marker.old.dirty ≡ length graph.map.now }
    requires memory { length graph.memory.now ≡ PAGE_WORDS * length graph.map.now }
    ensures { length marker.new.dirty ≡ length graph.entry.map.now }
{
    begin(marker, graph.map);
    if let Some(helpers) = helpers {
        close_marks_with(rt, alloc, marker, graph, helpers, &Open);
        return;
    }
    let mut reader = Reader::new(graph.memory);
    close_marks(marker, graph.map, &mut reader, graph.roots);
    reader.end_uncounted(Uncounted::new(alloc));
}

// Reads all entries and then the lowest dirty page. `None` where nothing was left to read.
fn mark_on(marker: &mut Marker, map: &BlockMap, memory: &Memory, leave: Uncounted) -> Option<u64>
    requires pages { length marker.old.dirty ≡ length map.now }
    requires memory { length memory.now ≡ PAGE_WORDS * length map.now }
    requires objects { AreMarksObjects (found_in map.now) marker.old }
    ensures pages { length marker.new.dirty ≡ length map.now }
    ensures objects { AreMarksObjects (found_in map.now) marker.new }
{
    let mut reader = Reader::new(memory);
    let marked = marker.step(map, &mut reader, u64::MAX);
    let page = marker.retrace(map, &mut reader);
    reader.end_uncounted(leave);
    if page.is_none() && marked.read == 0 {
        return None;
    }
    Some(marked.read)
}

// Marks all that roots reach, in steps. Answers the words that were read off entries.
fn mark_in_steps(
    marker: &mut Marker,
    map: &BlockMap,
    memory: &Memory,
    roots: &[u64],
    leave: Uncounted,
) -> u64
    requires pages { length marker.old.dirty ≡ length map.now }
    requires memory { length memory.now ≡ PAGE_WORDS * length map.now }
    ensures { length marker.new.dirty ≡ length map.now }
{
    begin(marker, map);
    marker.scan_roots(map, roots);
    let mut read: u64 = 0;
    for _ in 0..u64::MAX {
        let Some(words) = mark_on(marker, map, memory, leave) else {
            break;
        };
        read = read.wrapping_add(words);
    }
    read
}

impl Heap {
    /// So many pages, the first of them one large object, if it is to have pages. `None` out of memory, or out of range.
    pub(crate) fn open(alloc: Global, pages: u32, large: u32) -> Option<Heap> {
        let mut space = BlockSpace::open(alloc, pages)?;
        let Ok(marker) = Marker::new(alloc, pages) else {
            return None;
        };
        space.cut_large(0, large, Kind::Normal);
        let leave = Uncounted::new(alloc);
        Some(Heap {
            space,
            marker,
            leave,
        })
    }

    /// Cuts a page for objects of two words.
    pub(crate) fn cut(&mut self, page: PageNo) {
        self.space.cut(page, 2, Kind::Normal);
    }

    /// Allocates the lowest free cell.
    pub(crate) fn take(&mut self, page: PageNo) {
        let _object = self.space.take(page);
    }

    /// Writes a word of an object.
    pub(crate) fn write(&mut self, address: u64, word: u64) {
        self.space.write(address, word);
    }

    /// Begins a cycle and marks all that roots reach. Answers the words that were read off entries.
    pub(crate) fn mark(&mut self, roots: &[u64]) -> u64 {
        let map = self.space.map();
        mark_in_steps(
            &mut self.marker,
            map,
            self.space.memory(),
            roots,
            self.leave,
        )
    }

    /// Marks all that roots reach in one pause, with so many helpers, or alone.
    pub(crate) fn pause<R: Threads + Wait + Sync>(
        &mut self,
        rt: &R,
        alloc: Global,
        roots: &[u64],
        helpers: Option<Helpers>,
    ) {
        let graph = Graph {
            map: self.space.map(),
            memory: self.space.memory(),
            roots,
        };
        mark_in_pause(rt, alloc, &mut self.marker, graph, helpers);
    }
}
