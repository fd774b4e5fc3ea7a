//! A heap under a marker. Each call looks first whether its conditions hold, and answers whether they did.
use crate::coming::{large_at, receive};
use block_map::{BlockMap, Found};
use final_pause::{Gate, Graph, Helpers, close_marks_with};
use fixtures::{are_free, small_class};
use marker::{Marked, Marker};
use pages::{Memory, Reader, Uncounted};
use std::alloc::Global;
use std::marker::Model;
use std::sync::Wait;
use std::thread::Threads;
use words::limits::{FIRST_ADDRESS, PAGE_BYTES, WORD_BYTES};
use words::{Kind, PageNo};

/// Objects that come and are written while a marker marks them.
#[derive(Drop)]
pub(crate) struct Heap {
    alloc: Global,
    map: BlockMap,
    memory: Memory,
    marker: Marker,
    leave: Uncounted,
}

impl Model for Heap {
    ghost use Rattle.marker.specs.Marking.{Marking};
    ghost use Rattle.test_marking.specs.Marked.{IsOfOneHeap};

    ghost Value = { Marking };

    ghost view = { λ h. h.marker };

    ghost invariant = { λ h. IsOfOneHeap h.map h.memory h.marker };
}

impl Heap {
    /// So many pages with no object. `None` where there is no memory, or out of range.
    #[tactic(auto, using(fixtures::proofs::Lists::lists))]
    pub(crate) fn open(alloc: Global, pages: u32) -> Option<Heap> {
        let Ok(map) = BlockMap::new(alloc, pages) else {
            return None;
        };
        let Ok(memory) = Memory::new(alloc, pages) else {
            return None;
        };
        let Ok(marker) = Marker::new(alloc, pages) else {
            return None;
        };
        Some(Heap {
            alloc,
            map,
            memory,
            marker,
            leave: Uncounted::new(alloc),
        })
    }

    /// Cuts a free page for a request of so many words.
    pub(crate) fn cut(&mut self, page: PageNo, words: u64, kind: Kind) -> bool {
        let Some(class) = small_class(words) else {
            return false;
        };
        if page >= self.map.len() {
            return false;
        }
        if !self.map.is_free(page) {
            return false;
        }
        self.map.cut(&mut self.memory, page, class, kind);
        true
    }

    /// Allocates the first free cell of a block: its words become 0.
    pub(crate) fn allocate(&mut self, page: PageNo) -> Option<Found> {
        if page >= self.map.len() {
            return None;
        }
        let Some(block) = self.map.block(page) else {
            return None;
        };
        if !block.is_listed() {
            return None;
        }
        let Some(taken) = self.map.take(&self.memory, page) else {
            return None;
        };
        receive(&self.map, &mut self.memory, &mut self.marker, taken.object);
        Some(taken.object)
    }

    /// Makes free pages one large object, whose words become 0.
    #[tactic(auto, using(fixtures::proofs::Lists::lists))]
    pub(crate) fn allocate_large(
        &mut self,
        first: PageNo,
        pages: u32,
        kind: Kind,
    ) -> Option<Found> {
        if pages == 0
            || first > self.map.len()
            || pages > self.map.len() - first
            || !are_free(&self.map, first, first + pages)
        {
            return None;
        }
        let found = large_at(first, pages, kind);
        self.map.cut_large(first, pages, kind);
        receive(&self.map, &mut self.memory, &mut self.marker, found);
        Some(found)
    }

    /// Writes a word of an object.
    #[tactic(auto, using(fixtures::proofs::Lists::lists))]
    pub(crate) fn store(&mut self, address: u64, word: u64) -> bool {
        if address % WORD_BYTES != 0 {
            return false;
        }
        self.map.laws();
        let Some(_) = self.map.find(address) else {
            return false;
        };
        self.memory.write(address, word);
        self.marker.written(address);
        true
    }

    /// Whether the object with this base is marked.
    pub(crate) fn is_marked(&self, base: u64) -> bool {
        self.marker.laws();
        base >= FIRST_ADDRESS
            && (base - FIRST_ADDRESS) / PAGE_BYTES < u64::from(self.map.len())
            && self.marker.is_marked(base)
    }

    /// The number of pages.
    pub(crate) fn pages(&self) -> u32 {
        self.map.len()
    }

    /// Begins a cycle.
    pub(crate) fn begin(&mut self) {
        self.marker.laws();
        self.marker.begin(self.map.len());
    }

    /// Marks what root words point into.
    pub(crate) fn scan_roots(&mut self, roots: &[u64]) {
        self.marker.scan_roots(&self.map, roots);
    }

    /// Reads words of entries, at most so many.
    pub(crate) fn step(&mut self, budget: u64) -> Marked {
        let mut reader = Reader::new(&self.memory);
        let marked = self.marker.step(&self.map, &mut reader, budget);
        reader.end_uncounted(self.leave);
        marked
    }

    /// Reads the lowest dirty page again.
    pub(crate) fn retrace(&mut self) -> Option<PageNo> {
        let mut reader = Reader::new(&self.memory);
        let page = self.marker.retrace(&self.map, &mut reader);
        reader.end_uncounted(self.leave);
        page
    }

    /// Ends the marking in one pause with helpers.
    pub(crate) fn close_with<R: Threads + Wait + Sync, G: Gate>(
        &mut self,
        rt: &R,
        roots: &[u64],
        helpers: Helpers,
        gate: &G,
    ) {
        let graph = Graph {
            map: &self.map,
            memory: &self.memory,
            roots,
        };
        close_marks_with(rt, self.alloc, &mut self.marker, graph, helpers, gate);
    }
}
