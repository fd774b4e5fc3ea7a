//! A heap beside the test's own account of it.
use crate::graph::Graph;
use crate::heap::Heap;
use block_map::Found;
use std::alloc::Global;
use std::process::Abort;
use std::test::Fail;
use words::limits::{FIRST_ADDRESS, GRANULE_BYTES, PAGE_GRANULES};
use words::{Kind, PageNo};

/// A heap, and what was put there.
#[derive(Drop)]
pub(crate) struct Scene {
    pub(crate) alloc: Global,
    pub(crate) heap: Heap,
    pub(crate) graph: Graph,
}

// The address of a word of an object.
fn word_of(found: Found, index: u32) -> u64 {
    found.base.wrapping_add(8 * u64::from(index))
}

// How many of these objects are marked.
fn count_marked(heap: &Heap, objects: &[Found]) -> usize {
    let mut count: usize = 0;
    for found in objects {
        if heap.is_marked(found.base) {
            count = count.saturating_add(1);
        }
    }
    count
}

impl Scene {
    /// So many pages with no object.
    pub(crate) fn open(alloc: Global, pages: u32) -> Result<Scene, Fail> {
        let heap = Heap::open(alloc, pages).ok_or("a heap")?;
        let graph = Graph::new(alloc);
        Ok(Scene { alloc, heap, graph })
    }

    /// Allocates the lowest free cell of a page that is cut.
    pub(crate) fn allocate(&mut self, page: PageNo) -> Result<Found, Fail> {
        let found = self.heap.allocate(page).ok_or("a free cell")?;
        self.graph.add(found)?;
        Ok(found)
    }

    // Allocates the first cells of a page that is cut.
    fn fill(&mut self, page: PageNo, cells: u16) -> Result<(), Fail> {
        for _ in 0..cells {
            let _ = self.allocate(page)?;
        }
        Ok(())
    }

    /// Cuts pages, and allocates the first cells of each: (page, words of a cell, kind, cells).
    pub(crate) fn lay(
        &mut self,
        rt: &impl Abort,
        blocks: &[(PageNo, u64, Kind, u16)],
    ) -> Result<(), Fail> {
        for (page, words, kind, cells) in blocks {
            assert!(rt; self.heap.cut(*page, *words, *kind), "page {page} is free");
            self.fill(*page, *cells)?;
        }
        Ok(())
    }

    /// Makes free pages one large object.
    pub(crate) fn allocate_large(
        &mut self,
        first: PageNo,
        pages: u32,
        kind: Kind,
    ) -> Result<Found, Fail> {
        let found = self
            .heap
            .allocate_large(first, pages, kind)
            .ok_or("free pages")?;
        self.graph.add(found)?;
        Ok(found)
    }

    /// The object with this number, in the order in which they came.
    pub(crate) fn object(&self, number: usize) -> Result<Found, Fail> {
        let objects = self.graph.objects();
        Ok(objects.get(number).copied().ok_or("an object")?)
    }

    /// Writes a word of an object.
    pub(crate) fn store(
        &mut self,
        rt: &impl Abort,
        found: Found,
        index: u32,
        word: u64,
    ) -> Result<(), Fail> {
        let address = word_of(found, index);
        assert!(rt; self.heap.store(address, word), "a word at {address}");
        self.graph.write(address, word)
    }

    /// Makes words of objects point to objects: (from, index of the word, to).
    pub(crate) fn link(
        &mut self,
        rt: &impl Abort,
        arrows: &[(usize, u32, usize)],
    ) -> Result<(), Fail> {
        for (from, index, to) in arrows {
            let (from, to) = (self.object(*from)?, self.object(*to)?);
            self.store(rt, from, *index, to.base)?;
        }
        Ok(())
    }

    /// Which objects are marked, in the order in which they came.
    pub(crate) fn marked(&self) -> Result<Vec<bool>, Fail> {
        let mut marked = Vec::new(self.alloc);
        for found in self.graph.objects() {
            marked.push(self.heap.is_marked(found.base))?;
        }
        Ok(marked)
    }

    /// How many objects are marked.
    pub(crate) fn marks(&self) -> usize {
        count_marked(&self.heap, self.graph.objects())
    }

    /// Exactly these objects are marked, each of its own base.
    pub(crate) fn assert_marked(&self, rt: &impl Abort, wanted: &[bool]) {
        let objects = self.graph.objects();
        assert_eq!(rt; objects.len(), wanted.len());
        for i in 0..objects.len().min(wanted.len()) {
            assert_eq!(rt;
                self.heap.is_marked(objects[i].base),
                wanted[i],
                "object {i}"
            );
        }
    }

    /// No granule is marked but bases of objects.
    pub(crate) fn assert_no_other_mark(&self, rt: &impl Abort) {
        for granule in 0..PAGE_GRANULES * u64::from(self.heap.pages()) {
            let address = FIRST_ADDRESS + GRANULE_BYTES * granule;
            let is_base = self.graph.has_base(address);
            assert!(rt; is_base || !self.heap.is_marked(address), "at {address}");
        }
    }
}
