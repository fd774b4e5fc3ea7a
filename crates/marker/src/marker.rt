//! The marker's state, and the beginning of a cycle.
ghost use Rattle.std.specs.Prelude.{◌≡◌, ℕ, Option, ◌*◌, ◌<◌, ◌≤◌, List, length, slice_index_or, false};
ghost use Rattle.words.specs.declared.limits.TheConstants.{FIRST_ADDRESS, MOST_PAGES, PAGE_BYTES, PAGE_GRANULES};
ghost use Rattle.words.specs.Bits.{members, IsEmptyFrom};
ghost use Rattle.words.specs.Layout.{granule};
ghost use Rattle.pages.specs.Opening.{IsOpenedWithin};
ghost use Rattle.block_map.specs.declared.found.Found.{Found};
ghost use Rattle.block_map.specs.FoundIn.{IsLawful};
ghost use Rattle.marker.specs.Marking.{IsConsistent, IsBlank};
ghost use Rattle.block_map.specs.Objects.{IsMap};
ghost use Rattle.marker.specs.Invariant.{DirtyPageInvariant, CarriedPageInvariant};
ghost use Rattle.marker.specs.Mutations.{BeginsPartial};

use crate::entry::Entry;
use crate::stack::MarkStack;
use block_map::BlockMap;
use dirty_pages::DirtyPages;
use mark_bits::Marks;
use pages::is_page_count;
use std::alloc::Global;
use std::marker::Model;
use words::limits::PAGE_BYTES;
use words::{BitRow, OpenError, PageNo, granule_of};

/// Marks, dirty pages and the objects to be read, as one value. Where the object lies that was read last is no part of that: it says
/// which ones are begun together alone.
#[derive(Drop)]
pub struct Marker {
    pub(crate) marks: Marks,
    pub(crate) dirty: DirtyPages,
    pub(crate) carried: DirtyPages,
    pub(crate) current: Option<Entry>,
    pub(crate) stack: MarkStack,
    pub(crate) last: u64,
}

impl Model for Marker {
    ghost use Rattle.marker.specs.Marking.{Marking, IsConsistent};

    ghost Value = { Marking };

    ghost view = { λ m. record { marks = m.marks; dirty = m.dirty; carried = m.carried; current = m.current; stack = m.stack } };

    ghost invariant = { λ m. IsConsistent (record { marks = m.marks; dirty = m.dirty; carried = m.carried; current = m.current; stack = m.stack }) };
}

// The bytes of a heap.
#[inline]
pub(crate) fn heap_bytes(map: &BlockMap) -> u64
    ensures bytes { result ≡ PAGE_BYTES * length map.now }
    ensures lawful { IsLawful map.now }
{
    PAGE_BYTES * u64::from(map.len())
}

impl Marker {
    /// A marker of a heap of so many pages, with no mark, no dirty page and no entry.
    pub fn new(alloc: Global, pages: u32) -> Result<Marker, OpenError>
        ensures { IsOpenedWithin MOST_PAGES pages result (λ m. IsBlank pages m) }
    {
        if !is_page_count(pages) {
            return Err(OpenError::BadPages);
        }
        let marks = Marks::new(alloc, pages)?;
        let dirty = DirtyPages::new(alloc, pages)?;
        let carried = DirtyPages::new(alloc, pages)?;
        Ok(Marker {
            marks,
            dirty,
            carried,
            current: None,
            stack: MarkStack::new(),
            last: 0,
        })
    }

    /// What is true of every marker.
    #[inline]
    pub fn laws(&self)
        ensures { IsConsistent self.now }
    {
        let _marks = &self.marks;
    }

    /// Begins a cycle: no mark, no dirty page and no entry. No mark is on a page from `used` on, and those pages cost nothing.
    #[tactic(auto, using(crate::proofs::Mutating::mutating))]
    pub fn begin(&mut self, used: PageNo)
        requires inside { used ≤ length self.old.dirty }
        requires unmarked { IsEmptyFrom self.old.marks (PAGE_GRANULES * used) }
        ensures blank { IsBlank (length self.old.dirty) self.new }
        ensures invariant { (found : ℕ → Option Found) (words : List ℕ) → DirtyPageInvariant found words self.new }
        ensures carried { (found : ℕ → Option Found) (words : List ℕ) → CarriedPageInvariant found words self.new }
    {
        self.marks.clear_used(used);
        self.dirty.clear_all();
        self.carried.clear_all();
        self.current = None;
        self.stack.clear();
    }

    /// How many pages are dirty, counted by whole words.
    pub fn count_dirty(&self) -> u32
        ensures { result ≡ members self.now.dirty }
    {
        self.dirty.count()
    }

    /// Begins a cycle with the marks of the last one: the carried pages are dirty now, and none is carried.
    pub fn begin_partial(&mut self)
        ensures begins { BeginsPartial self.old self.new }
        ensures invariant { (found : ℕ → Option Found) (words : List ℕ) → IsMap (length self.old.dirty) found → CarriedPageInvariant found words self.old → DirtyPageInvariant found words self.new }
        ensures carried { (found : ℕ → Option Found) (words : List ℕ) → CarriedPageInvariant found words self.old → CarriedPageInvariant found words self.new }
    {
        // Its clauses tell that both rows have the same pages.
        self.laws();
        self.dirty.add(&self.carried);
        self.carried.clear_all();
    }

    /// Whether the object with this base is marked.
    #[inline]
    pub fn is_marked(&self, base: u64) -> bool
        requires low { FIRST_ADDRESS ≤ base }
        requires inside { granule base < length self.now.marks }
        ensures { result ≡ slice_index_or self.now.marks (granule base) false }
    {
        self.marks.is_set(granule_of(base))
    }

    /// The marks, as the row of the heap's granules.
    #[inline]
    pub fn mark_row(&self) -> &BitRow
        ensures { result.now ≡ self.now.marks }
    {
        self.marks.row()
    }
}
