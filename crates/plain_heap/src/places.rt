//! Where a new object may go, found page by page.
ghost use Rattle.std.specs.Prelude.{◌≡◌, ℕ, ◌<◌, ◌≤◌, ◌*◌, ◌%◌, ◌+◌, ◌^◌, IfSome, IfNone, false, IsTrue};
ghost use Rattle.words.specs.declared.limits.TheConstants.{WORD_BYTES, GRANULE_WORDS, PAGE_WORDS, MAX_PAGES, MAX_SMALL_WORDS};
ghost use Rattle.words.specs.Layout.{page_start};
ghost use Rattle.heap_spec.specs.Room.{length_of};
ghost use Rattle.plain_heap.specs.Places.{IsPlace, IsPlaceOn, IsSmallPlace, IsLargePlace, IsFreePage, IsNoBase, IsSized};

use crate::directory::Directory;
use crate::extent::Extent;
use words::limits::{PAGE_WORDS, WORD_BYTES};
use words::{Kind, PageNo, Placement, page_start};

impl Directory {
    // The first cell of the page that is no object's base.
    fn free_cell(&self, page: PageNo, length: u64) -> Option<u64>
        requires some { 0 < length }
        ensures some { IfSome result (λ a. (cell : ℕ) × (length * (cell + 1) ≤ PAGE_WORDS) × (a ≡ page_start page + WORD_BYTES * (length * cell)) × IsNoBase self.now.objects.items a) }
        ensures none { IfNone result ((cell : ℕ) → length * (cell + 1) ≤ PAGE_WORDS → IsNoBase self.now.objects.items (page_start page + WORD_BYTES * (length * cell)) → ⊥) }
    {
        for cell in 0..PAGE_WORDS / length {
            let address = page_start(page) + WORD_BYTES * (length * cell);
            if !self.has_base(address) {
                return Some(address);
            }
        }
        None
    }

    // A place on the page for an object of a class.
    fn place_on(&self, page: PageNo, length: u64, kind: Kind) -> Option<u64>
        requires some { (0 < length) × (length ≤ MAX_SMALL_WORDS) × (length % GRANULE_WORDS ≡ 0) }
        ensures some { IfSome result (IsPlaceOn self.now.objects.items page length kind) }
        ensures none { IfNone result ((a : ℕ) → IsPlaceOn self.now.objects.items page length kind a → ⊥) }
    {
        if !self.is_cut_for(page, length, kind) {
            return None;
        }
        self.free_cell(page, length)
    }

    // A place for an object of a class.
    fn small_place(&self, pages: u32, length: u64, kind: Kind) -> Option<u64>
        requires some { (0 < length) × (length ≤ MAX_SMALL_WORDS) × (length % GRANULE_WORDS ≡ 0) }
        ensures some { IfSome result (IsSmallPlace self.now.objects.items pages length kind) }
        ensures none { IfNone result ((a : ℕ) → IsSmallPlace self.now.objects.items pages length kind a → ⊥) }
    {
        for page in 0..pages {
            if let Some(address) = self.place_on(page, length, kind) {
                return Some(address);
            }
        }
        None
    }

    // Whether no object lies on so many pages from the first on.
    pub(crate) fn is_free_run(&self, first: PageNo, count: u32) -> bool
        requires few { first + count < 2 ^ 32 }
        ensures yes { IsTrue result → (page : ℕ) → first ≤ page → page < first + count → IsFreePage self.now.objects.items page }
        ensures no { result ≡ false → ((page : ℕ) → first ≤ page → page < first + count → IsFreePage self.now.objects.items page) → ⊥ }
    {
        for page in first..first + count {
            if !self.is_free(page) {
                return false;
            }
        }
        true
    }

    // A place for a large object.
    fn large_place(&self, pages: u32, count: u32) -> Option<u64>
        requires pages { pages ≤ MAX_PAGES }
        ensures some { IfSome result (IsLargePlace self.now.objects.items pages count) }
        ensures none { IfNone result ((a : ℕ) → IsLargePlace self.now.objects.items pages count a → ⊥) }
    {
        for first in 0..(pages + 1).saturating_sub(count) {
            if self.is_free_run(first, count) {
                return Some(page_start(first));
            }
        }
        None
    }

    // A place for a new object, as the extent that it has there.
    pub(crate) fn place_for(&self, pages: u32, placement: Placement, kind: Kind) -> Option<Extent>
        requires pages { pages ≤ MAX_PAGES }
        requires sized { IsSized placement }
        ensures some { IfSome result (λ e. (e.kind ≡ kind) × (e.length ≡ length_of placement) × IsPlace self.now.objects.items pages placement kind e.base) }
        ensures none { IfNone result ((a : ℕ) → IsPlace self.now.objects.items pages placement kind a → ⊥) }
    {
        match placement {
            Placement::Small(class) => {
                let length = u64::from(class.words());
                let base = self.small_place(pages, length, kind)?;
                Some(Extent { base, kind, length })
            }
            Placement::Large(count) => {
                let length = PAGE_WORDS * u64::from(count);
                let base = self.large_place(pages, count)?;
                Some(Extent { base, kind, length })
            }
        }
    }
}
