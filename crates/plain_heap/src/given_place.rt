//! Whether a new object may go to a place that is given.
ghost use Rattle.std.specs.Prelude.{◌≡◌, ℕ, ◌<◌, ◌≤◌, ◌+◌, IfSome, IfNone, false, IsTrue};
ghost use Rattle.words.specs.declared.limits.TheConstants.{MAX_PAGES, MAX_SMALL_WORDS, PAGE_BYTES};
ghost use Rattle.words.specs.Layout.{page_start};
ghost use Rattle.heap_spec.specs.Room.{length_of};
ghost use Rattle.plain_heap.specs.Places.{IsCellAt, IsPlace, IsSmallPlace, IsLargePlace, IsSized};

use crate::directory::Directory;
use crate::extent::Extent;
use words::limits::{FIRST_ADDRESS, PAGE_BYTES, PAGE_WORDS, WORD_BYTES};
use words::{Kind, PageNo, Placement, page_of, page_start};

// The page that an address lies on.
fn page_at(pages: u32, address: u64) -> Option<PageNo>
    requires { pages ≤ MAX_PAGES }
    ensures some { IfSome result (λ page. (page < pages) × (page_start page ≤ address) × (address < page_start page + PAGE_BYTES)) }
    ensures none { IfNone result ((page : ℕ) → page < pages → page_start page ≤ address → address < page_start page + PAGE_BYTES → ⊥) }
{
    if address < FIRST_ADDRESS {
        return None;
    }
    let page = page_of(address);
    if page >= u64::from(pages) {
        return None;
    }
    Some(page as PageNo)
}

// Whether the address is that of a cell of the page.
fn is_cell(page: PageNo, length: u64, address: u64) -> bool
    requires some { (0 < length) × (length ≤ MAX_SMALL_WORDS) }
    requires on { (page_start page ≤ address) × (address < page_start page + PAGE_BYTES) }
    ensures yes { IsTrue result → IsCellAt page length address }
    ensures no { result ≡ false → IsCellAt page length address → ⊥ }
{
    let offset = address - page_start(page);
    let size = WORD_BYTES * length;
    offset % size == 0 && offset + size <= PAGE_BYTES
}

impl Directory {
    // Whether an object of a class may go to the address.
    fn is_small_place(&self, pages: u32, length: u64, kind: Kind, address: u64) -> bool
        requires some { (0 < length) × (length ≤ MAX_SMALL_WORDS) }
        requires pages { pages ≤ MAX_PAGES }
        ensures yes { IsTrue result → IsSmallPlace self.now.objects.items pages length kind address }
        ensures no { result ≡ false → IsSmallPlace self.now.objects.items pages length kind address → ⊥ }
    {
        let Some(page) = page_at(pages, address) else {
            return false;
        };
        if !is_cell(page, length, address) {
            return false;
        }
        if self.has_base(address) {
            return false;
        }
        self.is_cut_for(page, length, kind)
    }

    // Whether a large object may go to the address.
    fn is_large_place(&self, pages: u32, count: u32, address: u64) -> bool
        requires some { 1 ≤ count }
        requires pages { pages ≤ MAX_PAGES }
        ensures yes { IsTrue result → IsLargePlace self.now.objects.items pages count address }
        ensures no { result ≡ false → IsLargePlace self.now.objects.items pages count address → ⊥ }
    {
        let Some(first) = page_at(pages, address) else {
            return false;
        };
        if address != page_start(first) {
            return false;
        }
        if count > pages - first {
            return false;
        }
        self.is_free_run(first, count)
    }

    // A new object of a placement at this base, as the extent that it has there, if it may go there.
    pub(crate) fn place_at(
        &self,
        pages: u32,
        placement: Placement,
        kind: Kind,
        base: u64,
    ) -> Option<Extent>
        requires pages { pages ≤ MAX_PAGES }
        requires sized { IsSized placement }
        ensures some { IfSome result (λ e. (e.base ≡ base) × (e.kind ≡ kind) × (e.length ≡ length_of placement) × IsPlace self.now.objects.items pages placement kind base) }
        ensures none { IfNone result (IsPlace self.now.objects.items pages placement kind base → ⊥) }
    {
        match placement {
            Placement::Small(class) => {
                let length = u64::from(class.words());
                if !self.is_small_place(pages, length, kind, base) {
                    return None;
                }
                Some(Extent { base, kind, length })
            }
            Placement::Large(count) => {
                let length = PAGE_WORDS * u64::from(count);
                if !self.is_large_place(pages, count, base) {
                    return None;
                }
                Some(Extent { base, kind, length })
            }
        }
    }
}
