//! The object that a word points into. No search: the word's page, one look at what stands there, and in a block one
//! multiplication.
ghost use Rattle.std.specs.Prelude.{◌≡◌, ℕ, ◌+◌, ◌*◌, ◌%◌, ◌<◌, ◌≤◌, length, IfSome, MatchOption, Some};
ghost use Rattle.words.specs.declared.class.Kind.{Kind};
ghost use Rattle.words.specs.declared.limits.TheConstants.{FIRST_ADDRESS, GRANULE_BYTES, MOST_PAGES, PAGE_BYTES, WORD_BYTES};
ghost use Rattle.words.specs.Layout.{page_start, IsOnPage, IsOutside};
ghost use Rattle.blocks.specs.Cells.{IsCells};
ghost use Rattle.block_map.specs.States.{head, state_at};
ghost use Rattle.block_map.specs.Objects.{IsFoundOrNone, LiesOnPage, cell_object, large_object};
ghost use Rattle.block_map.specs.FoundIn.{found_in, found_in_block, found_large, IsLawful};
ghost use Rattle.block_map.specs.declared.found.Found.{Found};

use crate::found::Found;
use crate::map::BlockMap;
use crate::page::Page;
use blocks::{Block, LargeHead};
use words::limits::{FIRST_ADDRESS, GRANULE_BYTES, PAGE_BYTES, PAGE_WORDS, WORD_BYTES};
use words::{PageNo, page_of, page_start};

impl BlockMap {
    ghost use Rattle.block_map.specs.States.{IsLaid};

    /// The allocated object that a word points into, and `None` exactly where it points into none.
    #[inline]
    pub fn find(&self, w: u64) -> Option<Found>
        ensures found { result ≡ found_in self.now w }
        ensures answer { IsFoundOrNone self.now w result }
        ensures lawful { IsLawful self.now }
    {
        self.look_up(w)
    }

    /// What [`find`](BlockMap::find) answers of a word whose page is cut, in fewer steps, and `None` of one whose page isn't.
    #[inline]
    pub fn find_in_cell(&self, w: u64) -> Option<Option<Found>>
        requires above { FIRST_ADDRESS ≤ w }
        requires below { w < FIRST_ADDRESS + PAGE_BYTES * length self.now }
        ensures found { IfSome result (λ answer. answer ≡ found_in self.now w) }
        ensures lawful { IsLawful self.now }
    {
        self.laws();
        let page = page_of(w) as PageNo;
        if let Page::Cut(block) = self.page(page) {
            return Some(find_in_block(page, block, w));
        }
        None
    }

    /// The object that begins at an address, if it has a cell. It costs less than a look-up of a word.
    #[inline(always)]
    pub fn base_in_cell(&self, w: u64) -> Option<Found>
        requires aligned { w % GRANULE_BYTES ≡ 0 }
        requires above { FIRST_ADDRESS ≤ w }
        requires below { w < FIRST_ADDRESS + PAGE_BYTES * length self.now }
        ensures found { IfSome result (λ f. (found_in self.now w ≡ Some f) × (f.base ≡ w)) }
        ensures lawful { IsLawful self.now }
    {
        self.laws();
        let page = page_of(w);
        if let Some(Page::Cut(block)) = self.made_page(page as usize) {
            return object_begun(page as PageNo, block, w);
        }
        None
    }

    /// The object with this base. It costs less than a look-up of a word.
    #[inline]
    pub fn object_at(&self, base: u64) -> Found
        requires base { (f : Found) × (found_in self.now base ≡ Some f) × (f.base ≡ base) }
        ensures object { found_in self.now base ≡ Some result }
        ensures on_page { LiesOnPage result }
    {
        self.laws();
        let page = page_of(base) as PageNo;
        if let Page::Cut(block) = self.page(page) {
            return object_in_block(page, block, base);
        }
        self.large(page)
    }

    // What `find` answers; large objects lie on consecutive pages, and blocks have the cells of their class. Most words
    // point into cells, so that a cut page is asked for first.
    #[inline]
    #[tactic(auto, using(crate::proofs::Finding::finding))]
    fn look_up(&self, w: u64) -> Option<Found>
        ensures found { result ≡ found_in self.now w }
        ensures laid { IsLaid self.now }
    {
        let Some(page) = self.page_at(w) else {
            return None;
        };
        if let Page::Cut(block) = self.page(page) {
            return find_in_block(page, block, w);
        }
        self.look_on(page, w)
    }

    // The object that a word of a page points into, whatever stands on the page.
    #[inline(never)]
    #[tactic(auto, using(crate::proofs::Finding::finding))]
    fn look_on(&self, page: PageNo, w: u64) -> Option<Found>
        requires inside { page < length self.now }
        requires on { IsOnPage page w }
        ensures { result ≡ found_in self.now w }
    {
        match self.page(page) {
            Page::Free => None,
            Page::Cut(block) => find_in_block(page, block, w),
            Page::Head(large) => Some(large_at(page, *large)),
            Page::Body(first) => Some(self.large(*first)),
        }
    }

    // The page that has an address, and `None` exactly for an address outside of the heap.
    #[inline]
    #[tactic(auto, using(words::proofs::Addresses::addresses))]
    fn page_at(&self, address: u64) -> Option<PageNo>
        ensures page { MatchOption result (IsOutside (length self.now) address) (λ page. IsOnPage page address × (page < length self.now)) }
        ensures laid { IsLaid self.now }
    {
        let pages = u64::from(self.len());
        if address < FIRST_ADDRESS {
            return None;
        }
        let page = page_of(address);
        if page < pages {
            Some(page as PageNo)
        } else {
            None
        }
    }

    // The large object that begins on a page.
    #[inline]
    #[tactic(auto, using(crate::proofs::Finding::finding))]
    pub(crate) fn large(&self, page: PageNo) -> Found
        requires inside { page < length self.now }
        requires head { (n : ℕ) × (kind : Kind) × (state_at self.now page ≡ head n kind) }
        ensures { found_large page (state_at self.now page) ≡ Some result }
    {
        match self.page(page) {
            Page::Head(large) => large_at(page, *large),
            Page::Free | Page::Cut(_) | Page::Body(_) => unreachable!(),
        }
    }
}

// The object of a block that a word of its page points into.
#[inline]
#[tactic(auto, using(crate::proofs::Finding::on_page))]
fn find_in_block(page: PageNo, block: &Block, w: u64) -> Option<Found>
    requires { page < MOST_PAGES }
    ensures found { result ≡ found_in_block page block.now w }
    ensures cells { IsCells block.now }
{
    let Some(cell) = block.cell_of(w) else {
        return None;
    };
    if block.is_taken(cell) {
        Some(cell_at(page, block, cell))
    } else {
        None
    }
}

// The object of a block that begins at a granule of its page. The base isn't computed from the cell again.
#[inline(always)]
fn object_begun(page: PageNo, block: &Block, base: u64) -> Option<Found>
    requires page { page < MOST_PAGES }
    requires on { IsOnPage page base }
    requires aligned { base % GRANULE_BYTES ≡ 0 }
    ensures object { IfSome result (λ f. (found_in_block page block.now base ≡ Some f) × (f.base ≡ base)) }
{
    let granule = (base % PAGE_BYTES / GRANULE_BYTES) as u32;
    let Some(cell) = block.taken_from(granule) else {
        return None;
    };
    Some(Found {
        base,
        len: u32::from(block.class().words()),
        kind: block.kind(),
        page,
        cell,
    })
}

/// The object of a block that begins at an address of its page, and `None` exactly where none does. It costs less than a
/// look-up of the address.
#[inline]
pub fn object_from(page: PageNo, block: &Block, base: u64) -> Option<Found>
    requires { page < MOST_PAGES }
    ensures object { MatchOption result ((f : Found) → found_in_block page block.now base ≡ Some f → f.base ≡ base → ⊥) (λ f. (found_in_block page block.now base ≡ Some f) × (f.base ≡ base)) }
    ensures inside { IfSome result (λ f. f.base + WORD_BYTES * f.len ≤ page_start (page + 1)) }
{
    let Some(found) = find_in_block(page, block, base) else {
        return None;
    };
    if found.base == base {
        Some(found)
    } else {
        None
    }
}

/// The object of a block with this base. It costs less than a look-up of an address. The base isn't computed from the cell again.
#[inline]
#[tactic(auto, using(crate::proofs::Finding::on_page))]
pub fn object_in_block(page: PageNo, block: &Block, base: u64) -> Found
    requires page { page < MOST_PAGES }
    requires base { (f : Found) × (found_in_block page block.now base ≡ Some f) × (f.base ≡ base) }
    ensures object { found_in_block page block.now base ≡ Some result }
    ensures base { result.base ≡ base }
    ensures on_page { result.base % PAGE_BYTES + WORD_BYTES * result.len ≤ PAGE_BYTES }
{
    Found {
        base,
        len: u32::from(block.class().words()),
        kind: block.kind(),
        page,
        cell: block.cell_under(base),
    }
}

// The object in a cell of a block.
#[inline]
#[tactic(auto, using(crate::proofs::Finding::on_page))]
pub(crate) fn cell_at(page: PageNo, block: &Block, cell: u16) -> Found
    requires page { page < MOST_PAGES }
    requires cell { cell < length block.now.taken }
    ensures { result ≡ cell_object page block.now cell }
{
    let words = block.class().words();
    Found {
        base: page_start(page) + u64::from(cell) * (WORD_BYTES * u64::from(words)),
        len: u32::from(words),
        kind: block.kind(),
        page,
        cell,
    }
}

// The large object that begins on a page.
#[inline]
pub(crate) fn large_at(page: PageNo, large: LargeHead) -> Found
    requires page { page < MOST_PAGES }
    requires few { large.pages ≤ MOST_PAGES }
    ensures { result ≡ large_object page large.pages large.kind }
{
    Found {
        base: page_start(page),
        len: PAGE_WORDS as u32 * large.pages,
        kind: large.kind,
        page,
        cell: 0,
    }
}
