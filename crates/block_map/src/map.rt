//! The map of a heap, seen as the list of what stands on its pages, and through `found_in` as a function from every
//! word to the object that it points into.
ghost use Rattle.std.specs.Prelude.{◌≡◌, ℕ, ◌+◌, ◌*◌, ◌<◌, ◌≤◌, true, List, length, slice_set, take, IfNone, IfSome, MatchBool, Some};
ghost use Rattle.words.specs.declared.limits.TheConstants.{MOST_PAGES, PAGE_GRANULES};
ghost use Rattle.pages.specs.Opening.{IsOpenedWithin};
ghost use Rattle.words.specs.Layout.{page_of, page_start};
ghost use Rattle.block_map.specs.declared.found.Found.{Found};
ghost use Rattle.block_map.specs.States.{free, state_at, all_free, large_states, span_of, HasCell, IsCut, AreFreePages, IsSpanSet};
ghost use Rattle.pages.specs.Memory.{with_word_at};
ghost use Rattle.blocks.specs.Lists.{ChangesPage};
ghost use Rattle.block_map.specs.FreeCells.{IsFullOn, TellsOf};
ghost use Rattle.block_map.specs.Listed.{first_object, first_on, with_first, with_put, with_taken, AreListed, ChangesFreeOn, HasFirst, IsLinked};
ghost use Rattle.block_map.specs.Objects.{object_on, large_object};
ghost use Rattle.block_map.specs.FoundIn.{found_in, IsLawful};
ghost use Rattle.block_map.specs.Sweeps.{SweepsObjects, SweepsOn};
ghost use Rattle.block_map.specs.Takings.{TakesCells};
ghost use Rattle.block_map.specs.Changes.{IsSameMap, IsAdded, IsRemoved, IsCleared, IsUncut};

use crate::found::{Put, Taken, TakenCells};
use crate::look::cell_at;
use crate::page::Page;
use crate::page_list::PageList;
use blocks::Block;
use pages::{Memory, is_page_count};
use std::alloc::Global;
use std::marker::Model;
use words::{BitRow, Class, Kind, OpenError, PageNo};

/// What stands on the pages of a heap.
#[derive(Drop)]
pub struct BlockMap {
    pages: PageList,
}

impl Model for BlockMap {
    ghost use Rattle.std.specs.Prelude.{List};
    ghost use Rattle.block_map.specs.States.{PageState, IsLaid};

    ghost Value = { List PageState };

    ghost view = { λ m. m.pages };

    ghost invariant = { λ m. IsLaid m.pages };
}

impl BlockMap {
    ghost use Rattle.block_map.specs.Shown.{shown};
    ghost use Rattle.block_map.specs.States.{IsLaid};

    /// So many pages, each of them free.
    #[tactic(auto, using(crate::proofs::Laid::laid, crate::proofs::Changing::changing))]
    pub fn new(alloc: Global, pages: u32) -> Result<BlockMap, OpenError>
        ensures { IsOpenedWithin MOST_PAGES pages result (λ m. AreFreePages m pages) }
    {
        if !is_page_count(pages) {
            return Err(OpenError::BadPages);
        }
        let pages = PageList::new(alloc, pages)?;
        Ok(BlockMap { pages })
    }

    /// What is true of every map.
    #[inline]
    #[tactic(auto, using(crate::proofs::Lawful::laws))]
    pub fn laws(&self)
        ensures small { length self.now ≤ MOST_PAGES }
        ensures laid { IsLaid self.now }
        ensures lawful { IsLawful self.now }
    {
        let _pages = &self.pages;
    }

    /// The number of pages.
    #[tactic(auto, using(crate::proofs::Lawful::laws))]
    pub fn len(&self) -> u32
        ensures len { result ≡ length self.now }
        ensures small { result ≤ MOST_PAGES }
        ensures laid { IsLaid self.now }
        ensures lawful { IsLawful self.now }
    {
        self.pages.len()
    }

    /// How many pages, from the first one on, may have something on them: past them all are free, and nothing of the map was
    /// ever written there.
    #[inline]
    pub fn used(&self) -> u32
        ensures inside { result ≤ length self.now }
        ensures past { (k : ℕ) → result ≤ k → state_at self.now k ≡ free }
        ensures below { (w : ℕ) (f : Found) → found_in self.now w ≡ Some f → page_of w < result }
    {
        self.pages.used()
    }

    /// Cuts a free page into cells of a class, and makes them a list. No word points into another object than before.
    #[tactic(auto, using(crate::proofs::Laid::laid, crate::proofs::Changing::changing))]
    pub fn cut(&mut self, memory: &mut Memory, page: PageNo, class: Class, kind: Kind)
        requires inside { page < length self.old }
        requires free { state_at self.old page ≡ free }
        requires listed { AreListed memory.old self.old }
        ensures states { self.new ≡ slice_set self.old page (all_free class kind) }
        ensures same { IsSameMap (found_in self.old) (found_in self.new) }
        ensures memory { ChangesPage memory.old memory.new page }
        ensures listed { AreListed memory.new self.new }
    {
        self.laws();
        let block = Block::new(memory, page, class, kind);
        self.pages.put_page(page as usize, Page::Cut(block));
    }

    /// Makes free pages one large object, which is allocated from then on.
    #[tactic(auto, using(crate::proofs::Laid::laid, crate::proofs::Changing::changing))]
    pub fn cut_large(&mut self, first: PageNo, pages: u32, kind: Kind)
        requires inside { first + pages ≤ length self.old }
        requires some { 0 < pages }
        requires free { (k : ℕ) → first ≤ k → k < first + pages → state_at self.old k ≡ free }
        ensures states { IsSpanSet self.old self.new first pages (large_states first pages kind) }
        ensures added { IsAdded (found_in self.old) (found_in self.new) (large_object first pages kind) }
    {
        self.pages.fill_large(first, pages, kind);
    }

    /// Makes the page of a block free, or all pages of the large object that begins there.
    #[tactic(auto, using(crate::proofs::Laid::laid, crate::proofs::Changing::changing))]
    pub fn uncut(&mut self, page: PageNo)
        requires inside { page < length self.old }
        requires used { 0 < span_of (state_at self.old page) }
        ensures states { IsSpanSet self.old self.new page (span_of (state_at self.old page)) (λ _. free) }
        ensures cleared { IsCleared (found_in self.old) (found_in self.new) (page_start page) (page_start (page + span_of (state_at self.old page))) }
        ensures uncut { IsUncut page (state_at self.old page) (found_in self.old) (found_in self.new) }
    {
        let count = self.span(page);
        self.pages.fill_free(page, count);
    }

    /// How many pages what begins on a page has: 1 for a block, those of a large object, and 0 where nothing begins.
    #[tactic(auto, using(crate::proofs::Laid::laid, crate::proofs::Changing::changing))]
    pub fn span(&self, page: PageNo) -> u32
        requires { page < length self.now }
        ensures count { result ≡ span_of (state_at self.now page) }
        ensures fits { page + result ≤ length self.now }
    {
        match self.page(page) {
            Page::Free | Page::Body(_) => 0,
            Page::Cut(_) => 1,
            Page::Head(large) => large.pages,
        }
    }

    /// Takes the first free cell of a page that is cut for a new object; the next one is then the first. `None` exactly if
    /// every cell is allocated, and then nothing changes.
    #[inline(always)]
    #[tactic(auto, using(crate::proofs::Laid::laid, crate::proofs::Changing::changing))]
    pub fn take(&mut self, memory: &Memory, page: PageNo) -> Option<Taken>
        requires inside { page < length self.old }
        requires linked { IsLinked (state_at self.old page) }
        requires listed { AreListed memory.now self.old }
        ensures none { IfNone result (IsFullOn (state_at self.old page)) }
        ensures same { IfNone result (self.new ≡ self.old) }
        ensures object { IfSome result (λ t. t.object ≡ first_object page (state_at self.old page)) }
        ensures free { IfSome result (λ _. HasFirst (state_at self.old page)) }
        ensures states { IfSome result (λ _. self.new ≡ slice_set self.old page (with_taken memory.now page (state_at self.old page))) }
        ensures added { IfSome result (λ t. IsAdded (found_in self.old) (found_in self.new) t.object) }
        ensures last { IfSome result (λ t. MatchBool t.was_last (IsFullOn (state_at self.new page)) (HasFirst (state_at self.new page))) }
        ensures listed { AreListed memory.now self.new }
        ensures linked { IsLinked (state_at self.new page) }
    {
        let block = self.pages.block_mut(page);
        let Some(cell) = block.take(memory, page) else {
            return None;
        };
        Some(Taken {
            object: cell_at(page, block, cell),
            was_last: block.is_at_end(),
        })
    }

    /// Takes the first free cells of a page that is cut, as many as there is room for, each for a new object, and writes them down in their
    /// order. Fewer than there is room for only if every cell is allocated then.
    pub fn take_many(&mut self, memory: &Memory, page: PageNo, cells: &mut [u16]) -> TakenCells
        requires inside { page < length self.old }
        requires linked { IsLinked (state_at self.old page) }
        requires listed { AreListed memory.now self.old }
        ensures size { length cells.new ≡ length cells.old }
        ensures few { result.count ≤ length cells.new }
        ensures takes { TakesCells memory.now page self.old (take result.count cells.new) self.new }
        ensures short { result.count < length cells.new → IsFullOn (state_at self.new page) }
        ensures full { MatchBool result.is_full (IsFullOn (state_at self.new page)) (HasFirst (state_at self.new page)) }
        ensures listed { AreListed memory.now self.new }
        ensures linked { IsLinked (state_at self.new page) }
    {
        let block = self.pages.block_mut(page);
        let count = block.take_many(memory, page, cells);
        let is_full = block.is_at_end();
        TakenCells { count, is_full }
    }

    /// Makes an allocated cell free, and the first free one of its page where that has a list. Its first word gets the number of the one that was
    /// first, and no other word changes. Answers what is left on the page.
    #[tactic(auto, using(crate::proofs::Laid::laid, crate::proofs::Changing::changing))]
    pub fn put(&mut self, memory: &mut Memory, page: PageNo, cell: u16) -> Put
        requires inside { page < length self.old }
        requires cell { HasCell (state_at self.old page) cell true }
        requires listed { AreListed memory.old self.old }
        ensures states { self.new ≡ slice_set self.old page (with_put (state_at self.old page) cell) }
        ensures removed { IsRemoved (found_in self.old) (found_in self.new) (object_on page (state_at self.old page) cell) }
        ensures memory { memory.new ≡ with_word_at memory.old (object_on page (state_at self.old page) cell).base (first_on (state_at self.old page)) }
        ensures listed { AreListed memory.new self.new }
        ensures tells { TellsOf (state_at self.old page) (with_put (state_at self.old page) cell) result }
    {
        let block = self.pages.block_mut(page);
        let was_full = block.is_full();
        block.put(memory, page, cell);
        Put {
            class: block.class(),
            kind: block.kind(),
            was_full,
            is_empty: block.is_empty(),
        }
    }

    /// Sweeps a page that is cut: its unmarked objects go. No word changes: a list of its free cells is made once one is
    /// wanted. The marks are those of the heap's granules.
    pub fn sweep(&mut self, page: PageNo, marks: &BitRow)
        requires inside { page < length self.old }
        requires cut { IsCut (state_at self.old page) }
        requires marks { PAGE_GRANULES * length self.old ≤ length marks.now }
        ensures states { self.new ≡ slice_set self.old page (state_at self.new page) }
        ensures sweeps { SweepsOn marks.now page (state_at self.old page) (state_at self.new page) }
        ensures objects { SweepsObjects (found_in self.old) (found_in self.new) marks.now page }
        ensures listed { (words : List ℕ) → AreListed words self.old → AreListed words self.new }
    {
        self.laws();
        self.pages.block_mut(page).keep_marked(page, marks);
    }

    /// Makes the free cells of a page that is cut a list in their order, if they are none.
    #[inline(always)]
    pub fn link(&mut self, memory: &mut Memory, page: PageNo)
        requires inside { page < length self.old }
        requires cut { IsCut (state_at self.old page) }
        requires listed { AreListed memory.old self.old }
        ensures states { self.new ≡ slice_set self.old page (state_at self.new page) }
        ensures first { state_at self.new page ≡ with_first (state_at self.old page) (first_on (state_at self.new page)) }
        ensures linked { IsLinked (state_at self.new page) }
        ensures same { IsSameMap (found_in self.old) (found_in self.new) }
        ensures memory { ChangesFreeOn memory.old memory.new page (state_at self.old page) }
        ensures listed { AreListed memory.new self.new }
    {
        let block = self.pages.block_mut(page);
        if !block.is_listed() {
            block.link(memory, page);
        }
    }

    // What stands on a page, unless nothing was ever written there.
    #[inline]
    pub(crate) fn made_page(&self, page: usize) -> Option<&Page>
        ensures some { IfSome result (λ p. state_at self.now page ≡ shown p.now) }
        ensures none { IfNone result (state_at self.now page ≡ free) }
    {
        self.pages.made(page)
    }

    // What stands on a page.
    #[inline]
    pub(crate) fn page(&self, page: PageNo) -> &Page
        requires { page < length self.now }
        ensures state { state_at self.now page ≡ shown result.now }
        ensures laid { IsLaid self.now }
    {
        self.pages.at(page as usize)
    }
}
