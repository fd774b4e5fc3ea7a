//! The page table of a heap: which pages are free, what stands on the others, which of these have a free cell, and which are
//! still to be swept.
ghost use Rattle.std.specs.Prelude.{◌≡◌, ◌+◌, ◌<◌, true, false, length, slice_index_or, slice_set};
ghost use Rattle.words.specs.declared.limits.TheConstants.{MOST_PAGES};
ghost use Rattle.words.specs.Bits.{members};
ghost use Rattle.words.specs.Layout.{page_start};
ghost use Rattle.pages.specs.Opening.{IsOpenedWithin};
ghost use Rattle.pages.specs.Runs.{IsFilled};
ghost use Rattle.block_map.specs.Changes.{IsCleared, IsUncut};
ghost use Rattle.block_map.specs.FoundIn.{found_in, IsLawful};
ghost use Rattle.block_map.specs.States.{free, span_of, state_at, IsBlockFor, IsCut, IsSpanSet};
ghost use Rattle.lazy_sweep.specs.AvailableRows.{row_of, IsBitSet};
ghost use Rattle.lazy_sweep.specs.Sound.{pending_of, waiting_of};

mod sweep;
mod sweep_for;

use crate::available_pages::AvailablePages;
use crate::page_row::PageRow;
use block_map::BlockMap;
use pages::PagePool;
use std::alloc::Global;
use words::{Class, Kind, OpenError, PageNo};

/// What is known of the pages. Between changes its parts agree (`IsSound`).
#[derive(Drop)]
pub struct PageTable {
    /// The free pages.
    pub pool: PagePool,

    /// What stands on each page.
    pub map: BlockMap,

    /// The pages with a free cell that need no sweep.
    pub ready: AvailablePages,

    // The pages that are still to be swept.
    pending: PageRow,

    // The same pages, by class and kind.
    waiting: AvailablePages,
}

impl PageTable {
    ghost use Rattle.lazy_sweep.specs.Sound.{AreExactRows, IsNewTable};

    /// So many pages, each of them free.
    pub fn new(alloc: Global, pages: u32) -> Result<PageTable, OpenError>
        ensures { IsOpenedWithin MOST_PAGES pages result (λ table. IsNewTable table pages) }
    {
        Ok(PageTable {
            pool: PagePool::new(alloc, pages)?,
            map: BlockMap::new(alloc, pages)?,
            ready: AvailablePages::new(alloc, pages)?,
            pending: PageRow::new(alloc, pages as usize)?,
            waiting: AvailablePages::new(alloc, pages)?,
        })
    }

    /// How many pages are pending. Words of the row that have none are passed over.
    pub fn count_pending(&self) -> u32
        ensures { result ≡ members (pending_of self.now) }
    {
        self.pending.count()
    }

    /// Whether a page is pending.
    #[inline]
    pub fn is_pending(&self, page: PageNo) -> bool
        requires { page < length (pending_of self.now) }
        ensures { result ≡ slice_index_or (pending_of self.now) page false }
    {
        self.pending.is_set(page as usize)
    }

    /// Makes the page of a block pending.
    #[inline]
    pub fn make_pending(&mut self, page: PageNo, class: Class, kind: Kind)
        requires inside { page < length self.old.map }
        requires block { IsBlockFor (state_at self.old.map page) class kind }
        requires rows { AreExactRows self.old }
        ensures rows { AreExactRows self.new }
        ensures pending { pending_of self.new ≡ slice_set (pending_of self.old) page true }
        ensures pool { self.new.pool ≡ self.old.pool }
        ensures map { self.new.map ≡ self.old.map }
    {
        self.map.laws();
        self.pending.set(page as usize);
        self.ready.leave(class, kind, page);
        self.waiting.enter(class, kind, page);
    }

    /// Makes the page of a block free, whatever objects it has: it is neither ready nor pending any more.
    #[inline(never)]
    pub fn free_block(&mut self, page: PageNo, class: Class, kind: Kind)
        requires inside { page < length self.old.map }
        requires cut { IsCut (state_at self.old.map page) }
        requires listed { page < length (row_of self.old.ready class kind) }
        requires awaited { page < length (row_of (waiting_of self.old) class kind) }
        requires row { page < length (pending_of self.old) }
        ensures given { IsFilled self.old.pool self.new.pool page 1 true }
        ensures states { IsSpanSet self.old.map self.new.map page (span_of (state_at self.old.map page)) (λ _. free) }
        ensures cleared { IsCleared (found_in self.old.map) (found_in self.new.map) (page_start page) (page_start (page + span_of (state_at self.old.map page))) }
        ensures uncut { IsUncut page (state_at self.old.map page) (found_in self.old.map) (found_in self.new.map) }
        ensures left { IsBitSet self.old.ready self.new.ready class kind page false }
        ensures awaited { IsBitSet (waiting_of self.old) (waiting_of self.new) class kind page false }
        ensures row { pending_of self.new ≡ slice_set (pending_of self.old) page false }
        ensures lawful { IsLawful self.new.map }
    {
        self.map.uncut(page);
        self.pool.give(page, 1);
        self.ready.leave(class, kind, page);
        self.waiting.leave(class, kind, page);
        self.pending.clear(page as usize);
        self.map.laws();
    }
}
