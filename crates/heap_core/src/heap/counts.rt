//! How many pages are free, dirty and pending, for a caller that paces the collector, and which are free or were never used, for
//! one that gives their memory back. These are no events: nothing changes.
//! Free pages are counted by whole words of a row with a bit a page, up to the last page in use, and the others by the words that
//! have one: pages that were never used cost nothing.
ghost use Rattle.std.specs.Prelude.{◌≡◌, ℕ, ◌<◌, ◌≤◌, Some, MatchOption, length};
ghost use Rattle.words.specs.Bits.{members, IsEmptyFrom};
ghost use Rattle.words.specs.Layout.{page_of};
ghost use Rattle.pages.specs.FreeRuns.{IsNextRun};
ghost use Rattle.block_map.specs.FoundIn.{found_in};
ghost use Rattle.block_map.specs.declared.found.Found.{Found};

use super::Core;
use pages::FreeRun;
use words::PageNo;

impl Core {
    /// How many pages are free: exactly those on which no allocated object lies (`laws`).
    pub fn free_pages(&self) -> u32
        ensures { result ≡ members self.now.store.free }
    {
        self.objects.count_free()
    }

    /// How many pages are dirty: so many a `retrace` would read, if no other became dirty.
    pub fn dirty_pages(&self) -> u32
        ensures { result ≡ members self.now.cycle.marker.dirty }
    {
        self.marker.count_dirty()
    }

    /// How many pages are pending: so many a `sweep` would sweep.
    pub fn pending_pages(&self) -> u32
        ensures { result ≡ members self.now.store.pending }
    {
        self.objects.count_pending()
    }

    /// The lowest run of free pages from a page on. Their words may change (`laws::freed_words_may_change`).
    pub fn free_run(&self, low: PageNo) -> Option<FreeRun>
        ensures { MatchOption result (IsEmptyFrom self.now.store.free low) (λ run. IsNextRun self.now.store.free low run) }
    {
        self.objects.next_free_run(low)
    }

    /// How many pages, from the first one on, may have an object: all others are free, and were never used.
    pub fn used_pages(&self) -> u32
        ensures inside { result ≤ length self.now.store.states }
        ensures below { (w : ℕ) (f : Found) → found_in self.now.store.states w ≡ Some f → page_of w < result }
    {
        self.objects.used()
    }
}
