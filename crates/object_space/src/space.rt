//! The objects of a heap: their words, and the table of the pages that they lie on. That the lists of free cells stand in the
//! memory, and that the parts of the table agree, is kept here, and no other module touches the two.
ghost use Rattle.std.specs.Prelude.{◌≡◌, ℕ, ◌*◌, ◌<◌, ◌≤◌, Bool, MatchOption, Some, length};
ghost use Rattle.words.specs.declared.limits.TheConstants.{MOST_PAGES, PAGE_WORDS};
ghost use Rattle.words.specs.Bits.{members, IsEmptyFrom};
ghost use Rattle.words.specs.Layout.{page_of};
ghost use Rattle.heap_spec.specs.Heap.{opening};
ghost use Rattle.pages.specs.Memory.{IsWordAddress, word_at, with_word_at};
ghost use Rattle.pages.specs.FreeRuns.{IsNextRun};
ghost use Rattle.pages.specs.Opening.{IsOpenedWithin};
ghost use Rattle.block_map.specs.FoundIn.{found_in, IsLawful};
ghost use Rattle.block_map.specs.States.{IsLaid};
ghost use Rattle.block_map.specs.declared.found.Found.{Found};
ghost use Rattle.object_space.specs.Store.{AreEmptyPages, IsPendingRow, IsWholeStore, HasSoundPages, IsSwept};
ghost use Rattle.object_space.specs.Kept.{kept_in};
ghost use Rattle.object_space.specs.Stores.{Stores};

mod allocate;
mod allocate_many;
mod along;
mod close;
mod forget;
mod free;
mod looks;
mod mark;
mod round;
mod sweep;
mod take;

use block_map::Found;
use lazy_sweep::PageTable;
use marker::Marker;
use pages::{FreeRun, Memory};
use std::alloc::Global;
use std::marker::Model;
use words::{OpenError, PageNo};

/// The objects of a heap.
#[derive(Drop)]
pub struct ObjectSpace {
    memory: Memory,
    table: PageTable,
}

impl Model for ObjectSpace {
    ghost use Rattle.lazy_sweep.specs.Sound.{store_with, waiting_of};
    ghost use Rattle.object_space.specs.Store.{Store, IsWholeSpace};

    ghost Value = { Store };

    ghost view = { λ o. store_with o.memory o.table };

    ghost invariant = { λ o. IsWholeSpace (store_with o.memory o.table) o.table.ready (waiting_of o.table) };
}

impl ObjectSpace {
    /// So many pages, with no object on them.
    pub fn new(alloc: Global, pages: u32) -> Result<ObjectSpace, OpenError>
        ensures { IsOpenedWithin MOST_PAGES pages result (λ objects. IsSwept objects × ((keep : Found → Bool) → Stores keep objects (opening pages))) }
    {
        let memory = Memory::new(alloc, pages)?;
        let table = PageTable::new(alloc, pages)?;
        Ok(ObjectSpace { memory, table })
    }

    /// What is true of every store: its free pages are exactly those on which no object lies, and the pending
    /// ones are cut.
    #[inline]
    pub fn laws(&self)
        ensures sound { HasSoundPages self.now }
        ensures pending { IsPendingRow self.now }
        ensures empty { AreEmptyPages self.now.free self.now.states }
        ensures lawful { IsLawful self.now.states }
        ensures laid { IsLaid self.now.states }
    {
        self.table.map.laws();
    }

    /// All that is true of every store, with what no caller has to know: the lists of free cells, and the rows of the pages
    /// that have one.
    #[inline]
    pub fn whole(&self)
        ensures { IsWholeStore self.now }
    {
        let _table = &self.table;
    }

    /// The number of pages.
    pub fn pages(&self) -> u32
        ensures { result ≡ length self.now.states }
    {
        self.table.map.len()
    }

    /// How many pages, from the first one on, may have an object.
    #[inline]
    pub fn used(&self) -> u32
        ensures inside { result ≤ length self.now.states }
        ensures below { (w : ℕ) (f : Found) → found_in self.now.states w ≡ Some f → page_of w < result }
    {
        self.table.map.used()
    }

    /// How many pages are free. Those that may have an object are counted by whole words.
    pub fn count_free(&self) -> u32
        ensures { result ≡ members self.now.free }
    {
        self.table.pool.count_free(self.table.map.used())
    }

    /// The lowest run of free pages from a page on.
    pub fn next_free_run(&self, low: PageNo) -> Option<FreeRun>
        ensures { MatchOption result (IsEmptyFrom self.now.free low) (λ run. IsNextRun self.now.free low run) }
    {
        self.table.pool.next_run(low)
    }

    /// How many pages are pending.
    pub fn count_pending(&self) -> u32
        ensures { result ≡ members self.now.pending }
    {
        self.table.count_pending()
    }

    /// The kept object that a word points into. On a pending page only marked objects are kept.
    #[inline(always)]
    pub fn find(&self, marker: &Marker, word: u64) -> Option<Found>
        requires pages { length marker.now.dirty ≡ length self.now.states }
        ensures found { result ≡ kept_in self.now.states self.now.pending marker.now.marks word }
        ensures lawful { IsLawful self.now.states }
        ensures long { length self.now.words ≡ PAGE_WORDS * length self.now.states }
    {
        marker.laws();
        let Some(found) = self.table.map.find(word) else {
            return None;
        };
        if self.table.is_pending(found.page) && !marker.is_marked(found.base) {
            return None;
        }
        Some(found)
    }

    /// The word at an address.
    #[inline]
    pub fn read(&self, address: u64) -> u64
        requires { IsWordAddress self.now.words address }
        ensures { result ≡ word_at self.now.words address }
    {
        self.memory.read(address)
    }

    /// Writes a word at an address of an object.
    #[inline]
    pub fn write(&mut self, address: u64, word: u64)
        requires address { IsWordAddress self.old.words address }
        requires object { (f : Found) × (found_in self.old.states address ≡ Some f) }
        ensures { self.new ≡ record self.old { words = with_word_at self.old.words address word } }
    {
        self.table.map.laws();
        self.memory.write(address, word);
    }
}
