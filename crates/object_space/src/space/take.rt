//! How a cell, a page and a run of pages are taken for a new object.
ghost use Rattle.std.specs.Prelude.{◌≡◌, Bool, List, IfNone, IfSome};
ghost use Rattle.words.specs.Bits.{Has};
ghost use Rattle.words.specs.declared.class.Placement.{Placement};
ghost use Rattle.block_map.specs.Listed.{IsLinked};
ghost use Rattle.block_map.specs.States.{state_at};
ghost use Rattle.lazy_sweep.specs.AvailableRows.{IsAvailable, HasNoFreeCell};
ghost use Rattle.object_space.specs.Rooms.{IsRequest, HasRoomAt, HasNoRoom};
ghost use Rattle.object_space.specs.Sweeps.{Gains, Sweeps};

use super::ObjectSpace;
use words::limits::PAGE_WORDS;
use words::{Class, Kind, PageNo, page_start};

impl ObjectSpace {
    // Makes the free cells of a page a list, if they are none.
    #[inline(always)]
    pub(super) fn link_page(&mut self, page: PageNo, class: Class, kind: Kind)
        requires cell { IsAvailable (state_at self.old.states page) class kind }
        ensures sweeps { (marks : List Bool) → Sweeps self.old marks self.new }
        ensures cell { IsAvailable (state_at self.new.states page) class kind }
        ensures linked { IsLinked (state_at self.new.states page) }
        ensures pending { self.new.pending ≡ self.old.pending }
        ensures free { self.new.free ≡ self.old.free }
    {
        self.table.map.laws();
        self.table.map.link(&mut self.memory, page);
    }

    // Takes the first free cell of a page that has one and a list of them, and writes 0 into its words.
    #[inline(always)]
    pub(super) fn take_cell(&mut self, page: PageNo, class: Class, kind: Kind) -> u64
        requires cell { IsAvailable (state_at self.old.states page) class kind }
        requires linked { IsLinked (state_at self.old.states page) }
        requires swept { Has self.old.pending page → ⊥ }
        ensures room { HasRoomAt self.old (Placement.Small class) kind result }
        ensures gains { Gains self.old (Placement.Small class) kind result self.new }
        ensures free { self.new.free ≡ self.old.free }
    {
        self.table.map.laws();
        let Some(taken) = self.table.map.take(&self.memory, page) else {
            unreachable!();
        };
        self.memory.zero(taken.object.base, taken.object.len);
        if taken.was_last {
            self.table.ready.leave(class, kind, page);
        }
        taken.object.base
    }

    // Cuts a free page, and takes its first cell. Each page has more than one.
    #[inline(never)]
    pub(super) fn take_page(&mut self, class: Class, kind: Kind) -> Option<u64>
        requires { HasNoFreeCell self.old.states class kind }
        ensures some { IfSome result (λ base. HasRoomAt self.old (Placement.Small class) kind base) }
        ensures gains { IfSome result (λ base. Gains self.old (Placement.Small class) kind base self.new) }
        ensures none { IfNone result (HasNoRoom self.old (Placement.Small class) kind × (self.new ≡ self.old)) }
    {
        self.table.map.laws();
        // Its clauses tell that the class is one.
        let _words = class.words();
        let Some(page) = self.table.pool.take_run(1) else {
            return None;
        };
        self.table.map.cut(&mut self.memory, page, class, kind);
        let Some(first) = self.table.map.take(&self.memory, page) else {
            unreachable!();
        };
        self.memory.zero(first.object.base, first.object.len);
        self.table.ready.enter(class, kind, page);
        Some(first.object.base)
    }

    // Takes a run of free pages.
    #[inline(never)]
    pub(super) fn take_run(&mut self, pages: u32, kind: Kind) -> Option<u64>
        requires { IsRequest (Placement.Large pages) }
        ensures some { IfSome result (λ base. HasRoomAt self.old (Placement.Large pages) kind base) }
        ensures gains { IfSome result (λ base. Gains self.old (Placement.Large pages) kind base self.new) }
        ensures none { IfNone result (HasNoRoom self.old (Placement.Large pages) kind × (self.new ≡ self.old)) }
    {
        if pages > self.table.map.len() {
            return None;
        }
        let Some(first) = self.table.pool.take_run(pages) else {
            return None;
        };
        self.table.map.cut_large(first, pages, kind);
        let base = page_start(first);
        self.memory.zero(base, PAGE_WORDS as u32 * pages);
        Some(base)
    }
}
