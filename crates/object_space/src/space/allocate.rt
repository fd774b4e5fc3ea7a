//! Where a new object goes: into a cell of a page that is cut for its class and kind, onto a page that is cut for it now,
//! or onto pages of its own.
ghost use Rattle.std.specs.Prelude.{◌≡◌, ◌⊎◌, Bool, List, IfNone, IfSome, MatchOption, length};
ghost use Rattle.words.specs.Bits.{Has};
ghost use Rattle.block_map.specs.Listed.{IsLinked};
ghost use Rattle.block_map.specs.States.{state_at};
ghost use Rattle.lazy_sweep.specs.AvailableRows.{IsAvailable, IsReadyPage, HasNoFreeCell};
ghost use Rattle.object_space.specs.Many.{HasNoneReady, LeavesPages};
ghost use Rattle.object_space.specs.Rooms.{IsRequest};
ghost use Rattle.object_space.specs.Sweeps.{Allocates, FindsNoPlace, FindsNoRoom, Sweeps};

use super::ObjectSpace;
use marker::Marker;
use words::{Class, Kind, PageNo, Placement};

impl ObjectSpace {
    // The lowest page with a free cell for the class and the kind that needs no sweep, with a list of its free cells.
    #[inline(always)]
    pub(super) fn ready_page(&mut self, class: Class, kind: Kind) -> Option<PageNo>
        ensures sweeps { (marks : List Bool) → Sweeps self.old marks self.new }
        ensures some { IfSome result (λ page. IsReadyPage self.new.states self.new.pending page class kind × IsLinked (state_at self.new.states page)) }
        ensures none { IfNone result (HasNoneReady self.old (Placement.Small class) kind × (self.new ≡ self.old)) }
        ensures leaves { LeavesPages self.old self.new }
    {
        self.table.map.laws();
        let Some(page) = self.table.ready.first(class, kind) else {
            return None;
        };
        let page = page as PageNo;
        self.link_page(page, class, kind);
        Some(page)
    }

    // A page with a free cell for the class and the kind that is not pending. Pending pages for them are swept
    // first, one by one.
    #[inline(always)]
    fn swept_page(&mut self, marker: &Marker, class: Class, kind: Kind) -> Option<PageNo>
        requires pages { length marker.now.dirty ≡ length self.old.states }
        ensures sweeps { Sweeps self.old marker.now.marks self.new }
        ensures some { IfSome result (λ page. IsAvailable (state_at self.new.states page) class kind × (Has self.new.pending page → ⊥)) }
        ensures none { IfNone result (HasNoFreeCell self.new.states class kind) }
    {
        self.table.sweep_for(marker, class, kind)
    }

    // A place for a small object.
    #[inline(always)]
    fn place_small(&mut self, marker: &Marker, class: Class, kind: Kind) -> Option<u64>
        requires pages { length marker.now.dirty ≡ length self.old.states }
        ensures { MatchOption result (FindsNoPlace self.old marker.now.marks (Placement.Small class) kind self.new) (λ base. Allocates self.old marker.now.marks (Placement.Small class) kind base self.new) }
    {
        let Some(page) = self.swept_page(marker, class, kind) else {
            return self.take_page(class, kind);
        };
        self.link_page(page, class, kind);
        Some(self.take_cell(page, class, kind))
    }

    // A place for an object: of the pending pages, only those that are cut for it are swept.
    #[inline(always)]
    fn place(&mut self, marker: &Marker, placement: &Placement, kind: Kind) -> Option<u64>
        requires request { IsRequest placement.now }
        requires pages { length marker.now.dirty ≡ length self.old.states }
        ensures { MatchOption result (FindsNoPlace self.old marker.now.marks placement.now kind self.new) (λ base. Allocates self.old marker.now.marks placement.now kind base self.new) }
    {
        self.laws();
        match placement {
            Placement::Small(class) => self.place_small(marker, *class, kind),
            Placement::Large(pages) => self.take_run(*pages, kind),
        }
    }

    // Takes a place for a new object where none is ready: it sweeps as it needs, and takes free pages.
    #[inline(never)]
    fn search(&mut self, marker: &Marker, placement: Placement, kind: Kind) -> Option<u64>
        requires request { IsRequest placement }
        requires pages { length marker.now.dirty ≡ length self.old.states }
        ensures { MatchOption result (FindsNoRoom self.old marker.now.marks placement kind self.new) (λ base. Allocates self.old marker.now.marks placement kind base self.new) }
    {
        if let Some(base) = self.place(marker, &placement, kind) {
            return Some(base);
        }
        self.laws();
        while self.sweep(marker) {
            if let Some(base) = self.place(marker, &placement, kind) {
                return Some(base);
            }
        }
        None
    }

    /// Takes a place for a new object, writes 0 into its words, and answers its base. It sweeps as it needs: first pages
    /// for the class and the kind, and where there is no free page either, the others until there is a place. `None`
    /// exactly if no address has room, and then no page is pending.
    #[inline(always)]
    pub fn allocate(&mut self, marker: &Marker, placement: Placement, kind: Kind) -> Option<u64>
        requires request { IsRequest placement }
        requires pages { length marker.now.dirty ≡ length self.old.states }
        ensures places { MatchOption result (FindsNoRoom self.old marker.now.marks placement kind self.new) (λ base. Allocates self.old marker.now.marks placement kind base self.new) }
        ensures cuts { HasNoneReady self.old placement kind ⊎ LeavesPages self.old self.new }
    {
        self.laws();
        if let Placement::Small(class) = &placement
            && let Some(page) = self.ready_page(*class, kind)
        {
            return Some(self.take_cell(page, *class, kind));
        }
        self.search(marker, placement, kind)
    }
}
