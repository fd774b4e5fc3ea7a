//! Sweeping: the unmarked objects of a page go, and what is kept stays as it is.
ghost use Rattle.std.specs.Prelude.{◌≡◌, ◌+◌, ◌*◌, ◌<◌, ◌≤◌, ℕ, List, [], true, false, count_by, length, slice_set};
ghost use Rattle.words.specs.declared.limits.TheConstants.{PAGE_GRANULES};
ghost use Rattle.words.specs.Bits.{Has, IsEmptyFrom};
ghost use Rattle.block_map.specs.FoundIn.{IsLawful};
ghost use Rattle.block_map.specs.States.{state_at, IsCut};
ghost use Rattle.lazy_sweep.specs.Sound.{pending_of, store_with, AreExactRows, IsSound, SweepsOne, SweepsSome};
ghost use Rattle.lazy_sweep.specs.Sweeps.{SweepsAny};

use super::PageTable;
use marker::Marker;
use words::{BitRow, PageNo};

impl PageTable {
    // Ends the sweep of a page, which needs none any more: if it has a free cell it is ready.
    fn settle(&mut self, page: PageNo)
        requires inside { page < length self.old.map }
        requires cut { IsCut (state_at self.old.map page) }
        requires rows { AreExactRows self.old }
        ensures rows { AreExactRows self.new }
        ensures pending { pending_of self.new ≡ slice_set (pending_of self.old) page false }
        ensures pool { self.new.pool ≡ self.old.pool }
        ensures map { self.new.map ≡ self.old.map }
    {
        self.pending.clear(page as usize);
        let Some(block) = self.map.block(page) else {
            unreachable!();
        };
        let class = block.class();
        let kind = block.kind();
        let full = block.is_full();
        self.waiting.leave(class, kind, page);
        if !full {
            self.ready.enter(class, kind, page);
        }
    }

    // Sweeps a page of which no object is kept, as if there were no mark: none of its cells is looked at.
    fn free_page(&mut self, page: PageNo)
        requires inside { page < length self.old.map }
        requires was { Has (pending_of self.old) page }
        requires sound { IsSound self.old }
        ensures { SweepsOne self.old [] page self.new }
    {
        self.map.laws();
        let Some(block) = self.map.block(page) else {
            unreachable!();
        };
        let class = block.class();
        let kind = block.kind();
        self.free_block(page, class, kind);
    }

    // Sweeps the cells of a page. One that keeps no object is free at once.
    fn sweep_cells(&mut self, page: PageNo, marks: &BitRow)
        requires inside { page < length self.old.map }
        requires was { Has (pending_of self.old) page }
        requires marks { PAGE_GRANULES * length self.old.map ≤ length marks.now }
        requires sound { IsSound self.old }
        ensures { SweepsOne self.old marks.now page self.new }
    {
        self.map.sweep(page, marks);
        let Some(block) = self.map.block(page) else {
            unreachable!();
        };
        if !block.is_empty() {
            self.settle(page);
            return;
        }
        let class = block.class();
        let kind = block.kind();
        self.free_block(page, class, kind);
    }

    // Sweeps a page. Where it has no mark, none of its cells is looked at.
    pub(super) fn sweep_page(&mut self, marker: &Marker, page: PageNo)
        requires pages { length marker.now.dirty ≡ length self.old.map }
        requires inside { page < length self.old.map }
        requires was { Has (pending_of self.old) page }
        requires sound { IsSound self.old }
        ensures sweeps { SweepsOne self.old marker.now.marks page self.new }
        ensures lawful { IsLawful self.old.map }
    {
        self.map.laws();
        marker.laws();
        if marker.marks_on(page) == 0 {
            self.free_page(page);
        } else {
            self.sweep_cells(page, marker.mark_row());
        }
    }

    /// Sweeps the lowest pending page. Answers whether one was pending.
    pub fn step(&mut self, marker: &Marker) -> bool
        requires pages { length marker.now.dirty ≡ length self.old.map }
        requires sound { IsSound self.old }
        ensures sweeps { SweepsSome self.old marker.now.marks self.new }
        ensures none { result ≡ false → IsEmptyFrom (pending_of self.old) 0 }
        ensures same { result ≡ false → self.new ≡ self.old }
        ensures page { result ≡ true → (words : List ℕ) → SweepsAny (store_with words self.old) marker.now.marks (store_with words self.new) }
        ensures fewer { result ≡ true → count_by (λ b. b) (pending_of self.new) + 1 ≡ count_by (λ b. b) (pending_of self.old) }
    {
        self.map.laws();
        let Some(page) = self.pending.first() else {
            return false;
        };
        self.sweep_page(marker, page as PageNo);
        true
    }

    /// Sweeps all pending pages.
    pub fn sweep_all(&mut self, marker: &Marker)
        requires pages { length marker.now.dirty ≡ length self.old.map }
        requires sound { IsSound self.old }
        ensures sweeps { SweepsSome self.old marker.now.marks self.new }
        ensures swept { IsEmptyFrom (pending_of self.new) 0 }
    {
        self.map.laws();
        while self.step(marker) {}
    }
}
