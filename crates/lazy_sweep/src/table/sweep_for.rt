//! Sweeping as an allocation needs it: the pending pages of one class and kind, until one of them has a free cell.
ghost use Rattle.std.specs.Prelude.{◌≡◌, ℕ, ◌<◌, ◌⊎◌, IfNone, IfSome, length};
ghost use Rattle.words.specs.Bits.{Has};
ghost use Rattle.block_map.specs.States.{state_at, IsBlockFor};
ghost use Rattle.lazy_sweep.specs.AvailableRows.{AreWaiting, HasNoFreeCell, IsAvailable};
ghost use Rattle.lazy_sweep.specs.Sound.{pending_of, waiting_of, AreExactRows, IsSound, SweepsSome};

use super::PageTable;
use marker::Marker;
use words::{Class, Kind, PageNo};

impl PageTable {
    // The lowest pending page that is cut for the class and the kind.
    #[inline]
    fn pending_for(&self, class: Class, kind: Kind) -> Option<PageNo>
        requires { AreWaiting (waiting_of self.now) self.now.map (pending_of self.now) }
        ensures some { IfSome result (λ page. Has (pending_of self.now) page × (page < length self.now.map)) }
        ensures none { IfNone result ((page : ℕ) → Has (pending_of self.now) page → IsBlockFor (state_at self.now.map page) class kind → ⊥) }
    {
        self.map.laws();
        let Some(page) = self.waiting.first(class, kind) else {
            return None;
        };
        Some(page as PageNo)
    }

    // The lowest page with a free cell for the class and the kind that is not pending, or else the lowest pending one for
    // them.
    fn page_for(&self, class: Class, kind: Kind) -> Option<PageNo>
        requires rows { AreExactRows self.now }
        ensures inside { IfSome result (λ page. page < length self.now.map) }
        ensures some { IfSome result (λ page. Has (pending_of self.now) page ⊎ IsAvailable (state_at self.now.map page) class kind) }
        ensures none { IfNone result (HasNoFreeCell self.now.map class kind) }
    {
        self.map.laws();
        let Some(page) = self.ready.first(class, kind) else {
            return self.pending_for(class, kind);
        };
        Some(page as PageNo)
    }

    /// The lowest page with a free cell for the class and the kind that needs no sweep. Where there is none, pending
    /// pages for them are swept, the lowest first, until one has a free cell.
    #[inline]
    pub fn sweep_for(&mut self, marker: &Marker, class: Class, kind: Kind) -> Option<PageNo>
        requires pages { length marker.now.dirty ≡ length self.old.map }
        requires sound { IsSound self.old }
        ensures sweeps { SweepsSome self.old marker.now.marks self.new }
        ensures some { IfSome result (λ page. IsAvailable (state_at self.new.map page) class kind × (Has (pending_of self.new) page → ⊥)) }
        ensures none { IfNone result (HasNoFreeCell self.new.map class kind) }
    {
        self.map.laws();
        while let Some(page) = self.page_for(class, kind) {
            if !self.pending.is_set(page as usize) {
                return Some(page);
            }
            self.sweep_page(marker, page);
        }
        None
    }
}
