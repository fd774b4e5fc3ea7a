//! What mutators owe to a marker that runs beside them.
ghost use Rattle.std.specs.Prelude.{◌≡◌, ℕ, Option, Some, ◌<◌, ◌≤◌, length};
ghost use Rattle.words.specs.declared.limits.TheConstants.{FIRST_ADDRESS};
ghost use Rattle.words.specs.Layout.{granule, page_of};
ghost use Rattle.block_map.specs.declared.found.Found.{Found};
ghost use Rattle.block_map.specs.Changes.{IsAdded, IsRemoved};
ghost use Rattle.marker.specs.Marking.{AreMarksObjects};
ghost use Rattle.marker.specs.Mutations.{DirtiesPage, IsAllocated, IsFreed, StaysOnWrite, StaysOnAllocation, StaysOnFree, StaysCarriedOnWrite, StaysCarriedOnAllocation};

use crate::marker::Marker;
use words::limits::FIRST_ADDRESS;
use words::{PageNo, granule_of, page_of};

impl Marker {
    /// A word was written at the address. The invariant stays, whatever was written.
    #[inline]
    #[tactic(auto, using(crate::proofs::Mutating::mutating))]
    pub fn written(&mut self, address: u64)
        requires low { FIRST_ADDRESS ≤ address }
        requires inside { page_of address < length self.old.dirty }
        ensures written { DirtiesPage address self.old self.new }
        ensures keeps { StaysOnWrite address self.old self.new }
        ensures carries { StaysCarriedOnWrite address self.old self.new }
    {
        self.dirty.set(page_of(address) as PageNo);
    }

    /// An object of zero words was allocated at this base. It is marked at once, and the invariant stays.
    pub fn allocated(&mut self, base: u64)
        requires low { FIRST_ADDRESS ≤ base }
        requires inside { granule base < length self.old.marks }
        ensures allocated { IsAllocated base self.old self.new }
        ensures objects { (found after : ℕ → Option Found) (f : Found) → f.base ≡ base → after base ≡ Some f → IsAdded found after f → AreMarksObjects found self.old → AreMarksObjects after self.new }
        ensures keeps { StaysOnAllocation base self.old self.new }
        ensures carries { StaysCarriedOnAllocation base self.old self.new }
    {
        self.marks.set(granule_of(base));
    }

    /// The object with this base was freed. It is marked no more, so that each mark is an object's, and the invariant
    /// stays: an entry of the object goes stale, and harms nothing.
    pub fn freed(&mut self, base: u64)
        requires low { FIRST_ADDRESS ≤ base }
        requires inside { granule base < length self.old.marks }
        ensures freed { IsFreed base self.old self.new }
        ensures objects { (found after : ℕ → Option Found) (f : Found) → f.base ≡ base → found base ≡ Some f → IsRemoved found after f → AreMarksObjects found self.old → AreMarksObjects after self.new }
        ensures keeps { StaysOnFree base self.old self.new }
    {
        self.marks.clear(granule_of(base));
    }
}
