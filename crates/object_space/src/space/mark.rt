//! What the marker does with the objects: it reads them by the map and the memory.
ghost use Rattle.std.specs.Prelude.{◌≡◌, ℕ, ◌<◌, ◌≤◌, ◌↔◌, [], ◌∷◌, true, false, length, MatchOption};
ghost use Rattle.block_map.specs.FoundIn.{found_in, IsLawful};
ghost use Rattle.marker.specs.Marking.{AreMarksObjects, IsEmpty, IsClean, StaysDirty};
ghost use Rattle.marker.specs.Invariant.{AreRootsMarked};
ghost use Rattle.pages.specs.Reads.{AreMoments};
ghost use Rattle.marker.specs.Growth.{MarksWords, Traces};
ghost use Rattle.marker.specs.Beside.{AreBeside, IsStill, TracesIn};
ghost use Rattle.words.specs.Bits.{Has, IsFirstFrom};
ghost use Rattle.marker.specs.Entries.{Takes, TakesOff};
ghost use Rattle.marker.specs.Retracing.{Retraces, RetracesLowest};

use super::ObjectSpace;
use marker::{Marked, Marker};
use pages::{Moments, Reader, Uncounted};
use words::PageNo;

impl ObjectSpace {
    /// Marks what root words point into.
    pub fn mark_roots(&self, marker: &mut Marker, roots: &[u64])
        requires pages { length marker.old.dirty ≡ length self.now.states }
        requires objects { AreMarksObjects (found_in self.now.states) marker.old }
        ensures traces { Traces (found_in self.now.states) self.now.words roots.now marker.old marker.new }
        ensures roots { AreRootsMarked (found_in self.now.states) roots.now marker.new }
        ensures marks { MarksWords (found_in self.now.states) marker.old roots.now marker.new }
        ensures dirty { StaysDirty marker.old marker.new }
        ensures lawful { IsLawful self.now.states }
    {
        marker.scan_roots(&self.table.map, roots);
    }

    /// Reads at most so many words of entries.
    pub fn mark(&self, marker: &mut Marker, budget: u64, leave: Uncounted) -> Marked
        requires pages { length marker.old.dirty ≡ length self.now.states }
        requires objects { AreMarksObjects (found_in self.now.states) marker.old }
        ensures takes { Takes (found_in self.now.states) (self.now.words ∷ []) marker.old result.read marker.new }
        ensures traces { Traces (found_in self.now.states) self.now.words [] marker.old marker.new }
        ensures read { result.read ≤ budget }
        ensures empty { (result.empty ≡ true) ↔ IsEmpty marker.new }
        ensures fewer { result.read < budget → IsEmpty marker.new }
        ensures dirty { StaysDirty marker.old marker.new }
        ensures taken { TakesOff (found_in self.now.states) self.now.words marker.old marker.new }
        ensures lawful { IsLawful self.now.states }
    {
        self.table.map.laws();
        let mut reader = Reader::new(&self.memory);
        let marked = marker.step(&self.table.map, &mut reader, budget);
        reader.end_uncounted(leave);
        marked
    }

    /// Reads at most so many words of entries, while others write on dirty pages: the memory is read at these moments.
    pub fn mark_beside(
        &self,
        marker: &mut Marker,
        budget: u64,
        moments: Moments,
        leave: Uncounted,
    ) -> Marked
        requires pages { length marker.old.dirty ≡ length self.now.states }
        requires objects { AreMarksObjects (found_in self.now.states) marker.old }
        requires moments { AreMoments self.now.words moments.list }
        requires beside { AreBeside (found_in self.now.states) marker.old.dirty moments.list }
        ensures takes { Takes (found_in self.now.states) moments.list marker.old result.read marker.new }
        ensures traces { TracesIn (found_in self.now.states) moments.list marker.old marker.new }
        ensures read { result.read ≤ budget }
        ensures empty { (result.empty ≡ true) ↔ IsEmpty marker.new }
        ensures fewer { result.read < budget → IsEmpty marker.new }
        ensures dirty { StaysDirty marker.old marker.new }
        ensures lawful { IsLawful self.now.states }
    {
        self.table.map.laws();
        let mut beside = Reader::beside(&self.memory, moments);
        let marked = marker.step(&self.table.map, &mut beside, budget);
        beside.end_uncounted(leave);
        marked
    }

    /// Reads the lowest dirty page again, on which nobody writes, while others write on other dirty pages: the memory is read at
    /// these moments.
    pub fn retrace_beside(
        &self,
        marker: &mut Marker,
        moments: Moments,
        leave: Uncounted,
    ) -> Option<PageNo>
        requires pages { length marker.old.dirty ≡ length self.now.states }
        requires objects { AreMarksObjects (found_in self.now.states) marker.old }
        requires moments { AreMoments self.now.words moments.list }
        requires beside { AreBeside (found_in self.now.states) marker.old.dirty moments.list }
        requires still { (p : ℕ) → IsFirstFrom marker.old.dirty 0 p → IsStill (found_in self.now.states) self.now.words moments.list p }
        ensures page { MatchOption result (IsClean marker.old × (marker.new ≡ marker.old)) (λ p. RetracesLowest (found_in self.now.states) self.now.words p marker.old marker.new) }
        ensures traces { TracesIn (found_in self.now.states) moments.list marker.old marker.new }
        ensures lawful { IsLawful self.now.states }
    {
        self.table.map.laws();
        let mut beside = Reader::beside(&self.memory, moments);
        let page = marker.retrace(&self.table.map, &mut beside);
        beside.end_uncounted(leave);
        page
    }

    /// Reads this page again, on which nobody writes, if it is dirty, and answers whether it was, while others write on other dirty
    /// pages: the memory is read at these moments.
    pub fn retrace_page_beside(
        &self,
        marker: &mut Marker,
        page: PageNo,
        moments: Moments,
        leave: Uncounted,
    ) -> bool
        requires pages { length marker.old.dirty ≡ length self.now.states }
        requires objects { AreMarksObjects (found_in self.now.states) marker.old }
        requires moments { AreMoments self.now.words moments.list }
        requires beside { AreBeside (found_in self.now.states) marker.old.dirty moments.list }
        requires still { Has marker.old.dirty page → IsStill (found_in self.now.states) self.now.words moments.list page }
        ensures page { result ≡ true → Retraces (found_in self.now.states) self.now.words page marker.old marker.new }
        ensures clean { result ≡ false → (Has marker.old.dirty page → ⊥) × (marker.new ≡ marker.old) }
        ensures traces { TracesIn (found_in self.now.states) moments.list marker.old marker.new }
        ensures lawful { IsLawful self.now.states }
    {
        self.table.map.laws();
        let mut beside = Reader::beside(&self.memory, moments);
        let was_dirty = marker.retrace_page(&self.table.map, &mut beside, page);
        beside.end_uncounted(leave);
        was_dirty
    }

    /// Reads the lowest dirty page again.
    pub fn retrace(&self, marker: &mut Marker, leave: Uncounted) -> Option<PageNo>
        requires pages { length marker.old.dirty ≡ length self.now.states }
        requires objects { AreMarksObjects (found_in self.now.states) marker.old }
        ensures page { MatchOption result (IsClean marker.old × (marker.new ≡ marker.old)) (λ p. RetracesLowest (found_in self.now.states) self.now.words p marker.old marker.new) }
        ensures traces { Traces (found_in self.now.states) self.now.words [] marker.old marker.new }
        ensures lawful { IsLawful self.now.states }
    {
        self.table.map.laws();
        let mut reader = Reader::new(&self.memory);
        let page = marker.retrace(&self.table.map, &mut reader);
        reader.end_uncounted(leave);
        page
    }
}
