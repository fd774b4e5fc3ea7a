//! The end of a cycle: what is not reached is forgotten, page by page. The marks of a block are those of allocated objects,
//! so a block with as many marks as allocated cells has nothing to forget, and none of its objects is looked at; any other
//! is swept later. Large objects go at once.
ghost use Rattle.std.specs.Prelude.{◌≡◌, ◌+◌, ◌*◌, ◌<◌, ◌≤◌, length};
ghost use Rattle.words.specs.declared.limits.TheConstants.{PAGE_WORDS};
ghost use Rattle.block_map.specs.FoundIn.{found_in, IsLawful};
ghost use Rattle.block_map.specs.States.{IsCut, state_at};
ghost use Rattle.marker.specs.Marking.{AreMarksObjects, IsDone};
ghost use Rattle.marker.specs.Growth.{Traces};
ghost use Rattle.marker.specs.Work.{dirty_pages, newly_pages, entry_words};
ghost use Rattle.marker.specs.Invariant.{DirtyPageInvariant, CarriedPageInvariant};
ghost use Rattle.object_space.specs.Store.{IsSwept};
ghost use Rattle.object_space.specs.Kept.{IsPendingAfter};
ghost use Rattle.object_space.specs.Forgets.{ForgetsOn};
ghost use Rattle.object_space.specs.Sweeps.{ForgetsUnreached, ForgetsLazily, KeepsCells};

use super::ObjectSpace;
use marker::Marker;
use pages::ReadCount;
use words::PageNo;

impl ObjectSpace {
    // Forgets the unmarked objects that begin on a page, and answers how many: a large one goes now, and a block that has one
    // becomes pending.
    fn forget_on(&mut self, marker: &Marker, page: PageNo) -> u32
        requires pages { length marker.now.dirty ≡ length self.old.states }
        requires inside { page < length self.old.states }
        requires objects { AreMarksObjects (found_in self.old.states) marker.now }
        ensures forgets { ForgetsOn self.old marker.now.marks page result self.new }
        ensures lawful { IsLawful self.old.states }
    {
        self.laws();
        marker.laws();
        let Some(block) = self.table.map.block(page) else {
            return self.forget_large(marker, page);
        };
        let unmarked = block.allocated() - marker.marks_on(page);
        if unmarked > 0 {
            let class = block.class();
            let kind = block.kind();
            self.table.make_pending(page, class, kind);
        }
        unmarked
    }

    // The same where the page is no block.
    fn forget_large(&mut self, marker: &Marker, page: PageNo) -> u32
        requires pages { length marker.now.dirty ≡ length self.old.states }
        requires inside { page < length self.old.states }
        requires whole { IsCut (state_at self.old.states page) → ⊥ }
        ensures { ForgetsOn self.old marker.now.marks page result self.new }
    {
        self.laws();
        marker.laws();
        let Some(found) = self.table.map.large_on(page) else {
            return 0;
        };
        if marker.is_marked(found.base) {
            return 0;
        }
        self.release(found);
        1
    }

    // Forgets the objects that aren't marked, and answers how many: the large ones now, and the others when their pages are
    // swept. Free pages are passed over by whole words.
    fn forget_lazily(&mut self, marker: &Marker) -> u64
        requires pages { length marker.now.dirty ≡ length self.old.states }
        requires swept { IsSwept self.old }
        requires objects { AreMarksObjects (found_in self.old.states) marker.now }
        ensures { ForgetsLazily self.old marker.now.marks result self.new }
    {
        self.laws();
        let mut count = 0;
        let mut low = 0;
        while let Some(page) = self.table.pool.next_taken(low) {
            count += u64::from(self.forget_on(marker, page));
            low = page + 1;
        }
        self.laws();
        count
    }

    /// Ends a cycle: what the roots and the marks reach is marked, and the other objects are forgotten. Answers how many. The
    /// count's last reads, by which all have grown, are those of the heap words that the marker read for it: at most those of the
    /// pages that were dirty, for each newly marked object those of the pages that it covers, and what the entries had left.
    pub fn finish(&mut self, marker: &mut Marker, roots: &[u64], reads: &mut ReadCount) -> u64
        requires pages { length marker.old.dirty ≡ length self.old.states }
        requires swept { IsSwept self.old }
        requires objects { AreMarksObjects (found_in self.old.states) marker.old }
        requires invariant { DirtyPageInvariant (found_in self.old.states) self.old.words marker.old }
        ensures forgets { ForgetsUnreached self.old roots.now marker.old result marker.new.marks self.new }
        ensures cells { KeepsCells self.old self.new }
        ensures pending { IsPendingAfter self.new.states marker.new.marks self.new.pending }
        ensures traces { Traces (found_in self.old.states) self.old.words roots.now marker.old marker.new }
        ensures done { IsDone marker.new }
        ensures pages { length marker.new.dirty ≡ length self.new.states }
        ensures carries { CarriedPageInvariant (found_in self.old.states) self.old.words marker.old → CarriedPageInvariant (found_in self.new.states) self.new.words marker.new }
        ensures objects { AreMarksObjects (found_in self.new.states) marker.new }
        ensures reads { reads.new.last ≤ PAGE_WORDS * (dirty_pages marker.old + newly_pages (found_in self.old.states) marker.old marker.new) + entry_words (found_in self.old.states) marker.old }
        ensures all { reads.new.all ≡ reads.old.all + reads.new.last }
        ensures lawful { IsLawful self.old.states }
    {
        self.laws();
        self.close(marker, roots, reads);
        self.forget_lazily(marker)
    }

    /// The same, but all that is forgotten is swept now.
    pub fn collect(&mut self, marker: &mut Marker, roots: &[u64], reads: &mut ReadCount) -> u64
        requires pages { length marker.old.dirty ≡ length self.old.states }
        requires swept { IsSwept self.old }
        requires objects { AreMarksObjects (found_in self.old.states) marker.old }
        requires invariant { DirtyPageInvariant (found_in self.old.states) self.old.words marker.old }
        ensures forgets { ForgetsUnreached self.old roots.now marker.old result marker.new.marks self.new }
        ensures swept { IsSwept self.new }
        ensures traces { Traces (found_in self.old.states) self.old.words roots.now marker.old marker.new }
        ensures done { IsDone marker.new }
        ensures pages { length marker.new.dirty ≡ length self.new.states }
        ensures carries { CarriedPageInvariant (found_in self.old.states) self.old.words marker.old → CarriedPageInvariant (found_in self.new.states) self.new.words marker.new }
        ensures objects { AreMarksObjects (found_in self.new.states) marker.new }
        ensures reads { reads.new.last ≤ PAGE_WORDS * (dirty_pages marker.old + newly_pages (found_in self.old.states) marker.old marker.new) + entry_words (found_in self.old.states) marker.old }
        ensures all { reads.new.all ≡ reads.old.all + reads.new.last }
        ensures lawful { IsLawful self.old.states }
    {
        let count = self.finish(marker, roots, reads);
        self.sweep_all(marker);
        count
    }
}
