//! Closing the marks, by the calling thread or with helpers.
ghost use Rattle.std.specs.Prelude.{◌≡◌, ◌+◌, ◌*◌, ◌≤◌, length};
ghost use Rattle.words.specs.declared.limits.TheConstants.{PAGE_WORDS};
ghost use Rattle.block_map.specs.FoundIn.{found_in, IsLawful};
ghost use Rattle.marker.specs.Closure.{AreClosed};
ghost use Rattle.marker.specs.Growth.{Traces};
ghost use Rattle.marker.specs.Invariant.{DirtyPageInvariant};
ghost use Rattle.marker.specs.Marking.{AreMarksObjects, IsDone};
ghost use Rattle.marker.specs.Work.{dirty_pages, newly_pages, entry_words};

use super::ObjectSpace;
use final_pause::{Gate, Graph, Helpers, close_marks, close_marks_with};
use marker::Marker;
use pages::{ReadCount, Reader};
use std::alloc::Global;
use std::sync::Wait;
use std::thread::Threads;

impl ObjectSpace {
    // Marks all that the roots and the marks reach. The count learns how many heap words that read.
    pub(super) fn close(&self, marker: &mut Marker, roots: &[u64], reads: &mut ReadCount)
        requires pages { length marker.old.dirty ≡ length self.now.states }
        requires objects { AreMarksObjects (found_in self.now.states) marker.old }
        requires invariant { DirtyPageInvariant (found_in self.now.states) self.now.words marker.old }
        ensures closure { AreClosed (found_in self.now.states) self.now.words roots.now marker.old marker.new }
        ensures done { IsDone marker.new }
        ensures traces { Traces (found_in self.now.states) self.now.words roots.now marker.old marker.new }
        ensures reads { reads.new.last ≤ PAGE_WORDS * (dirty_pages marker.old + newly_pages (found_in self.now.states) marker.old marker.new) + entry_words (found_in self.now.states) marker.old }
        ensures all { reads.new.all ≡ reads.old.all + reads.new.last }
    {
        let mut reader = Reader::new(&self.memory);
        close_marks(marker, &self.table.map, &mut reader, roots);
        reader.end(reads);
    }

    /// Marks all that the roots and the marks reach, with helpers in threads of their own.
    pub fn close_with<R: Threads + Wait + Sync, G: Gate>(
        &self,
        rt: &R,
        alloc: Global,
        marker: &mut Marker,
        roots: &[u64],
        helpers: Helpers,
        gate: &G,
    )
        requires pages { length marker.old.dirty ≡ length self.now.states }
        requires objects { AreMarksObjects (found_in self.now.states) marker.old }
        requires invariant { DirtyPageInvariant (found_in self.now.states) self.now.words marker.old }
        ensures closure { AreClosed (found_in self.now.states) self.now.words roots.now marker.old marker.new }
        ensures done { IsDone marker.new }
        ensures traces { Traces (found_in self.now.states) self.now.words roots.now marker.old marker.new }
        ensures lawful { IsLawful self.now.states }
    {
        self.table.map.laws();
        let graph = Graph {
            map: &self.table.map,
            memory: &self.memory,
            roots,
        };
        close_marks_with(rt, alloc, marker, graph, helpers, gate);
    }
}
