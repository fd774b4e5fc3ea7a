//! What is wrong where the objects with some bases are said to be gone. Nothing changes.
ghost use Rattle.std.specs.Prelude.{◌≡◌};
ghost use Rattle.plain_heap.specs.Wrongs.{TellsUncollected, TellsUnforgotten};

use super::PlainHeap;
use crate::wrongs::{Wrong, lower};

impl PlainHeap {
    /// The lowest of what is wrong where a full collection is said to have taken out the objects with these bases: what is
    /// reached has to stay, and all else has to go.
    pub fn wrong_collected(&mut self, bases: &[u64]) -> Option<Wrong>
        ensures wrong { TellsUncollected self.old bases.now result }
        ensures same { self.new ≡ self.old }
    {
        self.reach
            .list(&self.roots, &[], &self.words, &self.directory);
        self.stays.fill(true);
        let marks = &self.reach.listing.marks;
        let named = self.directory.lowest_named(bases, marks, &mut self.stays);
        let left = self.directory.lowest_left(marks, &self.stays);
        lower(named, left)
    }

    /// The lowest of what is wrong where the end of a cycle is said to have taken out the objects with these bases: what is
    /// reached has to stay, and what has no flag has to go.
    pub fn wrong_forgotten(&mut self, bases: &[u64], flags: &[bool]) -> Option<Wrong>
        ensures wrong { TellsUnforgotten self.old flags.now bases.now result }
        ensures same { self.new ≡ self.old }
    {
        self.reach
            .list(&self.roots, &[], &self.words, &self.directory);
        self.stays.fill(true);
        let marks = &self.reach.listing.marks;
        let named = self.directory.lowest_named(bases, marks, &mut self.stays);
        self.directory
            .mark_flagged(flags, &mut self.reach.listing.marks);
        let left = self
            .directory
            .lowest_left(&self.reach.listing.marks, &self.stays);
        lower(named, left)
    }
}
