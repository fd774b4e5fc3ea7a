//! The calls that take out what is not reached.
ghost use Rattle.std.specs.Prelude.{◌≡◌, IsTrue, All, true, false};
ghost use Rattle.heap_spec.specs.Heap.{Heap, Object, HasObject, without};
ghost use Rattle.plain_heap.specs.Standing.{StandsFor};
ghost use Rattle.plain_heap.specs.Collections.{IsCollected, HasGarbage, CantCollect, TakesBases, CantTake};

use super::PlainHeap;
use crate::along::take_along;

impl PlainHeap {
    /// Takes out all objects that are not reached, and answers how many.
    pub fn collect(&mut self) -> u64
        ensures collected { IsCollected self.old result self.new }
        ensures origin { self.new.origin ≡ self.old.origin }
    {
        self.reach
            .list(&self.roots, &[], &self.words, &self.directory);
        let count = self.directory.keep_flagged(&self.reach.listing.marks);
        take_along(&mut self.words, &self.directory, &mut self.links);
        count as u64
    }

    /// How many objects are not reached.
    pub fn count_unreached(&mut self) -> u64
        ensures garbage { HasGarbage self.old result }
        ensures same { self.new ≡ self.old }
    {
        self.reach
            .list(&self.roots, &[], &self.words, &self.directory);
        self.directory.count_unflagged(&self.reach.listing.marks) as u64
    }

    /// Takes out all objects that are not reached, if they are so many. Else nothing changes.
    pub fn collect_counted(&mut self, count: u64) -> bool
        ensures yes { IsTrue result → IsCollected self.old count self.new }
        ensures no { result ≡ false → CantCollect self.old count }
        ensures same { result ≡ false → self.new ≡ self.old }
        ensures origin { self.new.origin ≡ self.old.origin }
    {
        if self.count_unreached() != count {
            return false;
        }
        let _gone = self.collect();
        true
    }

    // Takes out the objects with these bases, where each is that of one.
    pub(super) fn take_out(&mut self, bases: &[u64])
        ensures taken { (s : Heap) → StandsFor self.old s → All (λ b. (o : Object) × HasObject s b o) bases.now → StandsFor self.new (without s bases.now) }
        ensures origin { self.new.origin ≡ self.old.origin }
    {
        self.stays.fill(true);
        self.directory.unset_named(bases, &mut self.stays);
        let _gone = self.directory.keep_flagged(&self.stays);
        take_along(&mut self.words, &self.directory, &mut self.links);
    }

    /// Takes out all objects that are not reached, if these are their bases, each once. Else nothing changes.
    pub fn collect_as(&mut self, bases: &[u64]) -> bool
        ensures yes { IsTrue result → TakesBases self.old bases.now true self.new }
        ensures no { result ≡ false → CantTake self.old bases.now true }
        ensures same { result ≡ false → self.new ≡ self.old }
        ensures origin { self.new.origin ≡ self.old.origin }
    {
        let None = self.wrong_collected(bases) else {
            return false;
        };
        self.take_out(bases);
        true
    }
}
