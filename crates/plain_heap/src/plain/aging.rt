//! Flags that a caller keeps of the objects that are old, and what roots and old objects lead to.
ghost use Rattle.std.specs.Prelude.{◌≡◌, length};
ghost use Rattle.plain_heap.specs.Aging.{FlagsAll, FlagUnset, FlagsClosure};

use super::PlainHeap;

impl PlainHeap {
    /// Sets the flags of all objects.
    pub fn flag_all(&self, flags: &mut [bool])
        ensures flags { FlagsAll self.now flags.new }
        ensures size { length flags.new ≡ length flags.old }
    {
        self.laws();
        flags.fill(true);
    }

    /// Unsets the flag of the object with this base.
    pub fn unflag(&self, base: u64, flags: &mut [bool])
        ensures { FlagUnset self.now base flags.old flags.new }
    {
        self.laws();
        if base < self.directory.origin {
            return;
        }
        self.directory.set_flag(base, false, flags);
    }

    /// Sets the flags of all objects that roots or the old objects lead to, and of no other.
    pub fn flag_closure(&mut self, aged: &[bool], flags: &mut [bool])
        ensures flags { FlagsClosure self.old aged.now flags.new }
        ensures size { length flags.new ≡ length flags.old }
        ensures same { self.new ≡ self.old }
    {
        self.reach
            .list(&self.roots, aged, &self.words, &self.directory);
        flags.fill(false);
        self.directory.flag_marked(&self.reach.listing.marks, flags);
    }
}
