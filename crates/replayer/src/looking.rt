//! What a replayer has, for a caller that shows it. The run stays where it was.
ghost use Rattle.std.specs.Prelude.{◌≡◌, length};
ghost use Rattle.plain_heap.specs.Flags.{FlagsReached};

use crate::flags::flag_begin;
use crate::replayer::Replayer;
use plain_heap::PlainHeap;

impl Replayer {
    /// The heap that the run has led to.
    pub fn heap(&self) -> &PlainHeap
        ensures { result.now ≡ self.now.heap }
    {
        &self.heap
    }

    /// How many objects were born.
    pub fn births(&self) -> u64
        ensures { result ≡ self.now.births }
    {
        self.births
    }

    /// The flags of the touched objects, by where the words at their bases stand in the row of all words. While no cycle marks
    /// they say nothing.
    pub fn touched(&self) -> &[bool]
        ensures { result.now ≡ self.now.touched }
    {
        self.touched.as_slice()
    }

    /// Sets the flags of the reached objects, and no other.
    pub fn flag_reached(&mut self, flags: &mut Vec<bool>)
        ensures flags { FlagsReached self.old.heap flags.new.items }
        ensures size { length flags.new.items ≡ length flags.old.items }
        ensures same { self.new ≡ self.old }
    {
        flag_begin(&mut self.heap, flags);
    }
}
