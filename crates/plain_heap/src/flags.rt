//! Flags of objects, by where the words at their bases stand in the row of all words: so no flag moves when an object does in
//! the row of objects, and one that is left by an object that went stands where the next one at that base is.
ghost use Rattle.std.specs.Prelude.{◌≡◌, ◌≤◌, All, IsTrue, false, length, slice_set};
ghost use Rattle.links.specs.Leaving.{word_index};
ghost use Rattle.plain_heap.specs.Standing.{LiesIn};
ghost use Rattle.plain_heap.specs.Reached.{links_of};
ghost use Rattle.plain_heap.specs.Flags.{IsFlagged, FlagsMarked};
ghost use Rattle.plain_heap.specs.Wrongs.{MarksFlagged};

use crate::directory::Directory;
use crate::extent::Extent;
use crate::listing::links;
use crate::owners::word_index;

// Whether all words are 0.
fn are_zeros(words: &[u64]) -> bool
    ensures { IsTrue result → All (λ w. w ≡ 0) words.now }
{
    for word in words {
        if *word != 0 {
            return false;
        }
    }
    true
}

// Whether no word but 0 is read of an object.
pub(crate) fn has_no_links(object: Extent, origin: u64, words: &[u64]) -> bool
    requires { LiesIn origin words.now object }
    ensures { IsTrue result → All (λ w. w ≡ 0) (links_of origin words.now object) }
{
    are_zeros(links(object, origin, words))
}

impl Directory {
    // Whether the object with this base has its flag.
    pub(crate) fn is_flagged(&self, base: u64, flags: &[bool]) -> bool
        requires { self.now.origin ≤ base }
        ensures yes { IsTrue result → IsFlagged self.now.origin flags.now base }
        ensures no { result ≡ false → IsFlagged self.now.origin flags.now base → ⊥ }
    {
        let position = word_index(self.origin, base);
        position < flags.len() && flags[position]
    }

    // Sets or unsets the flag of the object with this base, if there is room for it.
    pub(crate) fn set_flag(&self, base: u64, flag: bool, flags: &mut [bool])
        requires { self.now.origin ≤ base }
        ensures { flags.new ≡ slice_set flags.old (word_index self.now.origin base) flag }
    {
        let position = word_index(self.origin, base);
        if position < flags.len() {
            flags[position] = flag;
        }
    }

    // Sets the flags of the objects that are marked.
    pub(crate) fn flag_marked(&self, marks: &[bool], flags: &mut [bool])
        requires { length self.now.objects.items ≤ length marks.now }
        ensures { FlagsMarked self.now.origin self.now.objects.items marks.now flags.old flags.new }
    {
        for index in 0..self.len() {
            if marks[index] {
                self.set_flag(self.object(index).base, true, flags);
            }
        }
    }

    // Marks the objects that have their flags, and no other.
    pub(crate) fn mark_flagged(&self, flags: &[bool], marks: &mut [bool])
        requires { length self.now.objects.items ≤ length marks.old }
        ensures marked { MarksFlagged self.now.origin self.now.objects.items flags.now marks.new }
        ensures size { length marks.new ≡ length marks.old }
    {
        for index in 0..self.len() {
            marks[index] = self.is_flagged(self.object(index).base, flags);
        }
    }
}
