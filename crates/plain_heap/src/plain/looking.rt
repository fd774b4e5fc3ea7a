//! What a plain heap has, for a caller that shows it. Nothing changes.
ghost use Rattle.std.specs.Prelude.{◌≡◌};
ghost use Rattle.plain_heap.specs.Along.{word_of};

use super::PlainHeap;
use crate::extent::Extent;
use crate::owners::word_index;
use links::Link;
use roots::Roots;

impl PlainHeap {
    /// The registers, stacks and globals.
    pub fn roots(&self) -> &Roots
        ensures { result.now ≡ self.now.roots }
    {
        &self.roots
    }

    /// The links that stand, in the order in which they were made.
    pub fn links(&self) -> &[Link]
        ensures { result.now ≡ self.now.links }
    {
        self.links.as_slice()
    }

    /// Where the objects lie. Their order says nothing.
    pub fn objects(&self) -> &[Extent]
        ensures { result.now ≡ self.now.objects }
    {
        self.directory.objects()
    }

    /// The word at an address, if one of the objects has it.
    pub fn word(&self, address: u64) -> Option<u64>
        ensures { result ≡ word_of self.now address }
    {
        if !self.directory.has_word(address) {
            return None;
        }
        let position = word_index(self.directory.origin, address);
        Some(self.words[position])
    }
}
