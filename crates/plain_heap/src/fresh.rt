//! Whether a new object may be put where it is to lie: in the heap, and where no object is.
ghost use Rattle.std.specs.Prelude.{◌≡◌, ◌<◌, ◌+◌, ◌*◌, ◌%◌, IsTrue, false};
ghost use Rattle.words.specs.declared.limits.TheConstants.{WORD_BYTES};
ghost use Rattle.heap_spec.specs.Layout.{word_end};
ghost use Rattle.plain_heap.specs.PlainContents.{IsInHeap, end_of};
ghost use Rattle.plain_heap.specs.Places.{IsFresh};

use crate::directory::Directory;
use crate::extent::Extent;
use words::limits::{PAGE_BYTES, WORD_BYTES};

// Whether the object lies in a heap of so many pages from the origin on, at a word.
fn is_in_heap(origin: u64, pages: u32, object: &Extent) -> bool
    requires { end_of origin pages < word_end }
    ensures yes { IsTrue result → IsInHeap origin pages object.now }
    ensures no { result ≡ false → IsInHeap origin pages object.now → ⊥ }
{
    let end = origin + PAGE_BYTES * u64::from(pages);
    if object.base < origin || object.base > end {
        return false;
    }
    if object.base % WORD_BYTES != 0 || object.length == 0 {
        return false;
    }
    object.length <= (end - object.base) / WORD_BYTES
}

impl Directory {
    // Whether no object has a byte of a new one.
    fn is_fresh(&self, object: &Extent) -> bool
        requires aligned { object.now.base % WORD_BYTES ≡ 0 }
        requires ends { object.now.base + WORD_BYTES * object.now.length < word_end }
        ensures yes { IsTrue result → IsFresh self.now.objects.items object.now }
        ensures no { result ≡ false → IsFresh self.now.objects.items object.now → ⊥ }
    {
        for index in 0..object.length {
            if self.has_word(object.base + WORD_BYTES * index) {
                return false;
            }
        }
        true
    }

    // Whether a new object may be put where it is to lie.
    pub(crate) fn may_be_put(&self, pages: u32, object: &Extent) -> bool
        requires fits { end_of self.now.origin pages < word_end }
        ensures yes { IsTrue result → IsInHeap self.now.origin pages object.now × IsFresh self.now.objects.items object.now }
        ensures no { result ≡ false → IsInHeap self.now.origin pages object.now → IsFresh self.now.objects.items object.now → ⊥ }
    {
        if !is_in_heap(self.origin, pages, object) {
            return false;
        }
        self.is_fresh(object)
    }
}
