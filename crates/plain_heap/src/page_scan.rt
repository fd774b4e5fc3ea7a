//! What lies on a page, found from object to object.
ghost use Rattle.std.specs.Prelude.{◌≡◌, ◌<◌, ◌≤◌, false, IsTrue};
ghost use Rattle.words.specs.declared.limits.TheConstants.{PAGE_WORDS, MAX_SMALL_WORDS};
ghost use Rattle.plain_heap.specs.Places.{IsFreePage, IsCutPage, word_start};

use crate::directory::Directory;
use crate::extent::Extent;
use words::limits::{PAGE_WORDS, WORD_BYTES};
use words::{Kind, PageNo, page_start};

// The address of a word of the page.
fn word_start(page: PageNo, word: u64) -> u64
    requires { word < PAGE_WORDS }
    ensures { result ≡ word_start page word }
{
    page_start(page) + WORD_BYTES * word
}

// Whether the object has this length and this kind.
fn agrees(object: &Extent, length: u64, kind: Kind) -> bool
    ensures yes { IsTrue result → (object.now.length ≡ length) × (object.now.kind ≡ kind) }
    ensures no { result ≡ false → (object.now.length ≡ length) × (object.now.kind ≡ kind) → ⊥ }
{
    object.length == length && object.kind == kind
}

impl Directory {
    // Whether no object lies on the page.
    pub(crate) fn is_free(&self, page: PageNo) -> bool
        ensures yes { IsTrue result → IsFreePage self.now.objects.items page }
        ensures no { result ≡ false → IsFreePage self.now.objects.items page → ⊥ }
    {
        for word in 0..PAGE_WORDS {
            if self.has_word(word_start(page, word)) {
                return false;
            }
        }
        true
    }

    // Whether each object on the page has this length and this kind.
    pub(crate) fn is_cut_for(&self, page: PageNo, length: u64, kind: Kind) -> bool
        requires { length ≤ MAX_SMALL_WORDS }
        ensures yes { IsTrue result → IsCutPage self.now.objects.items page length kind }
        ensures no { result ≡ false → IsCutPage self.now.objects.items page length kind → ⊥ }
    {
        let mut word = 0;
        while word < PAGE_WORDS {
            let address = word_start(page, word);
            let mut past = word + 1;
            if let Some(object) = self.object_at(address) {
                if !agrees(&object, length, kind) {
                    return false;
                }
                past = word + object.words_from(address);
            }
            word = past;
        }
        true
    }
}
