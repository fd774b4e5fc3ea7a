//! The words of a long object, which the helpers read by where they point.
//!
//! A claim is slow where another processor has just changed marks in the same line of memory. What a long object points at lies
//! anywhere, so helpers that read a part of its words each would take the lines from one another all the time. So the heap is cut into
//! spans, and each span is one helper's: of all the object's words it visits those that point into its own. The spans of a helper stand
//! in a row, since a row of marks needn't begin where a line does, so that two neighbours may have a line of marks in common.
//!
//! What such an object leads to lies in random order. Where there is a round after this one, it is left to its pages, which the next
//! round reads in the order of memory.
ghost use Rattle.std.specs.Prelude.{◌≡◌, ℕ, ◌+◌, ◌*◌, ◌/◌, ◌%◌, ◌<◌, ◌≤◌, ◌⊎◌, [], ◌∷◌, true, false};
ghost use Rattle.words.specs.Layout.{page_of};
ghost use Rattle.words.specs.declared.limits.TheConstants.{FIRST_ADDRESS};
ghost use Rattle.block_map.specs.FoundIn.{found_in};
ghost use Rattle.marker.specs.Marking.{IsOutside, bytes_of, word_address};
ghost use Rattle.marker.specs.Growth.{TellsStray};
ghost use Rattle.final_pause.specs.Helping.{IsReadyPause, IsObjectOf, IsHelperOf, VisitsAll, ReadsOwn, own_words, span_turn};
ghost use Rattle.final_pause.specs.Pauses.{pause_view};

use crate::gate::Gate;
use crate::helper::{Helper, carry};
use crate::piece::Piece;
use crate::share::Pause;
use pages::Words;
use words::limits::{PAGE_BYTES, WORD_BYTES};
use words::{PageNo, page_of};

// The bytes of a span: its marks are two lines of memory.
const SPAN_BYTES: u64 = 4 * PAGE_BYTES;

// So many spans in a row, 1 MB of the heap, are shared out among the helpers.
const SPANS: u64 = 64;

// A helper that may read more words than this reads until nothing waits, and no round comes after it.
const ENDLESS: u64 = u64::MAX / 2;

// Whose turn a span is. Nothing is divided but by powers of two, which costs less than the look at a word.
#[inline]
fn turn_of_span(span: u64, helpers: usize) -> usize
    ensures { result ≡ (helpers * (span % 64)) / 64 }
{
    let product = helpers as u128 * u128::from(span % SPANS);
    (product / u128::from(SPANS)) as usize
}

impl<'a> Pause<'a> {
    // Whether a word points into one of the helper's spans.
    #[inline]
    fn is_own(&self, helper: &Helper, bytes: u64, word: u64) -> bool
        requires ready { IsReadyPause (pause_view self.now) }
        requires bytes { bytes ≡ bytes_of self.now.marker.now }
        ensures inside { result ≡ true → (FIRST_ADDRESS ≤ word) × (word < FIRST_ADDRESS + bytes_of self.now.marker.now) }
        ensures own { result ≡ true → span_turn (pause_view self.now) word ≡ helper.now.place }
        ensures other { result ≡ false → IsOutside (bytes_of self.now.marker.now) word ⊎ (span_turn (pause_view self.now) word ≡ helper.now.place → ⊥) }
    {
        if !self.is_inside(bytes, word) {
            return false;
        }
        turn_of_span(word / SPAN_BYTES, self.helpers) == helper.place
    }

    // Marks the object that a word points into, if the word is the helper's. Answers whether it is the helper's and stray.
    #[inline]
    fn visit_own<G: Gate>(&self, gate: &G, helper: &mut Helper, bytes: u64, word: u64) -> bool
        requires helper { IsHelperOf (pause_view self.now) helper.old }
        requires bytes { bytes ≡ bytes_of self.now.marker.now }
        ensures visits { VisitsAll (pause_view self.now) (own_words (pause_view self.now) helper.old.place (word ∷ [])) helper.old helper.new }
        ensures stray { TellsStray (found_in self.now.map.now) (bytes_of self.now.marker.now) (own_words (pause_view self.now) helper.old.place (word ∷ [])) result }
    {
        if self.is_own(helper, bytes, word) {
            self.visit_target(gate, helper, word, helper.left > ENDLESS)
        } else {
            false
        }
    }

    // Marks what those of the words point into that are the helper's, and answers whether one of these is stray.
    #[inline]
    fn visit_all_own<G: Gate>(&self, gate: &G, helper: &mut Helper, words: Words) -> bool
        requires { IsHelperOf (pause_view self.now) helper.old }
        ensures visits { VisitsAll (pause_view self.now) (own_words (pause_view self.now) helper.old.place words.entry) helper.old helper.new }
        ensures stray { TellsStray (found_in self.now.map.now) (bytes_of self.now.marker.now) (own_words (pause_view self.now) helper.old.place words.entry) result }
    {
        let bytes = self.bytes();
        let mut stray = false;
        for word in words {
            stray |= self.visit_own(gate, helper, bytes, word);
        }
        stray
    }

    /// Marks what those of some words of an object point into that are the helper's. All stand on one page, which is carried if
    /// one of them is stray.
    pub(crate) fn read_own<G: Gate>(&self, gate: &G, helper: &mut Helper, piece: Piece)
        requires fits { IsHelperOf (pause_view self.now) helper.old }
        requires object { IsObjectOf (pause_view self.now) piece.found }
        requires inside { piece.first + piece.count ≤ piece.found.len }
        requires one_page { (i : ℕ) → piece.first ≤ i → i < piece.first + piece.count → page_of (word_address piece.found i) ≡ page_of (word_address piece.found piece.first) }
        ensures { ReadsOwn (pause_view self.now) piece.found piece.first piece.count helper.old helper.new }
    {
        let start = piece.found.base + WORD_BYTES * u64::from(piece.first);
        if self.visit_all_own(gate, helper, self.memory.read_run(start, piece.count)) {
            carry(helper, page_of(start) as PageNo);
        }
    }
}
