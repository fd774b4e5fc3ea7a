//! What one helper reads: its root words, its parts of the entries and of the dirty pages, and what these lead to.
ghost use Rattle.std.specs.Prelude.{◌≡◌, ℕ, ◌+◌, ◌<◌, ◌≤◌, [], ◌∷◌, true, false, Some, length};
ghost use Rattle.mark_bits.specs.Tables.{view, granules_of};
ghost use Rattle.words.specs.Layout.{granule, page_of};
ghost use Rattle.words.specs.declared.limits.TheConstants.{FIRST_ADDRESS};
ghost use Rattle.block_map.specs.declared.found.Found.{Found};
ghost use Rattle.block_map.specs.FoundIn.{found_in};
ghost use Rattle.marker.specs.Marking.{IsOutside, bytes_of, word_address};
ghost use Rattle.marker.specs.Growth.{TellsStray};
ghost use Rattle.final_pause.specs.Helping.{unread_of, IsReadyPause, IsObjectOf, IsHelperOf, IsRowOf, Visits, VisitsAll, ReadsWords};
ghost use Rattle.final_pause.specs.Pauses.{pause_view};
ghost use Rattle.final_pause.specs.Serving.{IsServing, GoesOnServing, HasServed, AreRootsRead};

use crate::gate::Gate;
use crate::helper::{Helper, carry, claim, put_off, queue};
use crate::piece::Piece;
use crate::waiting::Unread;
use block_map::{BlockMap, Found};
use mark_bits::MarkTable;
use marker::Marker;
use pages::{Memory, Words};
use words::limits::{FIRST_ADDRESS, GRANULE_BYTES, PAGE_BYTES, WORD_BYTES};
use words::{PageNo, granule_of, page_of};

// An object is left to its pages that has more than this part of the words that the helper may still read.
const LONG: u64 = 16;

/// What the helpers of a pause share. No helper changes any of it but the table, by claims.
#[derive(Clone, Copy)]
pub(crate) struct Pause<'a> {
    pub(crate) table: &'a MarkTable,
    pub(crate) marker: &'a Marker,
    pub(crate) map: &'a BlockMap,
    pub(crate) memory: &'a Memory,
    pub(crate) roots: &'a [u64],
    pub(crate) helpers: usize,
}

impl<'a> Pause<'a> {
    // The granule at which an object begins.
    #[inline]
    fn granule(&self, found: Found) -> usize
        requires ready { IsReadyPause (pause_view self.now) }
        requires object { found_in self.now.map.now found.base ≡ Some found }
        ensures value { result ≡ granule found.base }
        ensures inside { result < granules_of self.now.table.now }
    {
        granule_of(found.base)
    }

    /// How many bytes the heap's range has. It is asked for once for a row of words, since each look at one may be followed by a call.
    #[inline]
    pub(crate) fn bytes(&self) -> u64
        requires ready { IsReadyPause (pause_view self.now) }
        ensures { result ≡ bytes_of self.now.marker.now }
    {
        PAGE_BYTES * u64::from(self.map.len())
    }

    /// Whether a word lies in the heap's range, which has so many bytes.
    #[inline]
    pub(crate) fn is_inside(&self, bytes: u64, word: u64) -> bool
        requires ready { IsReadyPause (pause_view self.now) }
        requires bytes { bytes ≡ bytes_of self.now.marker.now }
        ensures inside { result ≡ true → (FIRST_ADDRESS ≤ word) × (word < FIRST_ADDRESS + bytes_of self.now.marker.now) }
        ensures outside { result ≡ false → IsOutside (bytes_of self.now.marker.now) word }
    {
        word.wrapping_sub(FIRST_ADDRESS) < bytes
    }

    // Marks an object. Where this helper is the first to, it is its own to read.
    #[inline(always)]
    fn mark<G: Gate>(&self, gate: &G, helper: &mut Helper, found: Found, may_wait: bool)
        requires helper { IsHelperOf (pause_view self.now) helper.old }
        requires object { found_in self.now.map.now found.base ≡ Some found }
        ensures { (w : ℕ) → found_in self.now.map.now w ≡ Some found → Visits (pause_view self.now) w helper.old helper.new }
    {
        let granule = self.granule(found);
        // A look is cheaper than a claim, and many words point into marked objects.
        if self.table.is_set(&mut helper.claimer, granule) {
            return;
        }
        if claim(self.table, gate, helper, granule) {
            queue(helper, found, may_wait);
        }
    }

    // Marks the object that a word points into, and answers whether the word is stray: it lies in the heap's range and points into no
    // object. Most words lie outside, and the loop over words is to hold that test alone.
    #[inline]
    fn visit<G: Gate>(&self, gate: &G, helper: &mut Helper, bytes: u64, word: u64) -> bool
        requires helper { IsHelperOf (pause_view self.now) helper.old }
        requires bytes { bytes ≡ bytes_of self.now.marker.now }
        ensures visits { Visits (pause_view self.now) word helper.old helper.new }
        ensures stray { TellsStray (found_in self.now.map.now) (bytes_of self.now.marker.now) (word ∷ []) result }
    {
        if self.is_inside(bytes, word) {
            self.visit_target(gate, helper, word, true)
        } else {
            false
        }
    }

    /// The same of a word in the heap's range. The object is left to its pages where it isn't to wait. Most such words are the base of
    /// one in a cell, which costs less to find.
    #[inline(never)]
    pub(crate) fn visit_target<G: Gate>(
        &self,
        gate: &G,
        helper: &mut Helper,
        word: u64,
        may_wait: bool,
    ) -> bool
        requires helper { IsHelperOf (pause_view self.now) helper.old }
        requires inside { (FIRST_ADDRESS ≤ word) × (word < FIRST_ADDRESS + bytes_of self.now.marker.now) }
        ensures visits { Visits (pause_view self.now) word helper.old helper.new }
        ensures stray { TellsStray (found_in self.now.map.now) (bytes_of self.now.marker.now) (word ∷ []) result }
    {
        if word % GRANULE_BYTES == 0 {
            if let Some(found) = self.map.base_in_cell(word) {
                self.mark(gate, helper, found, may_wait);
                return false;
            }
        }
        self.visit_other(gate, helper, word, may_wait)
    }

    // The same of any word.
    #[inline(never)]
    fn visit_other<G: Gate>(&self, gate: &G, helper: &mut Helper, word: u64, may_wait: bool) -> bool
        requires helper { IsHelperOf (pause_view self.now) helper.old }
        requires inside { (FIRST_ADDRESS ≤ word) × (word < FIRST_ADDRESS + bytes_of self.now.marker.now) }
        ensures visits { Visits (pause_view self.now) word helper.old helper.new }
        ensures stray { TellsStray (found_in self.now.map.now) (bytes_of self.now.marker.now) (word ∷ []) result }
    {
        let Some(found) = self.map.find(word) else {
            return true;
        };
        self.mark(gate, helper, found, may_wait);
        false
    }

    // Marks what words point into, and answers whether one is stray.
    #[inline]
    fn visit_all<G: Gate>(&self, gate: &G, helper: &mut Helper, words: Words) -> bool
        requires { IsHelperOf (pause_view self.now) helper.old }
        ensures visits { VisitsAll (pause_view self.now) words.entry helper.old helper.new }
        ensures stray { TellsStray (found_in self.now.map.now) (bytes_of self.now.marker.now) words.entry result }
    {
        let bytes = self.bytes();
        let mut stray = false;
        for word in words {
            stray |= self.visit(gate, helper, bytes, word);
        }
        stray
    }

    // Marks what so many words from an address on point into, which are words of one object on one page. The page is carried if one of
    // them is stray.
    #[inline]
    fn read_row<G: Gate>(&self, gate: &G, helper: &mut Helper, start: u64, count: u64)
        requires fits { IsHelperOf (pause_view self.now) helper.old }
        requires row { (f : Found) × (first : ℕ) × IsRowOf (pause_view self.now) f first start count }
        ensures { (f : Found) (first : ℕ) → IsRowOf (pause_view self.now) f first start count → ReadsWords (pause_view self.now) f first count helper.old helper.new }
    {
        if self.visit_all(gate, helper, self.memory.read_run(start, count)) {
            carry(helper, page_of(start) as PageNo);
        }
    }

    /// Marks what words of an object point into, which stand on one page. The page is carried if one of them is stray.
    pub(crate) fn read_run<G: Gate>(&self, gate: &G, helper: &mut Helper, piece: Piece)
        requires fits { IsHelperOf (pause_view self.now) helper.old }
        requires object { IsObjectOf (pause_view self.now) piece.found }
        requires inside { piece.first + piece.count ≤ piece.found.len }
        requires one_page { (i : ℕ) → piece.first ≤ i → i < piece.first + piece.count → page_of (word_address piece.found i) ≡ page_of (word_address piece.found piece.first) }
        ensures { ReadsWords (pause_view self.now) piece.found piece.first piece.count helper.old helper.new }
    {
        let start = piece.found.base + WORD_BYTES * u64::from(piece.first);
        self.read_row(gate, helper, start, piece.count);
    }

    // Marks what words of an object point into, page by page.
    pub(crate) fn read_words<G: Gate>(&self, gate: &G, helper: &mut Helper, piece: Piece)
        requires fits { IsHelperOf (pause_view self.now) helper.old }
        requires object { IsObjectOf (pause_view self.now) piece.found }
        requires inside { piece.first + piece.count ≤ piece.found.len }
        ensures { ReadsWords (pause_view self.now) piece.found piece.first piece.count helper.old helper.new }
    {
        let mut done = 0;
        while done < piece.count {
            let next = piece.first + done as u32;
            let address = piece.found.base + WORD_BYTES * u64::from(next);
            let on_page = (PAGE_BYTES - address % PAGE_BYTES) / WORD_BYTES;
            let run = on_page.min(piece.count - done);
            let on_one_page = Piece {
                found: piece.found,
                first: next,
                count: run,
            };
            self.read_run(gate, helper, on_one_page);
            done += run;
        }
    }

    // Marks what the root words of the helper's place point into.
    fn read_roots<G: Gate>(&self, gate: &G, helper: &mut Helper)
        requires { IsServing (pause_view self.now) helper.old }
        ensures serves { GoesOnServing (pause_view self.now) helper.old helper.new }
        ensures roots { AreRootsRead (pause_view self.now) (view helper.new.claimer) helper.old.place (length self.now.roots.now) }
    {
        let bytes = self.bytes();
        for i in 0..self.roots.len() {
            if i % self.helpers == helper.place {
                self.visit(gate, helper, bytes, self.roots[i]);
            }
        }
    }

    // Reads the words of an object that waited. Most lie on one page.
    #[inline]
    fn read_whole<G: Gate>(&self, gate: &G, helper: &mut Helper, unread: Unread)
        requires fits { IsHelperOf (pause_view self.now) helper.old }
        requires object { (f : Found) × (found_in self.now.map.now f.base ≡ Some f) × (unread_of f ≡ unread) }
        ensures { (f : Found) → found_in self.now.map.now f.base ≡ Some f → unread_of f ≡ unread → ReadsWords (pause_view self.now) f 0 f.len helper.old helper.new }
    {
        let words = u64::from(unread.len);
        if unread.base % PAGE_BYTES + WORD_BYTES * words <= PAGE_BYTES {
            self.read_row(gate, helper, unread.base, words);
        } else {
            let whole = Piece {
                found: self.map.object_at(unread.base),
                first: 0,
                count: words,
            };
            self.read_words(gate, helper, whole);
        }
    }

    // Reads the objects that wait, and those that come, until none is left. One that is long beside what the helper may still read is
    // left to its pages, which all read together in the next round.
    pub(crate) fn read_waiting<G: Gate>(&self, gate: &G, helper: &mut Helper)
        requires { IsServing (pause_view self.now) helper.old }
        ensures serves { GoesOnServing (pause_view self.now) helper.old helper.new }
        ensures empty { helper.new.waiting ≡ [] }
    {
        while let Some(unread) = helper.waiting.take(self.memory) {
            let words = u64::from(unread.len);
            if words > helper.left / LONG {
                put_off(helper, self.map.object_at(unread.base));
            } else {
                helper.left -= words;
                self.read_whole(gate, helper, unread);
            }
        }
    }

    /// Reads what waits, where more will come and there may soon be no room for it.
    #[inline]
    pub(crate) fn make_room<G: Gate>(&self, gate: &G, helper: &mut Helper)
        requires { IsServing (pause_view self.now) helper.old }
        ensures { GoesOnServing (pause_view self.now) helper.old helper.new }
    {
        if helper.waiting.is_crowded() {
            self.read_waiting(gate, helper);
        }
    }

    /// A helper's whole work: the root words of its place before anything else, its parts of the entries and of the dirty pages, and
    /// all that these lead to.
    pub(crate) fn help<G: Gate>(&self, gate: &G, helper: &mut Helper)
        requires { IsServing (pause_view self.now) helper.old }
        ensures { HasServed (pause_view self.now) helper.old.place helper.new }
    {
        self.read_roots(gate, helper);
        self.read_entries(gate, helper);
        self.read_pages(gate, helper);
        self.read_waiting(gate, helper);
    }
}
