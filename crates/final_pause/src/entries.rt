//! The entries that were left over, which the helpers read together.
//!
//! They are numbered from the lowest one on, and the one that is being read comes last. Of the entry of a number a helper reads the words
//! on those pages of which the page's number in the object and the entry's are together its place, modulo the number of helpers.
//!
//! Of an object that is longer than a page each helper reads all words, and visits those that point into its own spans of the heap
//! (`spans.rt`).
ghost use Rattle.std.specs.Prelude.{◌≡◌, ℕ, ◌+◌, ◌<◌, ◌≤◌, nat_lt, Some, MatchOption, length};
ghost use Rattle.words.specs.Layout.{page_of};
ghost use Rattle.words.specs.declared.class.Kind.TheVariants.{Normal};
ghost use Rattle.words.specs.declared.limits.TheConstants.{MARK_STACK_ENTRIES, PAGE_WORDS};
ghost use Rattle.mark_bits.specs.Tables.{view};
ghost use Rattle.block_map.specs.FoundIn.{found_in};
ghost use Rattle.marker.specs.Marking.{IsMarked, entries, word_address};
ghost use Rattle.final_pause.specs.Dealing.{IsAt};
ghost use Rattle.final_pause.specs.Pauses.{pause_view};
ghost use Rattle.final_pause.specs.Helping.{page_turn, span_turn, word_in};
ghost use Rattle.final_pause.specs.Serving.{IsServing, GoesOnServing, AreTurnsRead, IsRunRead, IsEntryRead, AreEntriesRead};

use crate::gate::Gate;
use crate::helper::Helper;
use crate::piece::Piece;
use crate::share::Pause;
use block_map::Found;
use marker::{Entry, Marker};
use words::limits::{MARK_STACK_ENTRIES, PAGE_BYTES, PAGE_WORDS, WORD_BYTES};
use words::page_of;

// So many words of an entry are read before it is seen to that what they lead to has room: half as many as a stack has.
const PIECE: u64 = MARK_STACK_ENTRIES as u64 / 2;

// The entry of a number, and `None` from where there is no more.
fn entry_at(marker: &Marker, number: usize) -> Option<Entry>
    ensures { MatchOption result (length (entries marker.now) ≤ number) (λ e. IsAt (entries marker.now) number e) }
{
    let waiting = marker.waiting();
    if number < waiting.len() {
        return Some(waiting[number]);
    }
    if number > waiting.len() {
        return None;
    }
    marker.current()
}

// Whether an object is longer than a page.
#[inline]
fn is_long(found: Found) -> bool
    ensures { result ≡ nat_lt PAGE_WORDS found.len }
{
    u64::from(found.len) > PAGE_WORDS
}

impl<'a> Pause<'a> {
    // Reads words of an object, which stand on one page, if the page's turn is the helper's.
    fn read_turn<G: Gate>(&self, gate: &G, helper: &mut Helper, piece: Piece, number: usize)
        requires serving { IsServing (pause_view self.now) helper.old }
        requires object { found_in self.now.map.now piece.found.base ≡ Some piece.found }
        requires normal { piece.found.kind ≡ Normal }
        requires marked { IsMarked self.now.marker.now piece.found.base }
        requires inside { piece.first + piece.count ≤ piece.found.len }
        requires some { 0 < piece.count }
        requires one_page { (i : ℕ) → piece.first ≤ i → i < piece.first + piece.count → page_of (word_address piece.found i) ≡ page_of (word_address piece.found piece.first) }
        requires few { number ≤ MARK_STACK_ENTRIES }
        ensures serves { GoesOnServing (pause_view self.now) helper.old helper.new }
        ensures read { AreTurnsRead (pause_view self.now) (view helper.new.claimer) helper.new.carried helper.old.place (page_turn (pause_view self.now) number piece.found) piece.found piece.first (piece.first + piece.count) }
    {
        let address = piece.found.base + WORD_BYTES * u64::from(piece.first);
        let page = (page_of(address) - page_of(piece.found.base)) as usize;
        if (number + page) % self.helpers != helper.place {
            return;
        }
        self.read_run(gate, helper, piece);
        self.make_room(gate, helper);
    }

    // Reads those of some words of an object, which stand on one page, that point into the helper's spans.
    fn read_spans<G: Gate>(&self, gate: &G, helper: &mut Helper, piece: Piece)
        requires serving { IsServing (pause_view self.now) helper.old }
        requires object { found_in self.now.map.now piece.found.base ≡ Some piece.found }
        requires normal { piece.found.kind ≡ Normal }
        requires marked { IsMarked self.now.marker.now piece.found.base }
        requires inside { piece.first + piece.count ≤ piece.found.len }
        requires one_page { (i : ℕ) → piece.first ≤ i → i < piece.first + piece.count → page_of (word_address piece.found i) ≡ page_of (word_address piece.found piece.first) }
        ensures serves { GoesOnServing (pause_view self.now) helper.old helper.new }
        ensures read { AreTurnsRead (pause_view self.now) (view helper.new.claimer) helper.new.carried helper.old.place (λ i. span_turn (pause_view self.now) (word_in (pause_view self.now) piece.found i)) piece.found piece.first (piece.first + piece.count) }
    {
        self.read_own(gate, helper, piece);
        self.make_room(gate, helper);
    }

    // Reads the helper's part of words of the object of the entry of a number, which stand on one page.
    fn read_piece<G: Gate>(&self, gate: &G, helper: &mut Helper, piece: Piece, number: usize)
        requires serving { IsServing (pause_view self.now) helper.old }
        requires object { found_in self.now.map.now piece.found.base ≡ Some piece.found }
        requires normal { piece.found.kind ≡ Normal }
        requires marked { IsMarked self.now.marker.now piece.found.base }
        requires inside { piece.first + piece.count ≤ piece.found.len }
        requires some { 0 < piece.count }
        requires one_page { (i : ℕ) → piece.first ≤ i → i < piece.first + piece.count → page_of (word_address piece.found i) ≡ page_of (word_address piece.found piece.first) }
        requires few { number ≤ MARK_STACK_ENTRIES }
        ensures serves { GoesOnServing (pause_view self.now) helper.old helper.new }
        ensures read { IsRunRead (pause_view self.now) (view helper.new.claimer) helper.new.carried helper.old.place number piece.found piece.first (piece.first + piece.count) }
    {
        if is_long(piece.found) {
            self.read_spans(gate, helper, piece);
        } else {
            self.read_turn(gate, helper, piece, number);
        }
    }

    // Reads the helper's part of the words that the entry of a number has left.
    fn read_entry<G: Gate>(&self, gate: &G, helper: &mut Helper, entry: Entry, number: usize)
        requires serving { IsServing (pause_view self.now) helper.old }
        requires few { number ≤ MARK_STACK_ENTRIES }
        ensures serves { GoesOnServing (pause_view self.now) helper.old helper.new }
        ensures read { IsEntryRead (pause_view self.now) (view helper.new.claimer) helper.new.carried helper.old.place number entry }
    {
        let Some(found) = self.marker.unread(self.map, entry) else {
            return;
        };
        let mut next = entry.next;
        while next < found.len {
            let address = found.base + WORD_BYTES * u64::from(next);
            let on_page = (PAGE_BYTES - address % PAGE_BYTES) / WORD_BYTES;
            let count = on_page.min(u64::from(found.len - next)).min(PIECE);
            let piece = Piece {
                found,
                first: next,
                count,
            };
            self.read_piece(gate, helper, piece, number);
            next += count as u32;
        }
    }

    /// Reads the helper's part of all entries.
    pub(crate) fn read_entries<G: Gate>(&self, gate: &G, helper: &mut Helper)
        requires { IsServing (pause_view self.now) helper.old }
        ensures serves { GoesOnServing (pause_view self.now) helper.old helper.new }
        ensures read { AreEntriesRead (pause_view self.now) (view helper.new.claimer) helper.new.carried helper.old.place (length (entries self.now.marker.now)) }
    {
        self.marker.laws();
        let mut number = 0;
        while let Some(entry) = entry_at(self.marker, number) {
            self.read_entry(gate, helper, entry, number);
            number += 1;
        }
    }
}
