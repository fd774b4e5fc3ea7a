//! The dirty pages, which the helpers read together.
//!
//! They are numbered from the first one on. Of the page of a number a helper reads the objects of which that number and that of the 256
//! bytes in which the object begins are together its place, modulo the number of helpers. So the parts are even, however few pages there
//! are. Of the pages past the first 256 it reads those of which the number alone is its place (`turns.rt`).
//!
//! A helper reads of a dirty page the objects that were marked before the helpers started: whoever wins an object after that
//! sees to its words himself, wherever it lies. So the marks that are asked here are the marker's own, which nobody changes
//! while helpers are at work, and not the table's.
//!
//! On a page that is cut, their bits tell where these objects begin and the page's block what they are, with no look-up and
//! no look at any other object. On another page stands one object at most.
ghost use Rattle.std.specs.Prelude.{◌≡◌, ℕ, ◌+◌, ◌*◌, ◌<◌, ◌≤◌, Some, length};
ghost use Rattle.words.specs.Bits.{Has};
ghost use Rattle.words.specs.declared.class.Kind.TheVariants.{Normal};
ghost use Rattle.words.specs.declared.limits.TheConstants.{MOST_PAGES, PAGE_GRANULES};
ghost use Rattle.mark_bits.specs.Tables.{view};
ghost use Rattle.block_map.specs.FoundIn.{found_in};
ghost use Rattle.block_map.specs.States.{cut, state_at};
ghost use Rattle.final_pause.specs.Dealing.{rank};
ghost use Rattle.final_pause.specs.Pauses.{pause_view};
ghost use Rattle.final_pause.specs.Serving.{IsServing, GoesOnServing, IsPieceRead, AreObjectsRead, IsPageRead, ArePagesRead};

use crate::gate::Gate;
use crate::helper::Helper;
use crate::piece::Piece;
use crate::share::Pause;
use block_map::object_from;
use blocks::Block;
use marker::part_between;
use words::limits::{FIRST_ADDRESS, GRANULE_BYTES, PAGE_BYTES, PAGE_GRANULES};
use words::{Kind, PageNo, granule_of, page_start};

// The words of 64 mark bits that a page has.
const MARK_WORDS: usize = (PAGE_GRANULES / 64) as usize;

// A dirty page that is cut, and its number among the dirty ones.
#[derive(Clone, Copy)]
struct DirtyBlock<'b> {
    page: PageNo,
    block: &'b Block,
    number: usize,
}

impl<'a> Pause<'a> {
    // Reads words of an object on the dirty page of a number, if it was a marked Normal one before the helpers started and it is
    // the helper's turn.
    fn read_part<G: Gate>(&self, gate: &G, helper: &mut Helper, piece: Piece, number: usize)
        requires serving { IsServing (pause_view self.now) helper.old }
        requires object { found_in self.now.map.now piece.found.base ≡ Some piece.found }
        requires inside { piece.first + piece.count ≤ piece.found.len }
        requires few { number ≤ MOST_PAGES }
        ensures serves { GoesOnServing (pause_view self.now) helper.old helper.new }
        ensures read { IsPieceRead (pause_view self.now) (view helper.new.claimer) helper.new.carried helper.old.place number piece }
    {
        if piece.found.kind == Kind::PointerFree {
            return;
        }
        if !self.is_turn(helper, number, granule_of(piece.found.base)) {
            return;
        }
        if !self.marker.is_marked(piece.found.base) {
            return;
        }
        self.read_words(gate, helper, piece);
    }

    // Reads the words on a page of all objects that were marked Normal ones before the helpers started, object by object.
    fn read_objects<G: Gate>(&self, gate: &G, helper: &mut Helper, page: PageNo, number: usize)
        requires serving { IsServing (pause_view self.now) helper.old }
        requires inside { page < length self.now.map.now }
        requires few { number ≤ MOST_PAGES }
        ensures serves { GoesOnServing (pause_view self.now) helper.old helper.new }
        ensures read { IsPageRead (pause_view self.now) (view helper.new.claimer) helper.new.carried helper.old.place number page }
    {
        let mut address = page_start(page);
        let end = address + PAGE_BYTES;
        while let Some(found) = self.map.next_on_page(page, address) {
            let part = part_between(found, address, end);
            let piece = Piece {
                found,
                first: part.first,
                count: part.count,
            };
            self.read_part(gate, helper, piece, number);
            address = part.stop;
        }
    }

    // Reads the words of the object of a block that begins at a granule that was marked before the helpers started, if one
    // does.
    #[inline]
    fn read_at<G: Gate>(&self, gate: &G, helper: &mut Helper, dirty: DirtyBlock, granule: usize)
        requires serving { IsServing (pause_view self.now) helper.old }
        requires inside { dirty.page < length self.now.map.now }
        requires cut { state_at self.now.map.now dirty.page ≡ cut dirty.block.now }
        requires normal { dirty.block.now.kind ≡ Normal }
        requires on { (PAGE_GRANULES * dirty.page ≤ granule) × (granule < PAGE_GRANULES * (dirty.page + 1)) }
        requires marked { Has self.now.marker.now.marks granule }
        ensures serves { GoesOnServing (pause_view self.now) helper.old helper.new }
        ensures read { (number : ℕ) → AreObjectsRead (pause_view self.now) (view helper.new.claimer) helper.new.carried helper.old.place number granule (granule + 1) }
    {
        let base = FIRST_ADDRESS + GRANULE_BYTES * granule as u64;
        let Some(found) = object_from(dirty.page, dirty.block, base) else {
            return;
        };
        // The block's objects end on its page, so that all their words are read as one run.
        let whole = Piece {
            found,
            first: 0,
            count: u64::from(found.len),
        };
        self.read_run(gate, helper, whole);
    }

    // Reads the words of the objects of a block that begin at the 64 granules from 64 j on, were marked before the helpers
    // started and are the helper's to read.
    fn read_marked<G: Gate>(&self, gate: &G, helper: &mut Helper, dirty: DirtyBlock, j: usize)
        requires serving { IsServing (pause_view self.now) helper.old }
        requires inside { dirty.page < length self.now.map.now }
        requires cut { state_at self.now.map.now dirty.page ≡ cut dirty.block.now }
        requires normal { dirty.block.now.kind ≡ Normal }
        requires on { (PAGE_GRANULES * dirty.page ≤ 64 * j) × (64 * (j + 1) ≤ PAGE_GRANULES * (dirty.page + 1)) }
        requires few { dirty.number ≤ MOST_PAGES }
        ensures serves { GoesOnServing (pause_view self.now) helper.old helper.new }
        ensures read { AreObjectsRead (pause_view self.now) (view helper.new.claimer) helper.new.carried helper.old.place dirty.entry.number (64 * j) (64 * (j + 1)) }
    {
        let own = self.own_marks(helper, j, dirty.number);
        let mut rest = own;
        while rest != 0 {
            let granule = 64 * j + rest.trailing_zeros() as usize;
            self.read_at(gate, helper, dirty, granule);
            rest &= rest - 1;
        }
    }

    // Reads the words on a page that is cut of all objects that were marked Normal ones before the helpers started.
    fn read_cells<G: Gate>(&self, gate: &G, helper: &mut Helper, dirty: DirtyBlock)
        requires serving { IsServing (pause_view self.now) helper.old }
        requires inside { dirty.page < length self.now.map.now }
        requires cut { state_at self.now.map.now dirty.page ≡ cut dirty.block.now }
        requires few { dirty.number ≤ MOST_PAGES }
        ensures serves { GoesOnServing (pause_view self.now) helper.old helper.new }
        ensures read { IsPageRead (pause_view self.now) (view helper.new.claimer) helper.new.carried helper.old.place dirty.entry.number dirty.entry.page }
    {
        if dirty.block.kind() == Kind::PointerFree {
            return;
        }
        let first = MARK_WORDS * dirty.page as usize;
        for j in first..first + MARK_WORDS {
            self.read_marked(gate, helper, dirty, j);
        }
    }

    // Reads the helper's part of the dirty page of a number.
    fn read_page<G: Gate>(&self, gate: &G, helper: &mut Helper, page: PageNo, number: usize)
        requires serving { IsServing (pause_view self.now) helper.old }
        requires inside { page < length self.now.map.now }
        requires few { number ≤ MOST_PAGES }
        ensures serves { GoesOnServing (pause_view self.now) helper.old helper.new }
        ensures read { IsPageRead (pause_view self.now) (view helper.new.claimer) helper.new.carried helper.old.place number page }
    {
        match self.map.block(page) {
            Some(block) => {
                let dirty = DirtyBlock {
                    page,
                    block,
                    number,
                };
                self.read_cells(gate, helper, dirty);
            }
            None => self.read_objects(gate, helper, page, number),
        }
    }

    // Reads the helper's part of a page, if it is dirty. Answers how many dirty ones there are up to it.
    fn read_dirty<G: Gate>(
        &self,
        gate: &G,
        helper: &mut Helper,
        page: PageNo,
        number: usize,
    ) -> usize
        requires serving { IsServing (pause_view self.now) helper.old }
        requires inside { page < length self.now.map.now }
        requires number { number ≡ rank self.now.marker.now.dirty page }
        requires few { number ≤ page }
        ensures serves { GoesOnServing (pause_view self.now) helper.old helper.new }
        ensures read { Has self.now.marker.now.dirty page → IsPageRead (pause_view self.now) (view helper.new.claimer) helper.new.carried helper.old.place number page }
        ensures count { result ≡ rank self.now.marker.now.dirty (page + 1) }
        ensures few { result ≤ page + 1 }
    {
        if !self.marker.dirty_pages().is_dirty(page) {
            return number;
        }
        if self.is_others(helper, number) {
            return number + 1;
        }
        self.read_page(gate, helper, page, number);
        self.make_room(gate, helper);
        number + 1
    }

    /// Reads the helper's part of the dirty pages. Past the used ones there is no object.
    pub(crate) fn read_pages<G: Gate>(&self, gate: &G, helper: &mut Helper)
        requires { IsServing (pause_view self.now) helper.old }
        ensures serves { GoesOnServing (pause_view self.now) helper.old helper.new }
        ensures read { ArePagesRead (pause_view self.now) (view helper.new.claimer) helper.new.carried helper.old.place (length self.now.map.now) }
    {
        let mut number = 0;
        for page in 0..self.map.used() {
            number = self.read_dirty(gate, helper, page, number);
        }
    }
}
