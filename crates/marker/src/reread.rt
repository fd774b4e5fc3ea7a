//! The reading again of a page's marked objects.
ghost use Rattle.std.specs.Prelude.{◌≡◌, ℕ, ◌+◌, ◌*◌, ◌%◌, ◌<◌, ◌≤◌, true, false, length};
ghost use Rattle.words.specs.declared.limits.TheConstants.{FIRST_ADDRESS, PAGE_BYTES, PAGE_GRANULES, PAGE_WORDS, WORD_BYTES};
ghost use Rattle.words.specs.declared.class.Kind.TheVariants.{Normal};
ghost use Rattle.words.specs.Bits.{Has};
ghost use Rattle.words.specs.Layout.{granule, page_start};
ghost use Rattle.block_map.specs.States.{cut, state_at};
ghost use Rattle.block_map.specs.Walks.{IsNextObject};
ghost use Rattle.block_map.specs.FoundIn.{found_in, IsLawful};
ghost use Rattle.marker.specs.Marking.{IsMarked, AreMarksObjects};
ghost use Rattle.marker.specs.Beside.{IsStill};
ghost use Rattle.marker.specs.Retracing.{Rereads, RereadsObjects};

use crate::marker::Marker;
use crate::part::part_between;
use block_map::{BlockMap, Found, object_in_block};
use blocks::Block;
use pages::Reader;
use words::limits::{FIRST_ADDRESS, GRANULE_BYTES, PAGE_BYTES, PAGE_GRANULES, WORD_BYTES};
use words::{Kind, PageNo, page_start};

// The words of 64 mark bits that a page has.
const MARK_WORDS: usize = (PAGE_GRANULES / 64) as usize;

impl Marker {
    // Reads the words of marked Normal objects on a page again, object by object.
    pub(crate) fn reread_objects(
        &mut self,
        map: &BlockMap,
        heap_bytes: u64,
        reader: &mut Reader,
        page: PageNo,
    )
        requires pages { length self.old.dirty ≡ length map.now }
        requires objects { AreMarksObjects (found_in map.now) self.old }
        requires lawful { IsLawful map.now }
        requires bytes { heap_bytes ≡ PAGE_BYTES * length map.now }
        requires memory { length reader.old.words ≡ PAGE_WORDS * length map.now }
        requires inside { page < length map.now }
        requires still { IsStill (found_in map.now) reader.old.words reader.old.moments page }
        ensures rereads { Rereads (found_in map.now) reader.old.words (page_start page) (page_start (page + 1)) self.old self.new }
        ensures words { reader.new.words ≡ reader.old.words }
        ensures moments { reader.new.moments ≡ reader.old.moments }
        ensures reads { reader.new.reads ≤ reader.old.reads + PAGE_WORDS }
        ensures objects { AreMarksObjects (found_in map.now) self.new }
    {
        self.laws();
        let mut address = page_start(page);
        let end = address + PAGE_BYTES;
        while let Some(found) = map.next_on_page(page, address) {
            address = self.reread(map, heap_bytes, reader, found, address, end);
        }
    }

    // Reads the words of marked Normal objects on a page that is cut again: where they begin is told by the page's mark
    // bits, and what they are by its block.
    pub(crate) fn reread_cells(
        &mut self,
        map: &BlockMap,
        heap_bytes: u64,
        reader: &mut Reader,
        page: PageNo,
        block: &Block,
    )
        requires pages { length self.old.dirty ≡ length map.now }
        requires objects { AreMarksObjects (found_in map.now) self.old }
        requires lawful { IsLawful map.now }
        requires bytes { heap_bytes ≡ PAGE_BYTES * length map.now }
        requires memory { length reader.old.words ≡ PAGE_WORDS * length map.now }
        requires inside { page < length map.now }
        requires still { IsStill (found_in map.now) reader.old.words reader.old.moments page }
        requires cut { state_at map.now page ≡ cut block.now }
        ensures rereads { Rereads (found_in map.now) reader.old.words (page_start page) (page_start (page + 1)) self.old self.new }
        ensures words { reader.new.words ≡ reader.old.words }
        ensures moments { reader.new.moments ≡ reader.old.moments }
        ensures reads { reader.new.reads ≤ reader.old.reads + PAGE_WORDS }
        ensures objects { AreMarksObjects (found_in map.now) self.new }
    {
        self.laws();
        if block.kind() == Kind::PointerFree {
            return;
        }
        let first = MARK_WORDS * page as usize;
        for j in first..first + MARK_WORDS {
            self.reread_marked(map, heap_bytes, reader, page, block, j);
        }
    }

    // Reads the words of the objects of a block again that begin at the 64 granules from 64 j on and are marked.
    #[inline(never)]
    fn reread_marked(
        &mut self,
        map: &BlockMap,
        heap_bytes: u64,
        reader: &mut Reader,
        page: PageNo,
        block: &Block,
        j: usize,
    )
        requires pages { length self.old.dirty ≡ length map.now }
        requires objects { AreMarksObjects (found_in map.now) self.old }
        requires lawful { IsLawful map.now }
        requires bytes { heap_bytes ≡ PAGE_BYTES * length map.now }
        requires memory { length reader.old.words ≡ PAGE_WORDS * length map.now }
        requires inside { page < length map.now }
        requires still { IsStill (found_in map.now) reader.old.words reader.old.moments page }
        requires cut { state_at map.now page ≡ cut block.now }
        requires normal { block.now.kind ≡ Normal }
        requires on { (PAGE_GRANULES * page ≤ 64 * j) × (64 * (j + 1) ≤ PAGE_GRANULES * (page + 1)) }
        ensures rereads { RereadsObjects (found_in map.now) reader.old.words self.old (page_start (page + 1)) (64 * j) (64 * (j + 1)) reader.old.reads self.old reader.new.reads self.new }
        ensures words { reader.new.words ≡ reader.old.words }
        ensures moments { reader.new.moments ≡ reader.old.moments }
        ensures objects { AreMarksObjects (found_in map.now) self.new }
    {
        self.laws();
        let marks = self.marks.word(j);
        let mut rest = marks;
        while rest != 0 {
            let granule = 64 * j + rest.trailing_zeros() as usize;
            self.reread_at(map, heap_bytes, reader, page, block, granule);
            rest &= rest - 1;
        }
    }

    // Reads the words of the object of a block again that begins at a marked granule: each mark is that of one.
    #[inline]
    fn reread_at(
        &mut self,
        map: &BlockMap,
        heap_bytes: u64,
        reader: &mut Reader,
        page: PageNo,
        block: &Block,
        granule: usize,
    )
        requires pages { length self.old.dirty ≡ length map.now }
        requires objects { AreMarksObjects (found_in map.now) self.old }
        requires lawful { IsLawful map.now }
        requires bytes { heap_bytes ≡ PAGE_BYTES * length map.now }
        requires memory { length reader.old.words ≡ PAGE_WORDS * length map.now }
        requires inside { page < length map.now }
        requires still { IsStill (found_in map.now) reader.old.words reader.old.moments page }
        requires cut { state_at map.now page ≡ cut block.now }
        requires normal { block.now.kind ≡ Normal }
        requires on { (PAGE_GRANULES * page ≤ granule) × (granule < PAGE_GRANULES * (page + 1)) }
        requires marked { Has self.old.marks granule }
        ensures rereads { RereadsObjects (found_in map.now) reader.old.words self.old (page_start (page + 1)) granule (granule + 1) reader.old.reads self.old reader.new.reads self.new }
        ensures words { reader.new.words ≡ reader.old.words }
        ensures moments { reader.new.moments ≡ reader.old.moments }
        ensures objects { AreMarksObjects (found_in map.now) self.new }
    {
        self.laws();
        let base = FIRST_ADDRESS + GRANULE_BYTES * granule as u64;
        let found = object_in_block(page, block, base);
        // The block's objects end on its page, so that all their words are read, and the number of them is the block's.
        self.mark_object(map, heap_bytes, reader, found.base, found.len, false);
    }

    // Whether an object's words are read: it is a marked Normal one.
    fn has_words_to_read(&self, found: Found) -> bool
        requires low { FIRST_ADDRESS ≤ found.base }
        requires inside { granule found.base < length self.now.marks }
        ensures yes { result ≡ true → (found.kind ≡ Normal) × IsMarked self.now found.base }
        ensures no { result ≡ false → found.kind ≡ Normal → IsMarked self.now found.base → ⊥ }
    {
        found.kind == Kind::Normal && self.is_marked(found.base)
    }

    // Reads the words of the next object again that stand between two addresses, if it is a marked Normal one.
    // Answers the first address past them.
    fn reread(
        &mut self,
        map: &BlockMap,
        heap_bytes: u64,
        reader: &mut Reader,
        found: Found,
        low: u64,
        high: u64,
    ) -> u64
        requires pages { length self.old.dirty ≡ length map.now }
        requires objects { AreMarksObjects (found_in map.now) self.old }
        requires lawful { IsLawful map.now }
        requires bytes { heap_bytes ≡ PAGE_BYTES * length map.now }
        requires memory { length reader.old.words ≡ PAGE_WORDS * length map.now }
        requires next { IsNextObject (found_in map.now) low high found }
        requires low { low % WORD_BYTES ≡ 0 }
        requires high { high % WORD_BYTES ≡ 0 }
        requires one_page { (page : ℕ) × (page_start page ≤ low) × (high ≤ page_start (page + 1)) × IsStill (found_in map.now) reader.old.words reader.old.moments page }
        ensures rereads { Rereads (found_in map.now) reader.old.words low result self.old self.new }
        ensures further { low < result }
        ensures inside { result ≤ found.base + WORD_BYTES * found.len }
        ensures within { result ≤ high }
        ensures aligned { result % WORD_BYTES ≡ 0 }
        ensures words { reader.new.words ≡ reader.old.words }
        ensures moments { reader.new.moments ≡ reader.old.moments }
        ensures reads { WORD_BYTES * reader.new.reads + low ≤ WORD_BYTES * reader.old.reads + result }
        ensures objects { AreMarksObjects (found_in map.now) self.new }
    {
        self.laws();
        let part = part_between(found, low, high);
        if !self.has_words_to_read(found) {
            return part.stop;
        }
        self.mark_words(
            map, heap_bytes, reader, found.base, part.first, part.count, false,
        );
        part.stop
    }
}
