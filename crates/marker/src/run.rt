//! The marking of what words in a row point into: roots, and words of an object. Most words lie outside of the heap's
//! range, so that four are tested at a time.
ghost use Rattle.std.specs.Prelude.{◌≡◌, ℕ, ◌+◌, ◌*◌, ◌<◌, ◌≤◌, List, [], ◌∷◌, length, slice_set, true, All};
ghost use Rattle.words.specs.declared.limits.TheConstants.{PAGE_BYTES, PAGE_WORDS};
ghost use Rattle.words.specs.Layout.{page_of};
ghost use Rattle.block_map.specs.declared.found.Found.{Found};
ghost use Rattle.block_map.specs.FoundIn.{found_in, IsLawful};
ghost use Rattle.marker.specs.Marking.{IsOutside, StaysDirty, with_carried, word_address, AreMarksObjects};
ghost use Rattle.marker.specs.Work.{cost};
ghost use Rattle.marker.specs.Invariant.{AreRootsMarked};
ghost use Rattle.marker.specs.Beside.{IsRow, MarksRow};
ghost use Rattle.marker.specs.Growth.{MarksFirst, MarksWords, TellsFirst, TellsStray, Traces};

use crate::marker::{Marker, heap_bytes};
use block_map::BlockMap;
use pages::{Reader, Words};
use words::limits::{FIRST_ADDRESS, WORD_BYTES};
use words::{PageNo, page_of};

// A row of fewer words is read one by one: what four at a time save, these calls would cost again.
const FEW: usize = 16;

// Whether none of four words lies in the heap's range. The least distance from its start tells, by one test.
#[inline]
fn are_outside(heap_bytes: u64, first: u64, second: u64, third: u64, fourth: u64) -> bool
    ensures { result ≡ true → All (IsOutside heap_bytes) (first ∷ second ∷ third ∷ fourth ∷ []) }
{
    let front = (first.wrapping_sub(FIRST_ADDRESS)).min(second.wrapping_sub(FIRST_ADDRESS));
    let back = (third.wrapping_sub(FIRST_ADDRESS)).min(fourth.wrapping_sub(FIRST_ADDRESS));
    front.min(back) >= heap_bytes
}

impl Marker {
    // Marks the objects that four words point into, one of which at least lies in the heap's range. Answers whether one
    // is stray.
    #[inline(never)]
    fn mark_four(
        &mut self,
        map: &BlockMap,
        first: u64,
        second: u64,
        third: u64,
        fourth: u64,
    ) -> bool
        requires pages { length self.old.dirty ≡ length map.now }
        requires objects { AreMarksObjects (found_in map.now) self.old }
        ensures marks { MarksWords (found_in map.now) self.old (first ∷ second ∷ third ∷ fourth ∷ []) self.new }
        ensures stray { TellsStray (found_in map.now) (PAGE_BYTES * length map.now) (first ∷ second ∷ third ∷ fourth ∷ []) result }
        ensures objects { AreMarksObjects (found_in map.now) self.new }
    {
        let bytes = heap_bytes(map);
        let a = self.mark_word(map, bytes, first, false);
        let b = self.mark_word(map, bytes, second, false);
        let c = self.mark_word(map, bytes, third, false);
        let d = self.mark_word(map, bytes, fourth, false);
        a | b | c | d
    }

    // Marks what words point into, four at a time, until fewer are left.
    #[inline]
    fn mark_fours(&mut self, map: &BlockMap, heap_bytes: u64, words: &mut Words) -> bool
        requires pages { length self.old.dirty ≡ length map.now }
        requires objects { AreMarksObjects (found_in map.now) self.old }
        requires lawful { IsLawful map.now }
        requires bytes { heap_bytes ≡ PAGE_BYTES * length map.now }
        ensures marks { MarksFirst (found_in map.now) self.old words.old words.new self.new }
        ensures stray { TellsFirst (found_in map.now) (PAGE_BYTES * length map.now) words.old words.new result }
        ensures objects { AreMarksObjects (found_in map.now) self.new }
    {
        let mut stray = false;
        while let Some((first, second, third, fourth)) = words.next_four() {
            if !are_outside(heap_bytes, first, second, third, fourth) {
                stray |= self.mark_four(map, first, second, third, fourth);
            }
        }
        stray
    }

    // Marks what words point into, one at a time.
    #[inline(always)]
    fn mark_each(&mut self, map: &BlockMap, heap_bytes: u64, words: Words, here: bool) -> bool
        requires pages { length self.old.dirty ≡ length map.now }
        requires objects { AreMarksObjects (found_in map.now) self.old }
        requires lawful { IsLawful map.now }
        requires bytes { heap_bytes ≡ PAGE_BYTES * length map.now }
        ensures marks { MarksWords (found_in map.now) self.old words.entry self.new }
        ensures stray { TellsStray (found_in map.now) (PAGE_BYTES * length map.now) words.entry result }
        ensures objects { AreMarksObjects (found_in map.now) self.new }
    {
        let mut stray = false;
        for word in words {
            if self.mark_word(map, heap_bytes, word, here) {
                stray = true;
            }
        }
        stray
    }

    // Marks what words point into, four at a time and then those that are left.
    #[inline(never)]
    fn mark_many(&mut self, map: &BlockMap, heap_bytes: u64, words: Words) -> bool
        requires pages { length self.old.dirty ≡ length map.now }
        requires objects { AreMarksObjects (found_in map.now) self.old }
        requires lawful { IsLawful map.now }
        requires bytes { heap_bytes ≡ PAGE_BYTES * length map.now }
        ensures marks { MarksWords (found_in map.now) self.old words.entry self.new }
        ensures stray { TellsStray (found_in map.now) (PAGE_BYTES * length map.now) words.entry result }
        ensures objects { AreMarksObjects (found_in map.now) self.new }
    {
        let mut left = words;
        let first = self.mark_fours(map, heap_bytes, &mut left);
        let last = self.mark_each(map, heap_bytes, left, false);
        first | last
    }

    // Marks what words point into, and answers whether one is stray. No mark between two of them can move them, since
    // they lie in a row of their own. The loop over fours stands in no caller, so that one that has few words is no longer
    // for it.
    #[inline(always)]
    pub(crate) fn mark_all(
        &mut self,
        map: &BlockMap,
        heap_bytes: u64,
        words: Words,
        here: bool,
    ) -> bool
        requires pages { length self.old.dirty ≡ length map.now }
        requires objects { AreMarksObjects (found_in map.now) self.old }
        requires lawful { IsLawful map.now }
        requires bytes { heap_bytes ≡ PAGE_BYTES * length map.now }
        ensures marks { MarksWords (found_in map.now) self.old words.entry self.new }
        ensures stray { TellsStray (found_in map.now) (PAGE_BYTES * length map.now) words.entry result }
        ensures objects { AreMarksObjects (found_in map.now) self.new }
    {
        if words.len() < FEW {
            self.mark_each(map, heap_bytes, words, here)
        } else {
            self.mark_many(map, heap_bytes, words)
        }
    }

    // Makes the page of an address carried.
    #[cold]
    #[inline(never)]
    pub(crate) fn carry(&mut self, address: u64)
        requires above { FIRST_ADDRESS ≤ address }
        requires inside { page_of address < length self.old.carried }
        ensures { self.new ≡ with_carried self.old (slice_set self.old.carried (page_of address) true) }
    {
        // Its clauses tell that the pages are few.
        self.laws();
        let page = page_of(address) as PageNo;
        self.carried.set(page);
    }

    // Marks what words of the object with this base point into: so many, from its word `first` on, which stand on one page. The page is
    // carried if one of them is stray.
    #[inline(always)]
    pub(crate) fn mark_words(
        &mut self,
        map: &BlockMap,
        heap_bytes: u64,
        reader: &mut Reader,
        base: u64,
        first: u32,
        count: u64,
        here: bool,
    )
        requires pages { length self.old.dirty ≡ length map.now }
        requires objects { AreMarksObjects (found_in map.now) self.old }
        requires lawful { IsLawful map.now }
        requires bytes { heap_bytes ≡ PAGE_BYTES * length map.now }
        requires memory { length reader.old.words ≡ PAGE_WORDS * length map.now }
        requires row { IsRow (length map.now) base first count }
        ensures row { (f : Found) → f.base ≡ base → MarksRow (found_in map.now) reader.old.moments f first count (PAGE_BYTES * length map.now) (page_of (word_address f first)) self.old self.new }
        ensures words { reader.new.words ≡ reader.old.words }
        ensures moments { reader.new.moments ≡ reader.old.moments }
        ensures counted { reader.new.reads ≡ reader.old.reads + count }
        ensures objects { AreMarksObjects (found_in map.now) self.new }
    {
        self.laws();
        reader.laws();
        let start = base + WORD_BYTES * u64::from(first);
        if self.mark_all(map, heap_bytes, reader.read_run(start, count), here) {
            self.carry(start);
        }
    }

    // Marks what all words of the object with this base point into, which stand on one page: so many. Of two and of four words, as most
    // objects have, a compiler makes no loop.
    #[inline(always)]
    pub(crate) fn mark_object(
        &mut self,
        map: &BlockMap,
        heap_bytes: u64,
        reader: &mut Reader,
        base: u64,
        len: u32,
        here: bool,
    )
        requires pages { length self.old.dirty ≡ length map.now }
        requires objects { AreMarksObjects (found_in map.now) self.old }
        requires lawful { IsLawful map.now }
        requires bytes { heap_bytes ≡ PAGE_BYTES * length map.now }
        requires memory { length reader.old.words ≡ PAGE_WORDS * length map.now }
        requires row { IsRow (length map.now) base 0 len }
        ensures row { (f : Found) → f.base ≡ base → MarksRow (found_in map.now) reader.old.moments f 0 len (PAGE_BYTES * length map.now) (page_of (word_address f 0)) self.old self.new }
        ensures words { reader.new.words ≡ reader.old.words }
        ensures moments { reader.new.moments ≡ reader.old.moments }
        ensures counted { reader.new.reads ≡ reader.old.reads + len }
        ensures objects { AreMarksObjects (found_in map.now) self.new }
    {
        match len {
            2 => self.mark_words(map, heap_bytes, reader, base, 0, 2, here),
            4 => self.mark_words(map, heap_bytes, reader, base, 0, 4, here),
            _ => self.mark_words(map, heap_bytes, reader, base, 0, u64::from(len), here),
        }
    }

    /// Marks the objects that root words point into. Entries stay where they are.
    pub fn scan_roots(&mut self, map: &BlockMap, roots: &[u64])
        requires pages { length self.old.dirty ≡ length map.now }
        requires objects { AreMarksObjects (found_in map.now) self.old }
        ensures marks { MarksWords (found_in map.now) self.old roots.now self.new }
        ensures traces { (words : List ℕ) → Traces (found_in map.now) words roots.now self.old self.new }
        ensures roots { AreRootsMarked (found_in map.now) roots.now self.new }
        ensures dirty { StaysDirty self.old self.new }
        ensures cost { cost (found_in map.now) self.new ≤ cost (found_in map.now) self.old }
        ensures lawful { IsLawful map.now }
        ensures objects { AreMarksObjects (found_in map.now) self.new }
    {
        self.laws();
        let heap_bytes = heap_bytes(map);
        self.mark_all(map, heap_bytes, Words::new(roots), false);
    }
}
