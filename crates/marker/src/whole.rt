//! Objects that are read whole, one after the other. Most are small and their entries were pushed in the same step, so that
//! a step spends its time here.
ghost use Rattle.std.specs.Prelude.{◌≡◌, ℕ, ◌+◌, ◌-◌, ◌*◌, ◌%◌, ◌<◌, ◌≤◌, ◌++◌, ◌∷◌, [], List, length, true, IfSome};
ghost use Rattle.words.specs.declared.limits.TheConstants.{MARK_STACK_ENTRIES, PAGE_BYTES, PAGE_WORDS, WORD_BYTES};
ghost use Rattle.block_map.specs.FoundIn.{found_in, IsLawful};
ghost use Rattle.marker.specs.Marking.{AreMarksObjects};
ghost use Rattle.marker.specs.declared.entry.Entry.{Entry};
ghost use Rattle.marker.specs.Entries.{IsOnTop, AreUnreadFrom, TakesWhole};

use crate::entry::Entry;
use crate::marker::Marker;
use crate::stack::ENTRIES;
use block_map::BlockMap;
use pages::Reader;
use words::limits::{PAGE_BYTES, WORD_BYTES};

// Objects are begun together where so many wait that are known to have words. Where fewer do, as along a list, that would cost more than it
// saves.
const WIDE: usize = 16;

// Where more wait, objects are read one by one, which needs less of the stack.
const CROWDED: usize = ENTRIES - ENTRIES / 8;

// Whether so many words from a base on stand on one page.
#[inline]
fn is_on_page(base: u64, len: u32) -> bool
    ensures { result ≡ true → base % PAGE_BYTES + WORD_BYTES * len ≤ PAGE_BYTES }
{
    base % PAGE_BYTES + WORD_BYTES * u64::from(len) <= PAGE_BYTES
}

impl Marker {
    // The entry on top of the stack, which is known to have words, if these stand on one page. Its object isn't looked up: the entry says
    // how long it is.
    #[inline(always)]
    pub(crate) fn top(&self, map: &BlockMap, known: usize) -> Option<Entry>
        requires unread { AreUnreadFrom (found_in map.now) self.now known self.now.stack }
        requires known { known < length self.now.stack }
        ensures top { IfSome result (λ e. IsOnTop (length map.now) (found_in map.now) self.now e) }
        ensures some { IfSome result (λ e. 0 < e.len) }
    {
        let waiting = self.waiting();
        let entry = waiting[waiting.len() - 1];
        self.laws();
        map.laws();
        if !is_on_page(entry.base, entry.len) {
            return None;
        }
        Some(entry)
    }

    // Takes the entry on top off the stack.
    #[inline]
    pub(crate) fn drop_top(&mut self)
        ensures marks { self.new.marks ≡ self.old.marks }
        ensures dirty { self.new.dirty ≡ self.old.dirty }
        ensures carried { self.new.carried ≡ self.old.carried }
        ensures current { self.new.current ≡ self.old.current }
        ensures stack { (below : List Entry) (e : Entry) → self.old.stack ≡ below ++ e ∷ [] → self.new.stack ≡ below }
    {
        self.stack.pop();
    }

    // Takes the entry on top off the stack, and reads all words of its object.
    #[inline(always)]
    fn read_whole(&mut self, map: &BlockMap, heap_bytes: u64, reader: &mut Reader, entry: Entry)
        requires pages { length self.old.dirty ≡ length map.now }
        requires objects { AreMarksObjects (found_in map.now) self.old }
        requires lawful { IsLawful map.now }
        requires bytes { heap_bytes ≡ PAGE_BYTES * length map.now }
        requires top { IsOnTop (length map.now) (found_in map.now) self.old entry }
        requires memory { length reader.old.words ≡ PAGE_WORDS * length map.now }
        ensures takes { TakesWhole (found_in map.now) reader.old.moments self.old entry.len self.new }
        ensures known { (n : ℕ) → AreUnreadFrom (found_in map.now) self.old n self.old.stack → AreUnreadFrom (found_in map.now) self.new n self.new.stack }
        ensures words { reader.new.words ≡ reader.old.words }
        ensures moments { reader.new.moments ≡ reader.old.moments }
        ensures reads { reader.new.reads ≡ reader.old.reads + entry.len }
        ensures objects { AreMarksObjects (found_in map.now) self.new }
    {
        self.laws();
        self.drop_top();
        self.mark_object(map, heap_bytes, reader, entry.base, entry.len, true);
    }

    // Reads the object of the entry on top of the stack whole, which is known to have words, if they stand on one page and are as many at
    // most as are left to read. Answers whether it did, which a compiler then knows without a look at the number.
    #[inline(always)]
    fn read_top(
        &mut self,
        map: &BlockMap,
        heap_bytes: u64,
        reader: &mut Reader,
        known: usize,
        left: &mut u64,
    ) -> bool
        requires pages { length self.old.dirty ≡ length map.now }
        requires objects { AreMarksObjects (found_in map.now) self.old }
        requires lawful { IsLawful map.now }
        requires bytes { heap_bytes ≡ PAGE_BYTES * length map.now }
        requires memory { length reader.old.words ≡ PAGE_WORDS * length map.now }
        requires known { AreUnreadFrom (found_in map.now) self.old known self.old.stack }
        requires some { known < length self.old.stack }
        ensures takes { TakesWhole (found_in map.now) reader.old.moments self.old (left.old - left.new) self.new }
        ensures known { AreUnreadFrom (found_in map.now) self.new known self.new.stack }
        ensures less { left.new ≤ left.old }
        ensures some { result ≡ true → left.new < left.old }
        ensures words { reader.new.words ≡ reader.old.words }
        ensures moments { reader.new.moments ≡ reader.old.moments }
        ensures reads { reader.new.reads + left.new ≡ reader.old.reads + left.old }
        ensures objects { AreMarksObjects (found_in map.now) self.new }
    {
        let Some(entry) = self.top(map, known) else {
            return false;
        };
        if u64::from(entry.len) > *left {
            return false;
        }
        let depth = self.depth();
        self.read_whole(map, heap_bytes, reader, entry);
        self.bring_nearer(depth, entry.base);
        *left -= u64::from(entry.len);
        true
    }

    // The same where not so few wait: several objects are begun together where there is room for what they may lead to, and none where
    // none is known. Answers how many words were read. It is no part of its caller, whose loop is for few.
    #[inline(never)]
    fn read_many(
        &mut self,
        map: &BlockMap,
        heap_bytes: u64,
        reader: &mut Reader,
        known: usize,
        most: u64,
    ) -> u64
        requires pages { length self.old.dirty ≡ length map.now }
        requires objects { AreMarksObjects (found_in map.now) self.old }
        requires lawful { IsLawful map.now }
        requires bytes { heap_bytes ≡ PAGE_BYTES * length map.now }
        requires memory { length reader.old.words ≡ PAGE_WORDS * length map.now }
        requires known { AreUnreadFrom (found_in map.now) self.old known self.old.stack }
        ensures takes { TakesWhole (found_in map.now) reader.old.moments self.old result self.new }
        ensures known { AreUnreadFrom (found_in map.now) self.new known self.new.stack }
        ensures most { result ≤ most }
        ensures words { reader.new.words ≡ reader.old.words }
        ensures moments { reader.new.moments ≡ reader.old.moments }
        ensures reads { reader.new.reads ≡ reader.old.reads + result }
        ensures objects { AreMarksObjects (found_in map.now) self.new }
    {
        let depth = self.depth();
        if depth <= known {
            return 0;
        }
        if depth <= CROWDED {
            return self.read_together(map, heap_bytes, reader, known, most);
        }
        let mut left = most;
        self.read_top(map, heap_bytes, reader, known, &mut left);
        most - left
    }

    // Reads some objects whole: several together where so many wait, and else the one on top of the stack. Answers whether there was
    // one that can be read at once.
    #[inline(always)]
    fn read_some(
        &mut self,
        map: &BlockMap,
        heap_bytes: u64,
        reader: &mut Reader,
        known: usize,
        left: &mut u64,
    ) -> bool
        requires pages { length self.old.dirty ≡ length map.now }
        requires objects { AreMarksObjects (found_in map.now) self.old }
        requires lawful { IsLawful map.now }
        requires bytes { heap_bytes ≡ PAGE_BYTES * length map.now }
        requires few { known ≤ MARK_STACK_ENTRIES }
        requires memory { length reader.old.words ≡ PAGE_WORDS * length map.now }
        requires known { AreUnreadFrom (found_in map.now) self.old known self.old.stack }
        ensures takes { TakesWhole (found_in map.now) reader.old.moments self.old (left.old - left.new) self.new }
        ensures known { AreUnreadFrom (found_in map.now) self.new known self.new.stack }
        ensures less { left.new ≤ left.old }
        ensures some { result ≡ true → left.new < left.old }
        ensures words { reader.new.words ≡ reader.old.words }
        ensures moments { reader.new.moments ≡ reader.old.moments }
        ensures reads { reader.new.reads + left.new ≡ reader.old.reads + left.old }
        ensures objects { AreMarksObjects (found_in map.now) self.new }
    {
        // Whether one is known at least and fewer than `WIDE`, by one test.
        if self.depth().wrapping_sub(known + 1) < WIDE - 1 {
            return self.read_top(map, heap_bytes, reader, known, left);
        }
        if self.depth() > known && self.is_near() {
            return self.read_top(map, heap_bytes, reader, known, left);
        }
        let read = self.read_many(map, heap_bytes, reader, known, *left);
        *left -= read;
        read > 0
    }

    // Reads objects whole, at most so many words: those of the entries on top of the stack, while these are known to have
    // words and the next one's can be read at once. The entry that is being read has no word left, and is neither looked at nor
    // written. This is no part of its caller, so that the machine's registers are for this loop alone.
    #[inline(never)]
    pub(crate) fn read_wholes(
        &mut self,
        map: &BlockMap,
        heap_bytes: u64,
        reader: &mut Reader,
        known: usize,
        most: u64,
    ) -> u64
        requires pages { length self.old.dirty ≡ length map.now }
        requires objects { AreMarksObjects (found_in map.now) self.old }
        requires bytes { heap_bytes ≡ PAGE_BYTES * length map.now }
        requires few { known ≤ MARK_STACK_ENTRIES }
        requires memory { length reader.old.words ≡ PAGE_WORDS * length map.now }
        requires known { AreUnreadFrom (found_in map.now) self.old known self.old.stack }
        ensures takes { TakesWhole (found_in map.now) reader.old.moments self.old result self.new }
        ensures known { AreUnreadFrom (found_in map.now) self.new known self.new.stack }
        ensures most { result ≤ most }
        ensures words { reader.new.words ≡ reader.old.words }
        ensures moments { reader.new.moments ≡ reader.old.moments }
        ensures reads { reader.new.reads ≡ reader.old.reads + result }
        ensures objects { AreMarksObjects (found_in map.now) self.new }
    {
        self.laws();
        map.laws();
        let mut left = most;
        while self.read_some(map, heap_bytes, reader, known, &mut left) {}
        most - left
    }
}
