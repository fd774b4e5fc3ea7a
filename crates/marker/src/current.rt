//! The entry that is being read: which it is, and its words.
ghost use Rattle.std.specs.Prelude.{◌≡◌, ◌+◌, ◌*◌, ◌<◌, ◌≤◌, true, false, length, MatchOption, IfSome, Some};
ghost use Rattle.words.specs.declared.limits.TheConstants.{MARK_STACK_ENTRIES, MOST_PAGES, PAGE_BYTES, PAGE_WORDS};
ghost use Rattle.block_map.specs.Objects.{IsPlaced};
ghost use Rattle.block_map.specs.FoundIn.{found_in, IsLawful};
ghost use Rattle.marker.specs.declared.entry.Entry.{Entry};
ghost use Rattle.marker.specs.Marking.{IsEmpty, entries, AreMarksObjects};
ghost use Rattle.marker.specs.Entries.{IsSpent, IsLive, AreUnreadFrom, Settles, ReadsIn, Takes};

use crate::entry::Entry;
use crate::marker::Marker;
use block_map::{BlockMap, Found};
use pages::Reader;
use words::limits::{PAGE_BYTES, WORD_BYTES};

impl Marker {
    // The entry that is being read, unless its number is below `known`. It is the last one.
    #[inline]
    fn known_entry(&self, known: usize) -> Option<Entry>
        ensures entry { (e : Entry) → result ≡ Some e → self.now.current ≡ Some e }
        ensures known { (e : Entry) → result ≡ Some e → known ≤ length self.now.stack }
    {
        if known > self.depth() {
            return None;
        }
        self.current()
    }

    // Drops entries that have no word to read, up to one that has. Those from number `known` on have one, and aren't looked
    // up.
    #[inline]
    pub(crate) fn next(&mut self, map: &BlockMap, known: usize) -> Option<Found>
        requires pages { length self.old.dirty ≡ length map.now }
        requires known { AreUnreadFrom (found_in map.now) self.old known (entries self.old) }
        ensures settles { Settles (found_in map.now) self.old self.new }
        ensures live { MatchOption result (IsEmpty self.new) (λ f. IsLive (found_in map.now) self.new f) }
        ensures placed { IfSome result (λ f. IsPlaced (length map.now) f × (length map.now ≤ MOST_PAGES)) }
    {
        let Some(entry) = self.known_entry(known) else {
            return self.settle(map);
        };
        map.laws();
        Some(map.object_at(entry.base))
    }

    // Drops entries that have no word to read, up to one that has.
    #[inline(never)]
    fn settle(&mut self, map: &BlockMap) -> Option<Found>
        requires pages { length self.old.dirty ≡ length map.now }
        ensures settles { Settles (found_in map.now) self.old self.new }
        ensures live { MatchOption result (IsEmpty self.new) (λ f. IsLive (found_in map.now) self.new f) }
        ensures placed { IfSome result (λ f. IsPlaced (length map.now) f × (length map.now ≤ MOST_PAGES)) }
    {
        loop {
            if let Some(found) = self.live(map) {
                return Some(found);
            }
            if !self.take_entry() {
                return None;
            }
        }
    }

    // Whether the entry that is being read has a word left, and of which object.
    fn live(&self, map: &BlockMap) -> Option<Found>
        requires pages { length self.now.dirty ≡ length map.now }
        ensures live { MatchOption result ((e : Entry) → self.now.current ≡ Some e → IsSpent (found_in map.now) self.now e) (λ f. IsLive (found_in map.now) self.now f) }
        ensures placed { IfSome result (λ f. IsPlaced (length map.now) f × (length map.now ≤ MOST_PAGES)) }
    {
        self.unread(map, self.current?)
    }

    // Takes the next entry to be read.
    fn take_entry(&mut self) -> bool
        ensures marks { self.new.marks ≡ self.old.marks }
        ensures dirty { self.new.dirty ≡ self.old.dirty }
        ensures carried { self.new.carried ≡ self.old.carried }
        ensures taken { self.old.stack ≡ entries self.new }
        ensures fewer { result ≡ true → length self.new.stack + 1 ≡ length self.old.stack }
        ensures none { result ≡ false → IsEmpty self.new }
    {
        self.current = self.stack.pop();
        self.current.is_some()
    }

    // How many words of its object the entry that is being read has left.
    fn left_in(&self, found: Found) -> u64
        requires { (e : Entry) × (self.now.current ≡ Some e) × (e.next ≤ found.len) }
        ensures { (e : Entry) → self.now.current ≡ Some e → e.next + result ≡ found.len }
    {
        let Some(entry) = self.current else {
            unreachable!();
        };
        u64::from(found.len - entry.next)
    }

    // Reads words of the entry that is being read, at most so many, and where it has none left those of whole objects
    // behind it. Answers how many. An entry that has none left is dropped, with no look at its object.
    pub(crate) fn read_off(
        &mut self,
        map: &BlockMap,
        heap_bytes: u64,
        reader: &mut Reader,
        found: Found,
        known: usize,
        most: u64,
    ) -> u64
        requires pages { length self.old.dirty ≡ length map.now }
        requires objects { AreMarksObjects (found_in map.now) self.old }
        requires lawful { IsLawful map.now }
        requires bytes { heap_bytes ≡ PAGE_BYTES * length map.now }
        requires live { IsLive (found_in map.now) self.old found }
        requires placed { IsPlaced (length map.now) found × (length map.now ≤ MOST_PAGES) }
        requires known { AreUnreadFrom (found_in map.now) self.old known self.old.stack }
        requires few { known ≤ MARK_STACK_ENTRIES }
        requires memory { length reader.old.words ≡ PAGE_WORDS * length map.now }
        requires some { 0 < most }
        ensures takes { Takes (found_in map.now) reader.old.moments self.old result self.new }
        ensures known { AreUnreadFrom (found_in map.now) self.new known (entries self.new) }
        ensures some { 0 < result }
        ensures most { result ≤ most }
        ensures words { reader.new.words ≡ reader.old.words }
        ensures moments { reader.new.moments ≡ reader.old.moments }
        ensures reads { reader.new.reads ≡ reader.old.reads + result }
        ensures objects { AreMarksObjects (found_in map.now) self.new }
    {
        self.laws();
        let left = self.left_in(found);
        let mut count = self.read_on(map, heap_bytes, reader, found, most);
        if count == left {
            count += self.read_wholes(map, heap_bytes, reader, known, most - count);
            self.take_entry();
        }
        count
    }

    // Reads words of the entry that is being read, at most so many and none past its page, and answers how many.
    fn read_on(
        &mut self,
        map: &BlockMap,
        heap_bytes: u64,
        reader: &mut Reader,
        found: Found,
        most: u64,
    ) -> u64
        requires pages { length self.old.dirty ≡ length map.now }
        requires objects { AreMarksObjects (found_in map.now) self.old }
        requires lawful { IsLawful map.now }
        requires bytes { heap_bytes ≡ PAGE_BYTES * length map.now }
        requires live { IsLive (found_in map.now) self.old found }
        requires placed { IsPlaced (length map.now) found × (length map.now ≤ MOST_PAGES) }
        requires memory { length reader.old.words ≡ PAGE_WORDS * length map.now }
        requires some { 0 < most }
        ensures read { ReadsIn (found_in map.now) reader.old.moments result self.old self.new }
        ensures some { 0 < result }
        ensures most { result ≤ most }
        ensures words { reader.new.words ≡ reader.old.words }
        ensures moments { reader.new.moments ≡ reader.old.moments }
        ensures reads { reader.new.reads ≡ reader.old.reads + result }
        ensures objects { AreMarksObjects (found_in map.now) self.new }
    {
        let Some(entry) = self.current else {
            unreachable!();
        };
        let address = found.base + WORD_BYTES * u64::from(entry.next);
        let on_page = (PAGE_BYTES - address % PAGE_BYTES) / WORD_BYTES;
        let count = u64::from(found.len - entry.next).min(most).min(on_page);
        self.mark_words(
            map, heap_bytes, reader, found.base, entry.next, count, false,
        );
        self.current = Some(Entry {
            base: entry.base,
            next: entry.next + count as u32,
            len: found.len,
        });
        count
    }
}
