//! Objects that are begun together: the first word of each is read before one of them is read on. So the processor fetches all of these
//! words at once, where it would wait for those of one object after the other. Nothing else stands between these reads.
ghost use Rattle.std.specs.Prelude.{◌≡◌, ℕ, ◌+◌, ◌*◌, ◌≤◌, ◌++◌, ◌∷◌, [], length, Some, Contains};
ghost use Rattle.words.specs.declared.limits.TheConstants.{MARK_STACK_ENTRIES, PAGE_BYTES, PAGE_WORDS};
ghost use Rattle.words.specs.Layout.{page_of};
ghost use Rattle.pages.specs.Memory.{IsWordAddress};
ghost use Rattle.block_map.specs.declared.found.Found.{Found};
ghost use Rattle.block_map.specs.FoundIn.{found_in, IsLawful};
ghost use Rattle.marker.specs.declared.together.Begun.{Begun as BegunValue};
ghost use Rattle.marker.specs.Marking.{with_stack, word_address, AreMarksObjects};
ghost use Rattle.marker.specs.Beside.{MarksRow};
ghost use Rattle.marker.specs.Entries.{IsOnTop, AreUnreadFrom, TakesWhole};
ghost use Rattle.marker.specs.Begun.{IsBegun, IsSeen, AreBegun, AreFirsts, entry_begun, entries_begun, words_begun};

use crate::entry::Entry;
use crate::marker::Marker;
use crate::stack::ENTRIES;
use arrayvec::ArrayVec;
use block_map::BlockMap;
use pages::Reader;
use words::limits::{PAGE_WORDS, WORD_BYTES};

// So many objects at most are begun together.
pub(crate) const TOGETHER: usize = 16;

/// An object whose entry was taken off the stack: its base, and how many words it has, all of which are to be read.
#[derive(Clone, Copy, Debug, Default)]
pub(crate) struct Begun {
    base: u64,
    len: u32,
}

// The first words of begun objects.
#[inline]
fn read_firsts(reader: &mut Reader, begun: &ArrayVec<Begun, TOGETHER>) -> ArrayVec<u64, TOGETHER>
    requires { (b : BegunValue) → Contains begun.now.items b → IsWordAddress reader.old.words b.base }
    ensures firsts { AreFirsts reader.old.moments begun.now.items result.items }
    ensures words { reader.new.words ≡ reader.old.words }
    ensures moments { reader.new.moments ≡ reader.old.moments }
    ensures reads { reader.new.reads ≡ reader.old.reads + length begun.now.items }
{
    let mut firsts = ArrayVec::new();
    for k in 0..begun.len() {
        firsts.push(reader.read(begun[k].base));
    }
    firsts
}

impl Marker {
    // Takes the entry on top off the stack.
    #[inline]
    fn begin_top(&mut self, map: &BlockMap, entry: Entry) -> Begun
        requires top { IsOnTop (length map.now) (found_in map.now) self.old entry }
        ensures begun { IsBegun (length map.now) (found_in map.now) self.new result }
        ensures len { result.len ≡ entry.len }
        ensures taken { self.old ≡ with_stack self.new (self.new.stack ++ entry_begun result ∷ []) }
    {
        self.drop_top();
        self.last = entry.base;
        Begun {
            base: entry.base,
            len: entry.len,
        }
    }

    // Begins the objects of the entries on top of the stack, while these are known to have words: so many objects, of
    // as many words in all, at most.
    #[inline]
    fn begin_objects(
        &mut self,
        map: &BlockMap,
        known: usize,
        most: u64,
        begun: &mut ArrayVec<Begun, TOGETHER>,
    )
        requires known { AreUnreadFrom (found_in map.now) self.old known self.old.stack }
        requires most { most ≤ PAGE_WORDS }
        requires none { begun.old.items ≡ [] }
        ensures begun { AreBegun (length map.now) (found_in map.now) self.new begun.new.items }
        ensures taken { self.old ≡ with_stack self.new (self.new.stack ++ entries_begun begun.new.items) }
        ensures known { AreUnreadFrom (found_in map.now) self.new known self.new.stack }
        ensures most { words_begun begun.new.items ≤ most }
    {
        let mut left = most;
        for _ in 0..TOGETHER {
            if self.depth() <= known {
                return;
            }
            let Some(entry) = self.top(map, known) else {
                return;
            };
            if u64::from(entry.len) > left {
                return;
            }
            left -= u64::from(entry.len);
            begun.push(self.begin_top(map, entry));
        }
    }

    // Marks what the words of a begun object point into, of which the first was read. Its page is carried if one of them is stray.
    #[inline]
    fn mark_begun(
        &mut self,
        map: &BlockMap,
        heap_bytes: u64,
        reader: &mut Reader,
        begun: Begun,
        first: u64,
    )
        requires pages { length self.old.dirty ≡ length map.now }
        requires objects { AreMarksObjects (found_in map.now) self.old }
        requires lawful { IsLawful map.now }
        requires bytes { heap_bytes ≡ PAGE_BYTES * length map.now }
        requires memory { length reader.old.words ≡ PAGE_WORDS * length map.now }
        requires begun { IsBegun (length map.now) (found_in map.now) self.old begun }
        requires first { IsSeen reader.old.moments begun.base first }
        ensures row { (f : Found) → found_in map.now begun.base ≡ Some f → f.base ≡ begun.base → MarksRow (found_in map.now) reader.old.moments f 0 f.len (PAGE_BYTES * length map.now) (page_of (word_address f 0)) self.old self.new }
        ensures words { reader.new.words ≡ reader.old.words }
        ensures moments { reader.new.moments ≡ reader.old.moments }
        ensures reads { reader.new.reads + 1 ≡ reader.old.reads + begun.len }
        ensures objects { AreMarksObjects (found_in map.now) self.new }
    {
        self.laws();
        reader.laws();
        let others = u64::from(begun.len) - 1;
        let is_stray = self.mark_word(map, heap_bytes, first, false);
        let words = reader.read_run(begun.base + WORD_BYTES, others);
        let rest = self.mark_all(map, heap_bytes, words, false);
        if is_stray | rest {
            self.carry(begun.base);
        }
    }

    // Reads begun objects to their ends, of which the first words were read, where the stack has room for all that they may lead to.
    // Answers how many words they have.
    #[inline]
    fn finish_objects(
        &mut self,
        map: &BlockMap,
        heap_bytes: u64,
        reader: &mut Reader,
        begun: &ArrayVec<Begun, TOGETHER>,
        firsts: &ArrayVec<u64, TOGETHER>,
    ) -> u64
        requires pages { length self.old.dirty ≡ length map.now }
        requires objects { AreMarksObjects (found_in map.now) self.old }
        requires lawful { IsLawful map.now }
        requires bytes { heap_bytes ≡ PAGE_BYTES * length map.now }
        requires memory { length reader.old.words ≡ PAGE_WORDS * length map.now }
        requires begun { AreBegun (length map.now) (found_in map.now) self.old begun.now.items }
        requires firsts { AreFirsts reader.old.moments begun.now.items firsts.now.items }
        requires room { length self.old.stack + length begun.now.items + words_begun begun.now.items ≤ MARK_STACK_ENTRIES }
        ensures takes { TakesWhole (found_in map.now) reader.old.moments (with_stack self.old (self.old.stack ++ entries_begun begun.now.items)) result self.new }
        ensures known { (n : ℕ) → AreUnreadFrom (found_in map.now) self.old n self.old.stack → AreUnreadFrom (found_in map.now) self.new n self.new.stack }
        ensures all { result ≡ words_begun begun.now.items }
        ensures words { reader.new.words ≡ reader.old.words }
        ensures moments { reader.new.moments ≡ reader.old.moments }
        ensures reads { reader.new.reads + length begun.now.items ≡ reader.old.reads + result }
        ensures objects { AreMarksObjects (found_in map.now) self.new }
    {
        self.laws();
        let mut read = 0;
        for k in 0..begun.len() {
            let one = begun[k];
            self.mark_begun(map, heap_bytes, reader, one, firsts[k]);
            read += u64::from(one.len);
        }
        read
    }

    // Reads objects whole that are begun together: those of the entries on top of the stack, while these are known to have
    // words, at most so many words, and only as many as the stack has room for what they may lead to. Answers how many words. It is
    // no part of its caller, which has lists to follow that have one entry.
    #[inline(never)]
    pub(crate) fn read_together(
        &mut self,
        map: &BlockMap,
        heap_bytes: u64,
        reader: &mut Reader,
        known: usize,
        most: u64,
    ) -> u64
        requires pages { length self.old.dirty ≡ length map.now }
        requires objects { AreMarksObjects (found_in map.now) self.old }
        requires lawful { IsLawful map.now }
        requires bytes { heap_bytes ≡ PAGE_BYTES * length map.now }
        requires memory { length reader.old.words ≡ PAGE_WORDS * length map.now }
        requires known { AreUnreadFrom (found_in map.now) self.old known self.old.stack }
        ensures takes { TakesWhole (found_in map.now) reader.old.moments self.old result self.new }
        ensures known { AreUnreadFrom (found_in map.now) self.new known self.new.stack }
        ensures most { result ≤ most }
        ensures words { reader.new.words ≡ reader.old.words }
        ensures moments { reader.new.moments ≡ reader.old.moments }
        ensures reads { reader.new.reads ≡ reader.old.reads + result }
        ensures objects { AreMarksObjects (found_in map.now) self.new }
    {
        self.laws();
        let room = (ENTRIES - self.depth()) as u64;
        let mut begun = ArrayVec::new();
        self.begin_objects(map, known, most.min(PAGE_WORDS).min(room), &mut begun);
        let firsts = read_firsts(reader, &begun);
        self.finish_objects(map, heap_bytes, reader, &begun, &firsts)
    }
}
