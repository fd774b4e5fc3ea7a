//! Steps of marking: words of entries are read, at most so many a call.
ghost use Rattle.std.specs.Prelude.{◌≡◌, ◌+◌, ◌*◌, ◌<◌, ◌≤◌, ◌↔◌, [], ◌∷◌, true, false, length, MatchOption, IfSome};
ghost use Rattle.words.specs.declared.limits.TheConstants.{MARK_STACK_ENTRIES, MOST_PAGES, PAGE_WORDS};
ghost use Rattle.block_map.specs.declared.found.Found.{Found};
ghost use Rattle.block_map.specs.Objects.{IsPlaced};
ghost use Rattle.block_map.specs.FoundIn.{found_in};
ghost use Rattle.marker.specs.Marking.{IsEmpty, StaysDirty, AreMarksObjects};
ghost use Rattle.marker.specs.Work.{cost};
ghost use Rattle.marker.specs.Growth.{Traces};
ghost use Rattle.marker.specs.Beside.{AreBeside, TracesIn};
ghost use Rattle.marker.specs.Entries.{IsSpent, IsUnread, IsKnown, IsLive, AreUnreadFrom, Takes, TakesOff};

use crate::entry::Entry;
use crate::marker::{Marker, heap_bytes};
use block_map::{BlockMap, Found};
use pages::Reader;
use words::Kind;

// So many entries at most are looked up before the first of them is read, and one for each `WORDS_A_LOOK` words that may be read.
const LOOKS: u64 = 64;

const WORDS_A_LOOK: u64 = 8;

/// What a call of `step` did.
#[derive(Clone, Copy, Debug)]
pub struct Marked {
    /// The words that were read.
    pub read: u64,

    /// No entry is left. Where one is, the entry that is being read has a word left.
    pub empty: bool,
}

impl Marker {
    /// Reads words of entries, at most so many. The entry that was begun is read to its end before another is begun.
    pub fn step(&mut self, map: &BlockMap, reader: &mut Reader, budget: u64) -> Marked
        requires pages { length self.old.dirty ≡ length map.now }
        requires objects { AreMarksObjects (found_in map.now) self.old }
        requires memory { length reader.old.words ≡ PAGE_WORDS * length map.now }
        ensures takes { Takes (found_in map.now) reader.old.moments self.old result.read self.new }
        ensures beside { AreBeside (found_in map.now) self.old.dirty reader.old.moments → TracesIn (found_in map.now) reader.old.moments self.old self.new }
        ensures traces { reader.old.moments ≡ reader.old.words ∷ [] → Traces (found_in map.now) reader.old.words [] self.old self.new }
        ensures read { result.read ≤ budget }
        ensures empty { (result.empty ≡ true) ↔ IsEmpty self.new }
        ensures live { result.empty ≡ false → (f : Found) × IsLive (found_in map.now) self.new f }
        ensures fewer { result.read < budget → IsEmpty self.new }
        ensures taken { reader.old.moments ≡ reader.old.words ∷ [] → TakesOff (found_in map.now) reader.old.words self.old self.new }
        ensures dirty { StaysDirty self.old self.new }
        ensures cost { cost (found_in map.now) self.new + result.read ≤ cost (found_in map.now) self.old }
        ensures words { reader.new.words ≡ reader.old.words }
        ensures moments { reader.new.moments ≡ reader.old.moments }
        ensures reads { reader.new.reads ≡ reader.old.reads + result.read }
        ensures objects { AreMarksObjects (found_in map.now) self.new }
    {
        self.laws();
        let heap_bytes = heap_bytes(map);
        let mut read = 0;
        // The objects of entries that were there before may be gone, so that none is known.
        let mut known = usize::MAX;
        while let Some(found) = self.next(map, known) {
            if read == budget {
                return Marked { read, empty: false };
            }
            let left = budget - read;
            known = self.look_below(map, known.min(self.depth()), left);
            read += self.read_off(map, heap_bytes, reader, found, known, left);
        }
        Marked { read, empty: true }
    }

    // How many entries wait.
    #[inline]
    pub(crate) fn depth(&self) -> usize
        ensures count { result ≡ length self.now.stack }
        ensures few { result ≤ MARK_STACK_ENTRIES }
    {
        self.stack.len()
    }

    /// The object of which an entry has words left to read, and `None` exactly where it has none.
    #[tactic(auto, using(crate::proofs::MarkWord::marking))]
    pub fn unread(&self, map: &BlockMap, entry: Entry) -> Option<Found>
        requires pages { length self.now.dirty ≡ length map.now }
        ensures object { MatchOption result (IsSpent (found_in map.now) self.now entry) (λ f. IsUnread (found_in map.now) self.now entry f) }
        ensures placed { IfSome result (λ f. IsPlaced (length map.now) f × (length map.now ≤ MOST_PAGES)) }
    {
        self.laws();
        let found = map.find(entry.base)?;
        if found.base != entry.base {
            return None;
        }
        if found.kind == Kind::PointerFree {
            return None;
        }
        if entry.next >= found.len {
            return None;
        }
        if self.is_marked(found.base) {
            Some(found)
        } else {
            None
        }
    }

    // Whether an entry has words left to read, of an object of the length that it says.
    #[inline]
    fn is_known(&self, map: &BlockMap, entry: Entry) -> bool
        requires pages { length self.now.dirty ≡ length map.now }
        ensures { result ≡ true → IsKnown (found_in map.now) self.now entry }
    {
        match self.unread(map, entry) {
            Some(found) => found.len == entry.len,
            None => false,
        }
    }

    // From which number on the entries that wait are known to have a word, and their object the length that they say: from `known` on they
    // are, and of those below some are looked up, fewer where little may be read.
    #[inline(never)]
    fn look_below(&self, map: &BlockMap, known: usize, most: u64) -> usize
        requires pages { length self.now.dirty ≡ length map.now }
        requires known { AreUnreadFrom (found_in map.now) self.now known self.now.stack }
        requires inside { known ≤ length self.now.stack }
        ensures known { AreUnreadFrom (found_in map.now) self.now result self.now.stack }
        ensures lower { result ≤ known }
    {
        let waiting = self.waiting();
        let mut lowest = known;
        for _ in 0..(most / WORDS_A_LOOK).min(LOOKS) {
            if lowest == 0 || !self.is_known(map, waiting[lowest - 1]) {
                return lowest;
            }
            lowest -= 1;
        }
        lowest
    }
}
