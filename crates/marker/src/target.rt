//! The marking of the object that one word points into.
ghost use Rattle.std.specs.Prelude.{◌≡◌, ℕ, ◌+◌, ◌*◌, ◌%◌, ◌<◌, ◌≤◌, [], ◌∷◌, true, false, length, Option, Some};
ghost use Rattle.words.specs.declared.limits.TheConstants.{FIRST_ADDRESS, GRANULE_BYTES, MARK_STACK_ENTRIES, PAGE_BYTES};
ghost use Rattle.words.specs.Bits.{Has};
ghost use Rattle.words.specs.Layout.{granule};
ghost use Rattle.block_map.specs.declared.found.Found.{Found};
ghost use Rattle.block_map.specs.Objects.{IsPlaced};
ghost use Rattle.block_map.specs.FoundIn.{found_in, IsLawful};
ghost use Rattle.marker.specs.Marking.{AreMarksObjects};
ghost use Rattle.marker.specs.Growth.{Awaits, MarksWord, TellsStray};

use crate::entry::Entry;
use crate::marker::Marker;
use crate::spread::dirty_object;
use crate::stack::ENTRIES;
use block_map::{BlockMap, Found};
use words::limits::{FIRST_ADDRESS, GRANULE_BYTES};
use words::{Kind, granule_of};

impl Marker {
    // Marks the object that the word points into. The heap's range is tested here, before the map is asked, and a word that is the
    // base of a marked object has its mark looked at alone. Answers whether the word is stray: it lies in the range and points into
    // no object. Where `here` is true the steps that an unmarked base takes are part of the caller too.
    #[inline(always)]
    pub(crate) fn mark_word(
        &mut self,
        map: &BlockMap,
        heap_bytes: u64,
        word: u64,
        here: bool,
    ) -> bool
        requires pages { length self.old.dirty ≡ length map.now }
        requires objects { AreMarksObjects (found_in map.now) self.old }
        requires lawful { IsLawful map.now }
        requires bytes { heap_bytes ≡ PAGE_BYTES * length map.now }
        ensures marks { MarksWord (found_in map.now) word self.old self.new }
        ensures stray { TellsStray (found_in map.now) (PAGE_BYTES * length map.now) (word ∷ []) result }
        ensures objects { AreMarksObjects (found_in map.now) self.new }
    {
        if word.wrapping_sub(FIRST_ADDRESS) >= heap_bytes {
            return false;
        }
        // Its clauses tell how many pages there are.
        self.laws();
        if self.is_marked_base(word) {
            return false;
        }
        self.mark_unmarked(map, word, here)
    }

    // Marks the object that a word points into which is no marked base. Where `here` is true this is part of the caller.
    #[inline(always)]
    fn mark_unmarked(&mut self, map: &BlockMap, word: u64, here: bool) -> bool
        requires pages { length self.old.dirty ≡ length map.now }
        requires objects { AreMarksObjects (found_in map.now) self.old }
        requires lawful { IsLawful map.now }
        requires inside { (FIRST_ADDRESS ≤ word) × (word < FIRST_ADDRESS + PAGE_BYTES * length map.now) }
        requires unmarked { word % GRANULE_BYTES ≡ 0 → Has self.old.marks (granule word) → ⊥ }
        ensures marks { MarksWord (found_in map.now) word self.old self.new }
        ensures stray { TellsStray (found_in map.now) (PAGE_BYTES * length map.now) (word ∷ []) result }
        ensures objects { AreMarksObjects (found_in map.now) self.new }
    {
        if here {
            self.mark_near(map, word)
        } else {
            self.mark_target(map, word)
        }
    }

    // The same, as a call: most words point into no object, or into objects that are marked, so that the loop over words is to hold the
    // tests for these and not this.
    #[inline(never)]
    fn mark_target(&mut self, map: &BlockMap, word: u64) -> bool
        requires pages { length self.old.dirty ≡ length map.now }
        requires objects { AreMarksObjects (found_in map.now) self.old }
        requires lawful { IsLawful map.now }
        requires inside { (FIRST_ADDRESS ≤ word) × (word < FIRST_ADDRESS + PAGE_BYTES * length map.now) }
        requires unmarked { word % GRANULE_BYTES ≡ 0 → Has self.old.marks (granule word) → ⊥ }
        ensures marks { MarksWord (found_in map.now) word self.old self.new }
        ensures stray { TellsStray (found_in map.now) (PAGE_BYTES * length map.now) (word ∷ []) result }
        ensures objects { AreMarksObjects (found_in map.now) self.new }
    {
        self.mark_near(map, word)
    }

    // The same: of a base in a cell no look-up is needed.
    #[inline(always)]
    fn mark_near(&mut self, map: &BlockMap, word: u64) -> bool
        requires pages { length self.old.dirty ≡ length map.now }
        requires objects { AreMarksObjects (found_in map.now) self.old }
        requires lawful { IsLawful map.now }
        requires inside { (FIRST_ADDRESS ≤ word) × (word < FIRST_ADDRESS + PAGE_BYTES * length map.now) }
        requires unmarked { word % GRANULE_BYTES ≡ 0 → Has self.old.marks (granule word) → ⊥ }
        ensures marks { MarksWord (found_in map.now) word self.old self.new }
        ensures stray { TellsStray (found_in map.now) (PAGE_BYTES * length map.now) (word ∷ []) result }
        ensures objects { AreMarksObjects (found_in map.now) self.new }
    {
        self.laws();
        if word % GRANULE_BYTES == 0 && self.depth() < ENTRIES {
            if let Some(found) = map.base_in_cell(word) {
                self.mark_base(word, found.len, found.kind);
                return false;
            }
        }
        self.mark_other(map, word)
    }

    // The same of what is no base in a cell, or finds the stack full. That such words are rare tells a compiler which of the machine's registers
    // the loop over words is to have. Answers whether the word points into no object. Most pages are cut, so that what is on others is looked
    // up elsewhere, as is what finds the stack full.
    #[cold]
    #[inline(never)]
    fn mark_other(&mut self, map: &BlockMap, word: u64) -> bool
        requires pages { length self.old.dirty ≡ length map.now }
        requires objects { AreMarksObjects (found_in map.now) self.old }
        requires lawful { IsLawful map.now }
        requires inside { (FIRST_ADDRESS ≤ word) × (word < FIRST_ADDRESS + PAGE_BYTES * length map.now) }
        requires unmarked { word % GRANULE_BYTES ≡ 0 → Has self.old.marks (granule word) → ⊥ }
        ensures marks { MarksWord (found_in map.now) word self.old self.new }
        ensures stray { TellsStray (found_in map.now) (PAGE_BYTES * length map.now) (word ∷ []) result }
        ensures objects { AreMarksObjects (found_in map.now) self.new }
    {
        self.laws();
        if self.depth() == ENTRIES {
            return self.mark_elsewhere(map, word);
        }
        let Some(answer) = map.find_in_cell(word) else {
            return self.mark_elsewhere(map, word);
        };
        let Some(found) = answer else {
            return true;
        };
        if found.base != word {
            self.mark_inside(found);
            return false;
        }
        self.mark_base(word, found.len, found.kind);
        false
    }

    // Whether the word is the first address of a marked granule. Each mark is that of an object, which then has its base there.
    #[inline]
    fn is_marked_base(&self, word: u64) -> bool
        requires inside { (FIRST_ADDRESS ≤ word) × (granule word < length self.now.marks) }
        ensures yes { result ≡ true → (word % GRANULE_BYTES ≡ 0) × Has self.now.marks (granule word) }
        ensures no { result ≡ false → word % GRANULE_BYTES ≡ 0 → Has self.now.marks (granule word) → ⊥ }
    {
        word % GRANULE_BYTES == 0 && self.marks.is_set(granule_of(word))
    }

    // The same, wherever the word points.
    #[inline(never)]
    fn mark_elsewhere(&mut self, map: &BlockMap, word: u64) -> bool
        requires pages { length self.old.dirty ≡ length map.now }
        requires objects { AreMarksObjects (found_in map.now) self.old }
        requires inside { (FIRST_ADDRESS ≤ word) × (word < FIRST_ADDRESS + PAGE_BYTES * length map.now) }
        ensures marks { MarksWord (found_in map.now) word self.old self.new }
        ensures stray { TellsStray (found_in map.now) (PAGE_BYTES * length map.now) (word ∷ []) result }
        ensures objects { AreMarksObjects (found_in map.now) self.new }
    {
        let Some(found) = map.find(word) else {
            return true;
        };
        self.mark_found(found);
        false
    }

    // Marks an unmarked object that a word points into, where the stack has room for it.
    #[inline]
    fn mark_base(&mut self, base: u64, len: u32, kind: Kind)
        requires low { FIRST_ADDRESS ≤ base }
        requires inside { granule base < length self.old.marks }
        requires unmarked { Has self.old.marks (granule base) → ⊥ }
        requires room { length self.old.stack < MARK_STACK_ENTRIES }
        ensures { (objects : ℕ → Option Found) (word : ℕ) (f : Found) → objects word ≡ Some f → f.base ≡ base → f.len ≡ len → f.kind ≡ kind → MarksWord objects word self.old self.new }
    {
        self.marks.set(granule_of(base));
        self.await_with_room(base, len, kind);
    }

    // Marks an object that a word points into which isn't its base. It is a call, so that a processor that foresees none goes on with the
    // word as the base, and waits for no look-up.
    #[inline(never)]
    fn mark_inside(&mut self, found: Found)
        requires low { FIRST_ADDRESS ≤ found.base }
        requires inside { granule found.base < length self.old.marks }
        requires room { length self.old.stack < MARK_STACK_ENTRIES }
        ensures { (objects : ℕ → Option Found) (word : ℕ) → objects word ≡ Some found → MarksWord objects word self.old self.new }
    {
        if !self.is_marked(found.base) {
            self.mark_base(found.base, found.len, found.kind);
        }
    }

    // Marks an object that a word points into.
    #[inline]
    fn mark_found(&mut self, found: Found)
        requires placed { IsPlaced (length self.old.dirty) found }
        ensures { (objects : ℕ → Option Found) (word : ℕ) → objects word ≡ Some found → MarksWord objects word self.old self.new }
    {
        let granule = granule_of(found.base);
        if self.marks.is_set(granule) {
            return;
        }
        self.marks.set(granule);
        self.await_words(found);
    }

    // Sees to it that the words of a newly marked object are read.
    #[inline]
    fn await_words(&mut self, found: Found)
        requires placed { IsPlaced (length self.old.dirty) found }
        ensures marks { self.new.marks ≡ self.old.marks }
        ensures carried { self.new.carried ≡ self.old.carried }
        ensures current { self.new.current ≡ self.old.current }
        ensures awaits { Awaits found self.old self.new }
    {
        if !self.stack.is_full() {
            self.await_with_room(found.base, found.len, found.kind);
        } else if found.kind == Kind::Normal {
            dirty_object(&mut self.dirty, found);
        }
    }

    // The same, where the stack has room.
    #[inline]
    fn await_with_room(&mut self, base: u64, len: u32, kind: Kind)
        requires { length self.old.stack < MARK_STACK_ENTRIES }
        ensures marks { self.new.marks ≡ self.old.marks }
        ensures carried { self.new.carried ≡ self.old.carried }
        ensures current { self.new.current ≡ self.old.current }
        ensures awaits { (f : Found) → f.base ≡ base → f.len ≡ len → f.kind ≡ kind → Awaits f self.old self.new }
    {
        if kind == Kind::PointerFree {
            return;
        }
        self.stack.push(Entry { base, next: 0, len });
    }
}
