//! The reading again of dirty pages.
ghost use Rattle.std.specs.Prelude.{◌≡◌, ℕ, ◌+◌, ◌*◌, ◌≤◌, [], true, false, length, slice_set, MatchOption, IfNone};
ghost use Rattle.words.specs.declared.limits.TheConstants.{PAGE_WORDS};
ghost use Rattle.words.specs.Bits.{Has, IsFirstFrom};
ghost use Rattle.block_map.specs.FoundIn.{found_in};
ghost use Rattle.marker.specs.Marking.{IsClean, with_dirty, AreMarksObjects};
ghost use Rattle.marker.specs.Growth.{Traces};
ghost use Rattle.marker.specs.Beside.{AreBeside, IsStill, TracesIn};
ghost use Rattle.marker.specs.Retracing.{Retraces, RetracesLowest};

use crate::marker::{Marker, heap_bytes};
use block_map::BlockMap;
use pages::Reader;
use words::PageNo;

impl Marker {
    /// Reads the words of marked Normal objects on the lowest dirty page again.
    pub fn retrace(&mut self, map: &BlockMap, reader: &mut Reader) -> Option<PageNo>
        requires pages { length self.old.dirty ≡ length map.now }
        requires objects { AreMarksObjects (found_in map.now) self.old }
        requires memory { length reader.old.words ≡ PAGE_WORDS * length map.now }
        requires still { (p : ℕ) → IsFirstFrom self.old.dirty 0 p → IsStill (found_in map.now) reader.old.words reader.old.moments p }
        ensures page { MatchOption result (IsClean self.old × (self.new ≡ self.old)) (λ p. RetracesLowest (found_in map.now) reader.old.words p self.old self.new) }
        ensures beside { AreBeside (found_in map.now) self.old.dirty reader.old.moments → TracesIn (found_in map.now) reader.old.moments self.old self.new }
        ensures traces { Traces (found_in map.now) reader.old.words [] self.old self.new }
        ensures words { reader.new.words ≡ reader.old.words }
        ensures moments { reader.new.moments ≡ reader.old.moments }
        ensures reads { reader.new.reads ≤ reader.old.reads + PAGE_WORDS }
        ensures none { IfNone result (reader.new.reads ≡ reader.old.reads) }
        ensures objects { AreMarksObjects (found_in map.now) self.new }
    {
        let page = self.first_dirty()?;
        self.reread_page(map, reader, page);
        Some(page)
    }

    /// Reads the words of marked Normal objects on this page again, if it is dirty, and answers whether it was. A page that the heap
    /// hasn't isn't dirty.
    pub fn retrace_page(&mut self, map: &BlockMap, reader: &mut Reader, page: PageNo) -> bool
        requires pages { length self.old.dirty ≡ length map.now }
        requires objects { AreMarksObjects (found_in map.now) self.old }
        requires memory { length reader.old.words ≡ PAGE_WORDS * length map.now }
        requires still { Has self.old.dirty page → IsStill (found_in map.now) reader.old.words reader.old.moments page }
        ensures page { result ≡ true → Retraces (found_in map.now) reader.old.words page self.old self.new }
        ensures clean { result ≡ false → (Has self.old.dirty page → ⊥) × (self.new ≡ self.old) }
        ensures beside { AreBeside (found_in map.now) self.old.dirty reader.old.moments → TracesIn (found_in map.now) reader.old.moments self.old self.new }
        ensures traces { Traces (found_in map.now) reader.old.words [] self.old self.new }
        ensures words { reader.new.words ≡ reader.old.words }
        ensures moments { reader.new.moments ≡ reader.old.moments }
        ensures reads { reader.new.reads ≤ reader.old.reads + PAGE_WORDS }
        ensures none { result ≡ false → reader.new.reads ≡ reader.old.reads }
        ensures objects { AreMarksObjects (found_in map.now) self.new }
    {
        if !self.is_dirty(map, page) {
            return false;
        }
        self.reread_page(map, reader, page);
        true
    }

    // The lowest dirty page.
    fn first_dirty(&self) -> Option<PageNo>
        ensures first { MatchOption result (IsClean self.now) (λ p. IsFirstFrom self.now.dirty 0 p) }
    {
        self.dirty.first()
    }

    // Whether the heap has this page, and it is dirty.
    fn is_dirty(&self, map: &BlockMap, page: PageNo) -> bool
        requires pages { length self.now.dirty ≡ length map.now }
        ensures yes { result ≡ true → Has self.now.dirty page }
        ensures no { result ≡ false → Has self.now.dirty page → ⊥ }
    {
        page < map.len() && self.dirty.is_dirty(page)
    }

    // Makes a page clean.
    fn clean_page(&mut self, page: PageNo)
        requires dirty { Has self.old.dirty page }
        ensures { self.new ≡ with_dirty self.old (slice_set self.old.dirty page false) }
    {
        self.dirty.clear(page);
    }

    // Makes a dirty page clean, and reads the words of marked Normal objects on it again.
    fn reread_page(&mut self, map: &BlockMap, reader: &mut Reader, page: PageNo)
        requires pages { length self.old.dirty ≡ length map.now }
        requires objects { AreMarksObjects (found_in map.now) self.old }
        requires memory { length reader.old.words ≡ PAGE_WORDS * length map.now }
        requires dirty { Has self.old.dirty page }
        requires still { IsStill (found_in map.now) reader.old.words reader.old.moments page }
        ensures page { Retraces (found_in map.now) reader.old.words page self.old self.new }
        ensures beside { AreBeside (found_in map.now) self.old.dirty reader.old.moments → TracesIn (found_in map.now) reader.old.moments self.old self.new }
        ensures traces { Traces (found_in map.now) reader.old.words [] self.old self.new }
        ensures words { reader.new.words ≡ reader.old.words }
        ensures moments { reader.new.moments ≡ reader.old.moments }
        ensures reads { reader.new.reads ≤ reader.old.reads + PAGE_WORDS }
        ensures objects { AreMarksObjects (found_in map.now) self.new }
    {
        self.laws();
        reader.laws();
        self.clean_page(page);
        let heap_bytes = heap_bytes(map);
        match map.block(page) {
            Some(block) => self.reread_cells(map, heap_bytes, reader, page, block),
            None => self.reread_objects(map, heap_bytes, reader, page),
        }
    }
}
