//! Where many new objects of a class and kind go in one call: into cells of one page that is cut for them.
ghost use Rattle.std.specs.Prelude.{◌≡◌, ◌+◌, ◌*◌, ℕ, ◌<◌, ◌≤◌, All, Bool, List, length, map, slice_index_or, take};
ghost use Rattle.words.specs.declared.limits.TheConstants.{PAGE_WORDS};
ghost use Rattle.words.specs.Bits.{Has};
ghost use Rattle.block_map.specs.Listed.{IsLinked};
ghost use Rattle.block_map.specs.States.{state_at};
ghost use Rattle.lazy_sweep.specs.AvailableRows.{IsAvailable};
ghost use Rattle.object_space.specs.Many.{AllocatesEach, HasNoneReady, ZeroesEach, base_of};

use super::ObjectSpace;
use pages::Memory;
use words::limits::WORD_BYTES;
use words::{Class, Kind, PageNo, Placement, page_start};

// So many cells at most are taken in one call.
const MOST_CELLS: usize = 32;

// Writes 0 into the words of these cells of a page, and writes down their bases.
fn write_bases(memory: &mut Memory, page: PageNo, class: Class, cells: &[u16], bases: &mut [u64])
    requires page { PAGE_WORDS * page + PAGE_WORDS ≤ length memory.old }
    requires inside { All (λ cell. cell * class + class ≤ PAGE_WORDS) cells.now }
    requires room { length cells.now ≤ length bases.old }
    ensures zeroes { ZeroesEach class memory.old (map (base_of page class) cells.now) memory.new }
    ensures size { length bases.new ≡ length bases.old }
    ensures bases { take (length cells.now) bases.new ≡ map (base_of page class) cells.now }
    ensures rest { (k : ℕ) → length cells.now ≤ k → slice_index_or bases.new k 0 ≡ slice_index_or bases.old k 0 }
{
    let words = class.words();
    for i in 0..cells.len() {
        let base = page_start(page) + u64::from(cells[i]) * (WORD_BYTES * u64::from(words));
        bases[i] = base;
        memory.zero(base, u32::from(words));
    }
}

impl ObjectSpace {
    // Takes cells of a page that has a free one and a list of them.
    fn take_linked(&mut self, page: PageNo, class: Class, kind: Kind, bases: &mut [u64]) -> usize
        requires cell { IsAvailable (state_at self.old.states page) class kind }
        requires linked { IsLinked (state_at self.old.states page) }
        requires swept { Has self.old.pending page → ⊥ }
        ensures size { length bases.new ≡ length bases.old }
        ensures few { result ≤ length bases.new }
        ensures some { 0 < length bases.new → 0 < result }
        ensures allocates { (marks : List Bool) → AllocatesEach marks (Placement.Small class) kind self.old (take result bases.new) self.new }
        ensures rest { (k : ℕ) → result ≤ k → slice_index_or bases.new k 0 ≡ slice_index_or bases.old k 0 }
    {
        self.table.map.laws();
        let mut row = [0u16; MOST_CELLS];
        let cells = &mut row[..bases.len().min(MOST_CELLS)];
        let taken = self.table.map.take_many(&self.memory, page, cells);
        self.table.map.laws();
        write_bases(&mut self.memory, page, class, &cells[..taken.count], bases);
        if taken.is_full {
            self.table.ready.leave(class, kind, page);
        }
        taken.count
    }

    /// Takes places for new objects in the lowest page that has a free cell for them and needs no sweep, as many as that page
    /// and the room for bases have, but at most 32. It writes 0 into their words, and their bases down in the order in
    /// which they came, and answers how many. Where there is room for a base it takes none only if no such page is
    /// ready, or if each is to have pages of its own, and then nothing has changed.
    pub fn allocate_many(&mut self, placement: &Placement, kind: Kind, bases: &mut [u64]) -> usize
        ensures size { length bases.new ≡ length bases.old }
        ensures few { result ≤ length bases.new }
        ensures none { 0 < length bases.new → result ≡ 0 → HasNoneReady self.old placement.now kind }
        ensures allocates { (marks : List Bool) → AllocatesEach marks placement.now kind self.old (take result bases.new) self.new }
        ensures rest { (k : ℕ) → result ≤ k → slice_index_or bases.new k 0 ≡ slice_index_or bases.old k 0 }
    {
        let Placement::Small(class) = placement else {
            return 0;
        };
        if bases.len() == 0 {
            return 0;
        }
        let Some(page) = self.ready_page(*class, kind) else {
            return 0;
        };
        self.take_linked(page, *class, kind, bases)
    }
}
