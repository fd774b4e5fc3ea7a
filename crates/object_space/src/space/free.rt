//! How an object goes: its cell is free again, and its page too once it has no object; of a large object all pages are.
ghost use Rattle.std.specs.Prelude.{◌≡◌, Some};
ghost use Rattle.block_map.specs.FoundIn.{found_in, IsLawful};
ghost use Rattle.block_map.specs.States.{state_at, IsCut};
ghost use Rattle.object_space.specs.Sweeps.{Loses};

use super::ObjectSpace;
use block_map::Found;
use words::limits::PAGE_WORDS;

impl ObjectSpace {
    // Frees a cell, and its page with the last one.
    #[inline(always)]
    fn free_cell(&mut self, found: Found)
        requires found { found_in self.old.states found.base ≡ Some found }
        requires lawful { IsLawful self.old.states }
        requires cut { IsCut (state_at self.old.states found.page) }
        ensures { Loses self.old found self.new }
    {
        let page = found.page;
        let left = self.table.map.put(&mut self.memory, page, found.cell);
        if left.is_empty {
            self.table.free_block(page, left.class, left.kind);
            return;
        }
        if self.table.is_pending(page) {
            return;
        }
        if left.was_full {
            self.table.ready.enter(left.class, left.kind, page);
        }
    }

    // Frees all pages of a large object.
    #[inline(never)]
    fn free_large(&mut self, found: Found)
        requires found { found_in self.old.states found.base ≡ Some found }
        requires lawful { IsLawful self.old.states }
        requires uncut { IsCut (state_at self.old.states found.page) → ⊥ }
        ensures { Loses self.old found self.new }
    {
        self.table.map.laws();
        self.table.map.uncut(found.page);
        self.table
            .pool
            .give(found.page, found.len / PAGE_WORDS as u32);
    }

    /// Frees an allocated object.
    #[inline(always)]
    pub fn release(&mut self, found: Found)
        requires found { found_in self.old.states found.base ≡ Some found }
        requires lawful { IsLawful self.old.states }
        ensures { Loses self.old found self.new }
    {
        match self.table.map.block(found.page) {
            Some(_) => self.free_cell(found),
            None => self.free_large(found),
        }
    }
}
