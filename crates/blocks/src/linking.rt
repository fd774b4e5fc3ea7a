//! How the free cells of a page become a list: from the highest to the lowest, a word of the page's granules at a time.
ghost use Rattle.std.specs.Prelude.{◌≡◌, ◌+◌, ◌*◌, ◌/◌, ◌<◌};
ghost use Rattle.words.specs.declared.limits.TheConstants.{GRANULE_WORDS, MOST_PAGES};
ghost use Rattle.blocks.specs.Begins.{first_cell_from};
ghost use Rattle.blocks.specs.Lists.{link_of, ChangesFree, ChangesPage, HasPage, IsFirstOrEnd, IsLinkedFrom, Lists};

use crate::block::Block;
use crate::list::{LIST_END, start_of};
use pages::Memory;
use words::PageNo;

impl Block {
    // Links the free cells that begin at a word of the page's granules before those that are linked already. Answers the first one.
    #[inline]
    #[tactic(auto, using(crate::proofs::Lists::cells))]
    fn link_word(&self, memory: &mut Memory, page: PageNo, j: usize, first: u16) -> u16
        requires page { page < MOST_PAGES }
        requires has { HasPage memory.old page }
        requires word { j < 4 }
        requires linked { IsLinkedFrom (link_of memory.old page self.now.class) self.now.taken (first_cell_from (self.now.class / GRANULE_WORDS) (64 * j + 64)) first }
        ensures linked { IsLinkedFrom (link_of memory.new page self.now.class) self.now.taken (first_cell_from (self.now.class / GRANULE_WORDS) (64 * j)) result }
        ensures changes { ChangesFree memory.old memory.new page self.now.class self.now.taken }
    {
        let free = self.free_word(j);
        let mut next = first;
        let mut rest = free;
        while rest != 0 {
            let bit = 63 - rest.leading_zeros();
            let cell = self.cell_at(64 * j as u32 + bit);
            memory.write(start_of(self.class, page, cell), u64::from(next));
            next = cell;
            rest &= !(1 << bit);
        }
        next
    }

    // Makes the free cells of the page a list in their order. Answers the first one.
    pub(crate) fn link_free(&self, memory: &mut Memory, page: PageNo) -> u16
        requires page { page < MOST_PAGES }
        requires has { HasPage memory.old page }
        ensures lists { Lists (link_of memory.new page self.now.class) self.now.taken result }
        ensures first { IsFirstOrEnd self.now.taken 0 result }
        ensures changes { ChangesFree memory.old memory.new page self.now.class self.now.taken }
        ensures page { ChangesPage memory.old memory.new page }
    {
        // Its clauses tell of its cells.
        let _class = self.class();
        let mut first = LIST_END;
        let mut j = 4;
        while j > 0 {
            j -= 1;
            first = self.link_word(memory, page, j, first);
        }
        first
    }
}
