//! The free cells of a page as a list: the first word of each has the number of the next one.
ghost use Rattle.std.specs.Prelude.{◌≡◌, ◌+◌, ◌*◌, ◌/◌, ◌<◌, false, length, replicate};
ghost use Rattle.words.specs.declared.limits.TheConstants.{PAGE_WORDS, MOST_PAGES};
ghost use Rattle.words.specs.Classes.{IsSizeClass};
ghost use Rattle.blocks.specs.Lists.{cell_start, link_of, ChangesPage, HasPage, Lists};

use pages::Memory;
use words::limits::WORD_BYTES;
use words::{Class, PageNo, page_start};

/// What stands in place of a number at the end of a list: no page has so many cells.
pub const LIST_END: u16 = 65_535;

/// What a block has in place of its first free cell as long as no list of them stands.
pub const UNLISTED: u16 = 65_534;

// The first address of a cell.
#[inline]
#[tactic(auto, using(crate::proofs::Lists::cells))]
pub(crate) fn start_of(class: Class, page: PageNo, cell: u16) -> u64
    requires { page < MOST_PAGES }
    ensures { result ≡ cell_start page class cell }
{
    page_start(page) + u64::from(cell) * (WORD_BYTES * u64::from(class.words()))
}

// Makes all cells of a page, so many, a list in their order: the first one is 0.
pub(crate) fn link_all(memory: &mut Memory, class: Class, page: PageNo, cells: u16)
    requires page { page < MOST_PAGES }
    requires has { HasPage memory.old page }
    requires class { IsSizeClass class }
    requires cells { cells ≡ PAGE_WORDS / class }
    ensures lists { Lists (link_of memory.new page class) (replicate cells false) 0 }
    ensures page { ChangesPage memory.old memory.new page }
{
    let mut next = LIST_END;
    let mut cell = cells;
    while cell > 0 {
        cell -= 1;
        memory.write(start_of(class, page, cell), u64::from(next));
        next = cell;
    }
}
