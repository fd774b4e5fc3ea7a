//! What the map keeps of a page.
ghost use Rattle.std.specs.Prelude.{◌≡◌};
ghost use Rattle.std.specs.Borrow.{Lends, sem};
ghost use Rattle.blocks.specs.contracts.block.Block.{the_row as block_row};
ghost use Rattle.block_map.specs.States.{cut, IsCut};

use blocks::{Block, LargeHead};
use words::PageNo;

/// What stands on a page.
#[derive(Drop)]
pub(crate) enum Page {
    /// Nothing.
    Free,

    /// Cells of one class.
    Cut(Block),

    /// A large object begins here.
    Head(LargeHead),

    /// A further page of the large object that begins at that page.
    Body(PageNo),
}

impl Page {
    ghost use Rattle.block_map.specs.Shown.{shown};
    ghost use Rattle.block_map.specs.contracts.page.Page.{the_row};

    /// The block of a page that is cut, lent.
    #[inline(always)]
    pub(crate) fn block_mut(&mut self) -> &mut Block
        requires { IsCut (shown self.old) }
        ensures* lends { sem 𝓛 (Lends the_row block_row self.entry result Page.Cut) }
        ensures block { shown self.old ≡ cut result.now }
    {
        match self {
            Page::Cut(block) => block,
            Page::Free | Page::Head(_) | Page::Body(_) => unreachable!(),
        }
    }
}
