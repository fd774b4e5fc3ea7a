//! The pages of a map one by one: what stands on a page, and its objects in their order.
ghost use Rattle.std.specs.Prelude.{◌≡◌, ◌≢◌, ◌+◌, ◌<◌, ◌≤◌, length, MatchOption, MatchBool};
ghost use Rattle.words.specs.declared.limits.TheConstants.{MOST_PAGES};
ghost use Rattle.words.specs.Bits.{IsEmptyFrom};
ghost use Rattle.words.specs.Layout.{page_start, IsOnPage};
ghost use Rattle.block_map.specs.States.{free, cut, state_at, IsCut};
ghost use Rattle.block_map.specs.FoundIn.{found_in, cell_at};
ghost use Rattle.block_map.specs.Walks.{IsNextObject, IsNoObject, IsNextCell};

use crate::found::Found;
use crate::look::{cell_at, large_at};
use crate::map::BlockMap;
use crate::page::Page;
use blocks::Block;
use words::{PageNo, page_start};

impl BlockMap {
    /// Whether nothing stands on a page.
    pub fn is_free(&self, page: PageNo) -> bool
        requires { page < length self.now }
        ensures { MatchBool result (state_at self.now page ≡ free) (state_at self.now page ≢ free) }
    {
        matches!(self.page(page), Page::Free)
    }

    /// The block on a page, and `None` exactly where the page is not cut.
    pub fn block(&self, page: PageNo) -> Option<&Block>
        requires { page < length self.now }
        ensures { MatchOption result (IsCut (state_at self.now page) → ⊥) (λ b. state_at self.now page ≡ cut b.now) }
    {
        match self.page(page) {
            Page::Cut(block) => Some(block),
            Page::Free | Page::Head(_) | Page::Body(_) => None,
        }
    }

    /// The first allocated object that has a word of a page from an address on, be it one that begins before that
    /// address or on an earlier page. `None` exactly where none has.
    #[inline(always)]
    #[tactic(auto, using(crate::proofs::Walking::walking, crate::proofs::Finding::head_few))]
    pub fn next_on_page(&self, page: PageNo, from: u64) -> Option<Found>
        requires inside { page < length self.now }
        requires from { page_start page ≤ from }
        ensures { MatchOption result (IsNoObject (found_in self.now) from (page_start (page + 1))) (λ f. IsNextObject (found_in self.now) from (page_start (page + 1)) f) }
    {
        let what = self.page(page);
        if from >= page_start(page + 1) {
            return None;
        }
        match what {
            Page::Free => None,
            Page::Cut(block) => next_in_block(page, block, from),
            Page::Head(large) => Some(large_at(page, *large)),
            Page::Body(first) => Some(self.large(*first)),
        }
    }
}

// The object in the first allocated cell of a block from the one on that has the address.
#[inline(always)]
#[tactic(auto, using(crate::proofs::Walking::cells))]
fn next_in_block(page: PageNo, block: &Block, from: u64) -> Option<Found>
    requires page { page < MOST_PAGES }
    requires from { IsOnPage page from }
    ensures { MatchOption result (IsEmptyFrom block.now.taken (cell_at block.now from)) (λ f. IsNextCell page block.now from f) }
{
    let Some(cell) = block.cell_of(from) else {
        return None;
    };
    let Some(next) = block.next_taken(cell) else {
        return None;
    };
    Some(cell_at(page, block, next))
}
