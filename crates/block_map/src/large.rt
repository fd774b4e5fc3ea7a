//! The large object that begins on a page.
ghost use Rattle.std.specs.Prelude.{◌≡◌, ◌<◌, length};
ghost use Rattle.block_map.specs.FoundIn.{found_large};
ghost use Rattle.block_map.specs.States.{state_at};

use crate::found::Found;
use crate::look::large_at;
use crate::map::BlockMap;
use crate::page::Page;
use words::PageNo;

impl BlockMap {
    /// The large object that begins on a page, and `None` exactly where none does.
    #[tactic(auto, using(crate::proofs::Finding::finding))]
    pub fn large_on(&self, page: PageNo) -> Option<Found>
        requires { page < length self.now }
        ensures { result ≡ found_large page (state_at self.now page) }
    {
        match self.page(page) {
            Page::Free | Page::Cut(_) | Page::Body(_) => None,
            Page::Head(large) => Some(large_at(page, *large)),
        }
    }
}
