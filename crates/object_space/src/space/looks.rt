//! Which pages are pending, asked page by page.
ghost use Rattle.std.specs.Prelude.{◌≡◌, ◌<◌, length, slice_index_or, false};

use super::ObjectSpace;
use words::PageNo;

impl ObjectSpace {
    /// Whether a page is pending.
    pub fn is_pending(&self, page: PageNo) -> bool
        requires { page < length self.now.states }
        ensures { result ≡ slice_index_or self.now.pending page false }
    {
        self.laws();
        self.table.is_pending(page)
    }
}
