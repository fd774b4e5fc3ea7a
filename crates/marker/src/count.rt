//! How many objects of a page are marked.
ghost use Rattle.std.specs.Prelude.{◌≡◌, ◌<◌, length};
ghost use Rattle.mark_bits.specs.Granules.{marks_on};

use crate::marker::Marker;
use words::PageNo;

impl Marker {
    /// How many granules of a page are marked.
    pub fn marks_on(&self, page: PageNo) -> u32
        requires { page < length self.now.dirty }
        ensures { result ≡ marks_on self.now.marks page }
    {
        self.marks.count_on(page)
    }
}
