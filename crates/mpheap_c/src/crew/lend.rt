// A handle of shares and their place, lent.
ghost use Rattle.std.specs.Prelude.{◌≡◌, Some};
ghost use types.Logic.{sem};
ghost use Rattle.mpheap_c.specs.Handle.{IsOpen};
ghost use Rattle.mpheap_c.specs.CrewFollows.{crew_follows, crew_follows_handle};

use super::{Crew, Place};
use crate::handle::Handle;

impl Crew {
    /// The handle that this struct is: both lie alike in memory and own the same.
    pub fn inside(&mut self) -> &mut Handle<Place>
        ensures* writes_back { sem 𝓛 (crew_follows_handle self.entry result) }
        ensures value { (self.old.at ≡ result.now.at) × (self.old.place ≡ result.now.value) }
    {
        let handle = &raw mut *self as *mut Handle<Place>;
        unsafe { &mut *handle }
    }

    /// The place behind an open handle.
    pub fn place(&mut self) -> &mut Place
        requires { IsOpen self.old.place }
        ensures* writes_back { sem 𝓛 (crew_follows self.entry result) }
        ensures value { self.old.place ≡ Some result.now }
    {
        self.inside().value()
    }
}
