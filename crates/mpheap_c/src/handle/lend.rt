// The value behind a handle, lent.
ghost use Rattle.std.specs.Prelude.{◌≡◌, Some};
ghost use types.Logic.{sem};
ghost use Rattle.mpheap_c.specs.Handle.{IsOpen};
ghost use Rattle.mpheap_c.specs.Follows.{handle_follows};

use super::Handle;

impl<T> Handle<T> {
    /// The value.
    pub fn value(&mut self) -> &mut T
        requires { IsOpen self.old.value }
        ensures* writes_back { sem 𝓛 (handle_follows T.row self.entry result) }
        ensures value { self.old.value ≡ Some result.now }
    {
        let at = self.at;
        unsafe { &mut *at }
    }
}
