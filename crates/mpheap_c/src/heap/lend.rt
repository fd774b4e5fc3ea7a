// A heap's handle and its core, lent.
ghost use Rattle.std.specs.Prelude.{◌≡◌, Some};
ghost use types.Logic.{sem};
ghost use Rattle.mpheap_c.specs.Handle.{IsOpen};
ghost use Rattle.mpheap_c.specs.HeapFollows.{heap_follows, heap_follows_handle};

use super::Heap;
use crate::handle::Handle;
use heap_core::Core;

impl Heap {
    /// The handle that this struct is: both lie alike in memory and own the same.
    pub fn inside(&mut self) -> &mut Handle<Core>
        ensures* writes_back { sem 𝓛 (heap_follows_handle self.entry result) }
        ensures value { (self.old.at ≡ result.now.at) × (self.old.core ≡ result.now.value) }
    {
        let handle = &raw mut *self as *mut Handle<Core>;
        unsafe { &mut *handle }
    }

    /// The core of an open heap.
    pub fn core(&mut self) -> &mut Core
        requires { IsOpen self.old.core }
        ensures* writes_back { sem 𝓛 (heap_follows self.entry result) }
        ensures value { self.old.core ≡ Some result.now }
    {
        self.inside().value()
    }
}
