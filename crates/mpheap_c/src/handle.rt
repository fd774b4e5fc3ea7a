//! A handle.
ghost use Rattle.std.specs.Prelude.{◌≡◌, Option, Some, None};
ghost use denote.RawPtr.{null_ptr};
ghost use Rattle.mpheap_c.specs.Handle.{owns_at, IsOpen};

mod lend;
mod parts;

use parts::Parts;
use std::alloc::Global;
use std::marker::Model;
use std::ptr::null_mut;

/// What C keeps of a value that this library allocated: a closed handle owns nothing, and an open one its value.
#[repr(C)]
pub struct Handle<T> {
    pub(crate) at: *mut T,
    alloc: Global,
    pub ghost value: { Option T },
}

impl<T> Model for Handle<T> {
    ghost also_owns = { λ h. owns_at T.row h.alloc h.at h.value };
}

impl<T> Handle<T> {
    /// An open handle.
    pub fn of(value: Box<T>) -> Handle<T>
    where
        T: Drop,
        ensures { result.value ≡ Some value.value }
    {
        Handle::of_parts(Parts::of(value))
    }

    /// The value of an open handle.
    pub fn into_box(self) -> Box<T>
        requires { IsOpen self.value }
        ensures { self.value ≡ Some result.value }
    {
        self.into_parts().into_box()
    }

    /// Frees the value.
    pub fn close(self)
    where
        T: Drop,
        requires { IsOpen self.value }
    {
        drop(self.into_box());
    }

    /// Lets go of a closed handle. An open one can only be closed.
    pub fn let_go(self)
        requires { self.value ≡ None }
    {
        let Handle { at: _, alloc: _ } = self;
    }

    /// A closed handle, which owns nothing. Its address is null.
    pub fn closed(alloc: Global) -> Handle<T>
        ensures { (result.value ≡ None) × (result.at ≡ null_ptr) }
    {
        Handle {
            at: null_mut(),
            alloc,
        }
    }

    fn of_parts(parts: Parts<T, Global>) -> Handle<T>
        ensures { result.value ≡ Some parts.value }
    {
        let Parts { ptr, alloc } = parts;
        Handle { at: ptr, alloc }
    }

    fn into_parts(self) -> Parts<T, Global>
        requires { IsOpen self.value }
        ensures { self.value ≡ Some result.value }
    {
        let Handle { at, alloc } = self;
        Parts { ptr: at, alloc }
    }
}
