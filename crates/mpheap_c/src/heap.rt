//! C's struct of a heap.
ghost use Rattle.std.specs.Prelude.{Option};
ghost use Rattle.heap_core.specs.CoreContents.{CoreContents};
ghost use Rattle.mpheap_c.specs.Heap.{core_owns};

mod lend;

use std::alloc::Global;
use std::marker::Model;

/// A handle to a core. It has fields of its own, since a struct with type parameters can't cross to C.
#[repr(C)]
pub struct Heap {
    pub(crate) at: *mut u8,
    alloc: Global,
    pub ghost core: { Option CoreContents },
}

impl Model for Heap {
    ghost also_owns = { λ h. core_owns h.alloc h.at h.core };
}

unsafe impl Send for Heap {}
