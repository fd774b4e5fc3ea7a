//! C's struct of shares of a round.
ghost use Rattle.std.specs.Prelude.{Option};
ghost use Rattle.mpheap_c.specs.declared.crew.Place.{Place as PlaceValue};
ghost use Rattle.mpheap_c.specs.Crew.{place_owns};

mod lend;

use heap_core::Shares;
use std::alloc::Global;
use std::marker::Model;

/// Where shares stand, or none.
#[derive(Drop)]
pub struct Place {
    pub shares: Option<Shares>,
}

/// A handle to such a place.
#[repr(C)]
pub struct Crew {
    pub(crate) at: *mut u8,
    alloc: Global,
    pub ghost place: { Option PlaceValue },
}

impl Model for Crew {
    ghost also_owns = { λ h. place_owns h.alloc h.at h.place };
}
