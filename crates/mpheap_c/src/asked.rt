//! What is asked of a step of marking beside writers.
ghost use Rattle.std.specs.Prelude.{◌≡◌, ℕ, List};
ghost use Rattle.std.specs.Coded.{coded_ℕ, coded_list};
ghost use base.Fml.{ftrue};

use pages::Moments;
use std::marker::Model;

/// The moments of the memory between the call's begin and its end, which only contracts see. The number is read by nobody.
#[repr(C)]
pub struct Asked {
    unread: u64,
    pub ghost moments: { List (List ℕ) } by { coded_list (coded_list coded_ℕ) },
}

impl Model for Asked {
    ghost also_owns = { λ _. ftrue };
}

impl Asked {
    /// The moments.
    #[inline]
    pub fn moments(&self) -> Moments
        ensures { result.list ≡ self.now.moments }
    {
        Moments {}
    }
}
