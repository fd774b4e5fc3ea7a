//! The moments at which a memory is read: what words it has at each of them. Only contracts see them.
ghost use Rattle.std.specs.Prelude.{◌≡◌, ◌∷◌, ℕ, List, []};
ghost use Rattle.std.specs.Coded.{coded_ℕ, coded_list};
ghost use base.Fml.{ftrue};

use crate::memory::Memory;
use std::marker::Model;

/// The words of a memory at moments, of which the one at hand is one. It has no bytes.
#[derive(Drop)]
pub struct Moments {
    pub ghost list: { List (List ℕ) } by { coded_list (coded_list coded_ℕ) },
}

impl Model for Moments {
    ghost also_owns = { λ _. ftrue };
}

impl Moments {
    /// The one moment of a memory that nobody writes.
    #[inline]
    pub fn still(memory: &Memory) -> Moments
        ensures { result.list ≡ memory.now ∷ [] }
    {
        Moments {}
    }
}
