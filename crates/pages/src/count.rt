//! A number that only contracts see. It has no bound and no bytes.
ghost use Rattle.std.specs.Prelude.{◌≡◌, ℕ, ◌+◌};
ghost use Rattle.std.specs.Coded.{coded_ℕ};
ghost use base.Fml.{ftrue};

use std::marker::Model;

/// A count that costs nothing when the program runs.
#[derive(Drop)]
pub struct Count {
    pub ghost n: { ℕ } by { coded_ℕ },
}

impl Model for Count {
    ghost also_owns = { λ _. ftrue };
}

unsafe impl Send for Count {}

impl Count {
    /// The count 0.
    #[inline]
    pub fn zero() -> Count
        ensures { result.n ≡ 0 }
    {
        Count {}
    }

    /// The next count.
    #[inline]
    pub fn next(&self) -> Count
        ensures { result.n ≡ self.now.n + 1 }
    {
        Count {}
    }

    /// The sum of two counts.
    #[inline]
    pub fn plus(&self, more: &Count) -> Count
        ensures { result.n ≡ self.now.n + more.now.n }
    {
        Count {}
    }
}
