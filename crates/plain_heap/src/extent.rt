//! Where an object lies.
ghost use Rattle.std.specs.Prelude.{◌≡◌, ◌-◌, ◌/◌, IsTrue, false};
ghost use Rattle.words.specs.declared.limits.TheConstants.{WORD_BYTES};
ghost use Rattle.heap_spec.specs.Layout.{PointsInto};

use words::Kind;
use words::limits::WORD_BYTES;

/// Where an object lies, from its base and over so many words, and its kind.
#[derive(Clone, Copy, Debug, PartialEq, Eq)]
pub struct Extent {
    pub base: u64,
    pub kind: Kind,
    pub length: u64,
}

impl Extent {
    // Whether the address is that of one of its bytes.
    pub(crate) fn contains(&self, address: u64) -> bool
        ensures yes { IsTrue result → PointsInto address self.now.base self.now.length }
        ensures no { result ≡ false → PointsInto address self.now.base self.now.length → ⊥ }
    {
        self.base <= address && (address - self.base) / WORD_BYTES < self.length
    }

    // How many of its words are left from the one that has an address.
    pub(crate) fn words_from(&self, address: u64) -> u64
        requires { PointsInto address self.now.base self.now.length }
        ensures { result ≡ self.now.length - (address - self.now.base) / WORD_BYTES }
    {
        self.length - (address - self.base) / WORD_BYTES
    }
}
