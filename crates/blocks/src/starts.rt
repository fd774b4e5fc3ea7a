//! The granules of a page at which cells begin.
ghost use Rattle.std.specs.Prelude.{◌≡◌, ℕ, ◌+◌, ◌*◌, ◌/◌, ◌<◌, ◌==◌};
ghost use Rattle.std.specs.Int.{bit_at};
ghost use Rattle.words.specs.declared.limits.TheConstants.{GRANULE_WORDS, PAGE_GRANULES, PAGE_WORDS};
ghost use Rattle.words.specs.Classes.{IsSizeClass};
ghost use Rattle.blocks.specs.Begins.{begins};

use words::Class;
use words::limits::GRANULE_WORDS;

// For each class, from the least, the granules at which a cell begins: four words of bits, the lowest first.
const BEGINS: [u64; 52] = [
    0xffffffffffffffff,
    0xffffffffffffffff,
    0xffffffffffffffff,
    0xffffffffffffffff, // of 2 words
    0x5555555555555555,
    0x5555555555555555,
    0x5555555555555555,
    0x5555555555555555, // of 4 words
    0x9249249249249249,
    0x4924924924924924,
    0x2492492492492492,
    0x1249249249249249, // of 6 words
    0x1111111111111111,
    0x1111111111111111,
    0x1111111111111111,
    0x1111111111111111, // of 8 words
    0x1041041041041041,
    0x4104104104104104,
    0x0410410410410410,
    0x0041041041041041, // of 12 words
    0x0101010101010101,
    0x0101010101010101,
    0x0101010101010101,
    0x0101010101010101, // of 16 words
    0x1001001001001001,
    0x0100100100100100,
    0x0010010010010010,
    0x0001001001001001, // of 24 words
    0x0001000100010001,
    0x0001000100010001,
    0x0001000100010001,
    0x0001000100010001, // of 32 words
    0x0001000001000001,
    0x0100000100000100,
    0x0000010000010000,
    0x0000000001000001, // of 48 words
    0x0000000100000001,
    0x0000000100000001,
    0x0000000100000001,
    0x0000000100000001, // of 64 words
    0x0001000000000001,
    0x0000000100000000,
    0x0000000000010000,
    1, // 96
    1,
    1,
    1,
    1, // 128
    1,
    0,
    1,
    0, // 256
];

/// The granules of the word j of a page's row at which a cell of the class begins.
#[inline]
#[tactic(auto, using(crate::proofs::Begins::number_inside))]
pub(crate) fn begins_in(class: Class, j: usize) -> u64
    requires { j < 4 }
    ensures { (b : ℕ) → b < 64 → (bit_at result b == 1) ≡ begins class (64 * j + b) }
{
    BEGINS[4 * class.index() + j]
}

/// The granule of the page at which a cell of the class begins.
#[inline]
#[tactic(auto, using(crate::proofs::Begins::places))]
pub(crate) fn granule_at(class: Class, cell: u16) -> u16
    requires class { IsSizeClass class }
    requires cell { cell < PAGE_WORDS / class }
    ensures at { result ≡ cell * (class / GRANULE_WORDS) }
    ensures inside { result < PAGE_GRANULES }
{
    cell * (class.words() / GRANULE_WORDS as u16)
}
