//! The part of an object that stands between two addresses.
ghost use Rattle.marker.specs.Parts.{HasPart, IsPartBetween};

use block_map::Found;
use words::limits::WORD_BYTES;

/// Words of an object that lie in a row.
#[derive(Clone, Copy, Debug)]
pub struct Part {
    /// The number of the first of them.
    pub first: u32,

    /// How many they are.
    pub count: u64,

    /// The address at which they end.
    pub stop: u64,
}

/// The words of an object that stand from one address on and below another.
#[inline]
pub fn part_between(found: Found, low: u64, high: u64) -> Part
    requires { HasPart low high found }
    ensures { IsPartBetween low high found result }
{
    let stop = (found.base + WORD_BYTES * u64::from(found.len)).min(high);
    let first = low.saturating_sub(found.base) / WORD_BYTES;
    Part {
        first: first as u32,
        count: (stop - found.base) / WORD_BYTES - first,
        stop,
    }
}
