//! Division of a page's granules among cells of a class, as one multiplication.
ghost use Rattle.blocks.specs.Reciprocals.{IsReciprocal};

use words::Class;

/// What a reciprocal is a part of: the quotient is the product divided by this, which is a shift.
pub(crate) const WHOLE: u32 = 65_536;

// The reciprocal of each class, from the least.
const RECIPROCALS: [u32; 13] = [
    65536, 32768, 21846, 16384, 10923, 8192, 5462, 4096, 2731, 2048, 1366, 1024, 512,
];

/// What a granule of a page is multiplied by to be divided by the granules of an object of the class.
/// It is looked up, since a division would cost more than the rest of the cut.
#[tactic(auto, using(crate::proofs::Reciprocals::reciprocals))]
pub(crate) fn reciprocal_of(class: Class) -> u32
    ensures { IsReciprocal class result }
{
    RECIPROCALS[class.index()]
}
