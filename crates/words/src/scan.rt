//! The lowest bit of a row of words that has a value: whole words are passed over, and `trailing_zeros` finds the bit in
//! its word.
ghost use Rattle.std.specs.Prelude.{◌^◌, ◌<◌, ◌*◌, length, MatchOption};
ghost use Rattle.words.specs.Bits.{HasNoBit, IsFirstBit, IsFirstBitOf, IsTurned};

// The word whose ones are the bits of `word` that have the value.
#[inline]
#[tactic(auto, using(crate::proofs::Scans::turns))]
fn turned(word: u64, value: bool) -> u64
    ensures { IsTurned word value result }
{
    if value { word } else { !word }
}

/// The lowest bit of a word from the bit `low` on that has the value.
#[inline]
#[tactic(auto, using(crate::proofs::Scans::in_word))]
pub fn first_in(word: u64, value: bool, low: u32) -> Option<u32>
    requires { low < 64 }
    ensures { MatchOption result (HasNoBit word value low) (λ i. IsFirstBit word value low i) }
{
    let rest = turned(word, value) >> low;
    if rest == 0 {
        return None;
    }
    Some(low + rest.trailing_zeros())
}

// The place of the lowest bit from `low` on that has the value, or the number of all bits.
#[inline]
#[tactic(auto, using(crate::proofs::Scans::scans))]
pub(crate) fn first_from(words: &[u64], value: bool, low: usize) -> usize
    requires few { length words.now < 2 ^ 32 }
    requires low { low < 64 * length words.now }
    ensures { IsFirstBitOf words.now value low result }
{
    let mut from = (low % 64) as u32;
    for j in low / 64..words.len() {
        if let Some(i) = first_in(words[j], value, from) {
            return 64 * j + i as usize;
        }
        from = 0;
    }
    64 * words.len()
}
