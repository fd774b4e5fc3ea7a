//! How many bits of a row of words are set, by whole words.
ghost use Rattle.std.specs.Prelude.{◌≡◌, ◌%◌, ◌^◌, ◌<◌, ◌≤◌, ◌*◌, length};
ghost use Rattle.words.specs.Bits.{IsCount};

/// How many bits are set from a word's first one, `low`, on and below `high`. Of the word that `high` lies in, the bits from
/// there on are masked out.
#[tactic(auto, using(crate::proofs::Counts::counts))]
pub fn ones_of(words: &[u64], low: usize, high: usize) -> u32
    requires whole { low % 64 ≡ 0 }
    requires order { low ≤ high }
    requires inside { high ≤ 64 * length words.now }
    requires few { high < 2 ^ 32 }
    ensures { IsCount words.now low high result }
{
    let mut count = 0;
    for j in low / 64..high / 64 {
        count += words[j].count_ones();
    }
    let rest = high % 64;
    if rest == 0 {
        return count;
    }
    count + (words[high / 64] & ((1 << rest) - 1)).count_ones()
}
