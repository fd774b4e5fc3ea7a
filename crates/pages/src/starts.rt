//! Where so many free pages in a row begin. Words of the row in which no two of them begin are passed over, one at a look; in the others
//! the places are found all at once, by shifts.
ghost use Rattle.std.specs.Prelude.{◌≡◌, ◌*◌, ◌%◌, ◌^◌, ◌<◌, ◌≤◌, length, slice_index_or, MatchOption};
ghost use Rattle.words.specs.declared.limits.TheConstants.{MOST_PAGES};
ghost use Rattle.pages.specs.Runs.{HasNoFreeRunFrom, IsFirstFreeRunFrom};
ghost use Rattle.pages.specs.Starts.{IsPair, AreShrunk, AreStarts, IsNextPair, IsFirstStart};

use words::{BitRow, first_in};

// The word j, or 0 behind the last one.
fn word_at(words: &[u64], j: usize) -> u64
    ensures { result ≡ slice_index_or words.now j 0 }
{
    if j < words.len() { words[j] } else { 0 }
}

// The bits of the word j and of the next, as those of one word.
fn pair_at(words: &[u64], j: usize) -> u128
    requires { j < length words.now }
    ensures { IsPair words.now j result }
{
    (u128::from(word_at(words, j + 1)) << 64) + u128::from(words[j])
}

// Its first 64 bits.
fn first_half(bits: u128) -> u64
    ensures { result ≡ bits % 2 ^ 64 }
{
    (bits % (1 << 64)) as u64
}

// The ones of two words at which two ones begin.
#[tactic(auto, using(crate::proofs::RunStarts::pairing))]
fn pairs_of(both: u128) -> u128
    ensures { AreShrunk both 2 result }
{
    both & (both >> 1)
}

// The ones at which n ones of the word j and of the next begin, where that is one of the word j.
fn starts_at(words: &[u64], j: usize, n: u32) -> u64
    requires word { j < length words.now }
    requires some { 2 ≤ n }
    requires few { n ≤ 64 }
    ensures { AreStarts words.now j n result }
{
    let both = pair_at(words, j);
    let mut starts = pairs_of(both);
    let mut have = 2;
    while have < n && first_half(starts) != 0 {
        let step = have.min(n - have);
        starts &= starts >> step;
        have += step;
    }
    first_half(starts)
}

// The first word from the word `low` on where two ones in a row begin, or the last word.
#[tactic(auto, using(crate::proofs::RunStarts::passing))]
fn next_pair(words: &[u64], low: usize) -> usize
    requires { low < length words.now }
    ensures { IsNextPair words.now low result }
{
    for j in low..words.len() - 1 {
        if first_half(pairs_of(pair_at(words, j))) != 0 {
            return j;
        }
    }
    words.len() - 1
}

// The place of the lowest bit from `low` on where n ones in a row begin, or the number of all bits.
#[tactic(auto, using(crate::proofs::RunStarts::scanning))]
fn first_start(words: &[u64], low: usize, n: u32) -> usize
    requires words { length words.now < 2 ^ 32 }
    requires low { low < 64 * length words.now }
    requires some { 2 ≤ n }
    requires few { n ≤ 64 }
    ensures { IsFirstStart words.now n low result }
{
    let mut from = low;
    while from < 64 * words.len() {
        let j = next_pair(words, from / 64);
        let within = from.max(64 * j) % 64;
        if let Some(i) = first_in(starts_at(words, j, n), true, within as u32) {
            return 64 * j + i as usize;
        }
        from = 64 * j + 64;
    }
    64 * words.len()
}

// The lowest page from `low` on where n free pages begin.
#[tactic(auto, using(crate::proofs::RunStarts::of_row))]
pub(crate) fn next_start(row: &BitRow, low: usize, n: u32) -> Option<usize>
    requires small { length row.now ≤ MOST_PAGES }
    requires some { 2 ≤ n }
    requires few { n ≤ 64 }
    ensures { MatchOption result (HasNoFreeRunFrom row.now low n) (λ i. IsFirstFreeRunFrom row.now low i n) }
{
    if low >= row.len() {
        return None;
    }
    let first = first_start(row.as_words(), low, n);
    if first + n as usize <= row.len() {
        Some(first)
    } else {
        None
    }
}
