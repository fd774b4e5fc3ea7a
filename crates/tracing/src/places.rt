//! Where an address of the heap stands in a trace.
ghost use Rattle.std.specs.Prelude.{◌≡◌, ◌/◌, IfOk, false, map, slice_index_or};
ghost use Rattle.words.specs.declared.limits.TheConstants.{PAGE_WORDS};
ghost use Rattle.pages.specs.Memory.{word_index};

use std::alloc::{AllocError, Global};
use words::limits::{FIRST_ADDRESS, PAGE_WORDS, WORD_BYTES};

/// The number of the word at an address.
pub fn place_of(address: u64) -> u64
    ensures { result ≡ word_index address }
{
    address.saturating_sub(FIRST_ADDRESS) / WORD_BYTES
}

/// The numbers of the words at some addresses.
pub(crate) fn places_of(alloc: Global, addresses: &[u64]) -> Result<Vec<u64>, AllocError>
    ensures { IfOk result (λ places. places.items ≡ map word_index addresses.now) }
{
    addresses
        .iter()
        .map(|address| place_of(*address))
        .collect::<Vec<u64>>(alloc)
}

/// The page of an address.
pub(crate) fn page_of(address: u64) -> u64
    ensures { result ≡ word_index address / PAGE_WORDS }
{
    place_of(address) / PAGE_WORDS
}

/// Whether the word at an address has its flag.
pub(crate) fn is_flagged(flags: &[bool], address: u64) -> bool
    ensures { result ≡ slice_index_or flags.now (word_index address) false }
{
    let index = place_of(address) as usize;
    if index < flags.len() {
        flags[index]
    } else {
        false
    }
}
