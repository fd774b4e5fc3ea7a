//! Where the pages and granules of a heap lie.
ghost use Rattle.std.specs.Prelude.{◌≡◌, ◌≤◌};
ghost use Rattle.words.specs.declared.limits.TheConstants.{FIRST_ADDRESS};
ghost use Rattle.words.specs.Layout.{granule, page_of, page_start};

use crate::limits::{FIRST_ADDRESS, GRANULE_BYTES, PAGE_BYTES, PageNo};

/// The address of a page's first byte; of the page after the last one it is the heap's end.
#[inline]
pub fn page_start(page: PageNo) -> u64
    ensures { result ≡ page_start page }
{
    FIRST_ADDRESS + PAGE_BYTES * u64::from(page)
}

/// The page of an address, which may lie past the heap's end.
#[inline]
pub fn page_of(address: u64) -> u64
    requires { FIRST_ADDRESS ≤ address }
    ensures { result ≡ page_of address }
{
    (address - FIRST_ADDRESS) / PAGE_BYTES
}

/// The granule of an address, counted from the heap's first one.
#[inline]
pub fn granule_of(address: u64) -> usize
    requires { FIRST_ADDRESS ≤ address }
    ensures { result ≡ granule address }
{
    ((address - FIRST_ADDRESS) / GRANULE_BYTES) as usize
}
