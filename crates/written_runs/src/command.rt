//! What options about written runs say.
ghost use Rattle.std.specs.Prelude.{ℕ, ◌≤◌, IfSome, MatchOption};
ghost use Rattle.words.specs.declared.limits.TheConstants.{MAX_PAGES};
ghost use Rattle.written_runs.specs.declared.places.Places.{Places as PlacesValue};
ghost use Rattle.written_runs.specs.Arguments.{IsAddressText, IsByteCountText, IsPageCountText, IsPlacesText};

use crate::places::Places;
use scripts::{is_text, number, number_in};
use words::limits::{MAX_PAGES, PAGE_BYTES};

/// The pages of a heap, as they are written, and `None` exactly if the text is no number of them.
pub fn pages_given(text: &str) -> Option<u32>
    ensures given { MatchOption result ((pages : ℕ) → IsPageCountText text.now pages → ⊥) (λ pages. IsPageCountText text.now pages) }
    ensures range { IfSome result (λ pages. (1 ≤ pages) × (pages ≤ MAX_PAGES)) }
{
    let pages = number_in(text.as_bytes(), 1, u64::from(MAX_PAGES))?;
    Some(pages as u32)
}

/// The pages of a heap of so many bytes, as these are written, and `None` exactly if the text is no number of bytes of whole pages.
pub fn bytes_given(text: &str) -> Option<u32>
    ensures given { MatchOption result ((pages : ℕ) → IsByteCountText text.now pages → ⊥) (λ pages. IsByteCountText text.now pages) }
    ensures range { IfSome result (λ pages. (1 ≤ pages) × (pages ≤ MAX_PAGES)) }
{
    let bytes = number_in(
        text.as_bytes(),
        PAGE_BYTES,
        PAGE_BYTES * u64::from(MAX_PAGES),
    )?;
    if bytes % PAGE_BYTES != 0 {
        return None;
    }
    Some((bytes / PAGE_BYTES) as u32)
}

/// An address, as it is written, and `None` exactly if the text is none.
pub fn address_given(text: &str) -> Option<u64>
    ensures { MatchOption result ((address : ℕ) → IsAddressText text.now address → ⊥) (λ address. IsAddressText text.now address) }
{
    number(text.as_bytes())
}

/// Where objects may lie, as it is written, in a heap that begins at `from`, and `None` exactly if the text says neither.
pub fn places_given(text: &str, from: u64) -> Option<Places>
    ensures { MatchOption result ((places : PlacesValue) → IsPlacesText text.now from places → ⊥) (λ places. IsPlacesText text.now from places) }
{
    if is_text(text.as_bytes(), "classes") {
        return Some(Places::Classes);
    }
    if is_text(text.as_bytes(), "any") {
        return Some(Places::Any(from));
    }
    None
}
