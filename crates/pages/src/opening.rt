//! How many pages a heap may have.
ghost use Rattle.std.specs.Prelude.{MatchBool};
ghost use Rattle.words.specs.declared.limits.TheConstants.{MOST_PAGES};
ghost use Rattle.pages.specs.Opening.{IsPageCountWithin, IsNoPageCountWithin};

use words::limits::MOST_PAGES;

/// Whether a heap may have so many pages.
pub fn is_page_count(pages: u32) -> bool
    ensures { MatchBool result (IsPageCountWithin MOST_PAGES pages) (IsNoPageCountWithin MOST_PAGES pages) }
{
    0 < pages && pages <= MOST_PAGES
}
