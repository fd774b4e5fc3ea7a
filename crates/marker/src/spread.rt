//! The pages that an object covers.
ghost use Rattle.std.specs.Prelude.{◌+◌, ◌≤◌, length};
ghost use Rattle.words.specs.declared.limits.TheConstants.{MOST_PAGES};
ghost use Rattle.words.specs.Layout.{page_of};
ghost use Rattle.block_map.specs.Objects.{IsPlaced};
ghost use Rattle.marker.specs.Marking.{last_page};
ghost use Rattle.marker.specs.Growth.{IsDirtied};

use block_map::Found;
use dirty_pages::DirtyPages;
use words::limits::{MOST_PAGES, WORD_BYTES};
use words::{PageNo, page_of};

/// Makes the pages that an object covers dirty.
#[tactic(auto, using(crate::proofs::Spreads::spreads))]
pub fn dirty_object(dirty: &mut DirtyPages, found: Found)
    requires placed { IsPlaced (length dirty.old) found }
    requires small { length dirty.old ≤ MOST_PAGES }
    ensures { IsDirtied dirty.old dirty.new (page_of found.base) (last_page found + 1) }
{
    let first = page_of(found.base) as PageNo;
    let end = found.base + WORD_BYTES * u64::from(found.len);
    let last = page_of(end - 1) as PageNo;
    for page in first..last + 1 {
        dirty.set(page);
    }
}
