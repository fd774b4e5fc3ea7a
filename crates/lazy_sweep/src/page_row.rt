//! Some of the pages: a row of bits, and the lowest of them, which no search has to find.
ghost use Rattle.std.specs.Prelude.{◌≡◌, ◌+◌, ◌<◌, ◌^◌, true, false, length, slice_index_or, slice_set, IfOk, MatchOption};
ghost use Rattle.words.specs.Bits.{members, IsClear, IsEmptyFrom, IsFirstFrom};

use dirty_pages::SummedRow;
use std::alloc::{AllocError, Global};
use std::marker::Model;

/// A row of pages, seen as the row of their bits.
#[derive(Drop)]
pub(crate) struct PageRow {
    row: SummedRow,
    // The lowest member, or the number of bits where there is none.
    lowest: usize,
    // No member lies behind it.
    highest: usize,
}

impl Model for PageRow {
    ghost use Rattle.std.specs.Prelude.{List, Bool, ◌+◌};
    ghost use Rattle.words.specs.Bits.{IsEmptyFrom};
    ghost use Rattle.lazy_sweep.specs.PageRows.{IsLowest};

    ghost Value = { List Bool };

    ghost view = { λ r. r.row };

    ghost invariant = { λ r. IsLowest r.row r.lowest × IsEmptyFrom r.row (r.highest + 1) };
}

// The next member behind a page that is none. Behind the highest none is looked for: of a row over many pages that has but one at a time, all
// would be read whenever that one goes.
#[inline]
#[tactic(auto, using(crate::proofs::Lowest::lowest))]
fn next_behind(row: &SummedRow, page: usize, highest: usize) -> Option<usize>
    requires none { slice_index_or row.now page false ≡ false }
    requires end { IsEmptyFrom row.now (highest + 1) }
    ensures { MatchOption result (IsEmptyFrom row.now page) (λ next. IsFirstFrom row.now page next) }
{
    if page < highest { row.next(page) } else { None }
}

#[tactic(auto, using(crate::proofs::Lowest::lowest))]
impl PageRow {
    /// A row over so many pages, with no member.
    pub(crate) fn new(alloc: Global, pages: usize) -> Result<PageRow, AllocError>
        requires { pages < 2 ^ 32 }
        ensures { IfOk result (λ row. IsClear row pages) }
    {
        let row = SummedRow::new(alloc, pages)?;
        Ok(PageRow {
            row,
            lowest: pages,
            highest: 0,
        })
    }

    /// The lowest member.
    #[inline]
    pub(crate) fn first(&self) -> Option<usize>
        ensures { MatchOption result (IsEmptyFrom self.now 0) (λ page. IsFirstFrom self.now 0 page) }
    {
        if self.lowest < self.row.len() {
            Some(self.lowest)
        } else {
            None
        }
    }

    /// Whether a page is a member.
    #[inline]
    pub(crate) fn is_set(&self, page: usize) -> bool
        requires { page < length self.now }
        ensures { result ≡ slice_index_or self.now page false }
    {
        self.row.is_set(page)
    }

    /// How many members there are.
    pub(crate) fn count(&self) -> u32
        ensures { result ≡ members self.now }
    {
        self.row.count()
    }

    /// Enters a page.
    #[inline]
    pub(crate) fn set(&mut self, page: usize)
        requires { page < length self.old }
        ensures { self.new ≡ slice_set self.old page true }
    {
        self.row.set(page);
        if page < self.lowest {
            self.lowest = page;
        }
        if self.highest < page {
            self.highest = page;
        }
    }

    /// Takes a page out, and where it was the lowest, looks for the next.
    #[inline]
    pub(crate) fn clear(&mut self, page: usize)
        requires { page < length self.old }
        ensures { self.new ≡ slice_set self.old page false }
    {
        self.row.clear(page);
        if page != self.lowest {
            return;
        }
        match next_behind(&self.row, page, self.highest) {
            Some(next) => self.lowest = next,
            None => {
                self.lowest = self.row.len();
                self.highest = 0;
            }
        }
    }
}
