//! Pages by class and kind: for each of these a row of bits over the pages. A page is found there without a walk over all
//! pages.
ghost use Rattle.std.specs.Prelude.{◌≡◌, ◌<◌, Bool, true, false, [], length, slice_index_or, slice_set, vec_len, IfOk, MatchOption};
ghost use Rattle.words.specs.Bits.{IsEmptyFrom, IsFirstFrom};
ghost use Rattle.words.specs.Classes.{IsSizeClass};
ghost use Rattle.lazy_sweep.specs.declared.available_pages.TheConstants.{ROWS};
ghost use Rattle.lazy_sweep.specs.AvailableRows.{row_number, row_of, AreClear, IsBitSet};

use crate::page_row::PageRow;
use std::alloc::{AllocError, Global};
use std::marker::Model;
use words::{CLASSES, Class, Kind, PageNo};

// Two kinds for each class.
const ROWS: usize = 2 * CLASSES.len();

/// Some pages of each class and kind: those with a free cell that need no sweep, or the pending ones.
#[derive(Drop)]
pub struct AvailablePages {
    rows: Vec<PageRow>,
}

impl Model for AvailablePages {
    ghost use Rattle.std.specs.Prelude.{◌≡◌, List, Bool, vec_len};
    ghost use Rattle.lazy_sweep.specs.declared.available_pages.TheConstants.{ROWS};

    ghost Value = { List (List Bool) };

    ghost view = { λ o. o.rows.items };

    ghost invariant = { λ o. vec_len o.rows ≡ ROWS };
}

// The number of the row of a class and a kind.
#[inline]
#[tactic(auto, using(crate::proofs::AvailableRows::rows))]
fn row_number(class: Class, kind: Kind) -> usize
    ensures number { result ≡ row_number class kind }
    ensures inside { result < ROWS }
    ensures listed { IsSizeClass class }
{
    let first = 2 * class.index();
    match kind {
        Kind::Normal => first,
        Kind::PointerFree => first + 1,
    }
}

// Sets the bit of a page in a row.
#[inline]
fn set_bit(rows: &mut Vec<PageRow>, number: usize, page: PageNo)
    requires row { number < vec_len rows.old }
    requires page { page < length (slice_index_or rows.old.items number []) }
    ensures rows { rows.new.items ≡ slice_set rows.old.items number (slice_set (slice_index_or rows.old.items number []) page true) }
    ensures size { vec_len rows.new ≡ vec_len rows.old }
{
    rows[number].set(page as usize);
}

// Clears it.
#[inline]
fn clear_bit(rows: &mut Vec<PageRow>, number: usize, page: PageNo)
    requires row { number < vec_len rows.old }
    requires page { page < length (slice_index_or rows.old.items number []) }
    ensures rows { rows.new.items ≡ slice_set rows.old.items number (slice_set (slice_index_or rows.old.items number []) page false) }
    ensures size { vec_len rows.new ≡ vec_len rows.old }
{
    rows[number].clear(page as usize);
}

#[tactic(auto, using(crate::proofs::AvailableRows::rows))]
impl AvailablePages {
    /// Rows over so many pages, with no member.
    pub fn new(alloc: Global, pages: u32) -> Result<AvailablePages, AllocError>
        ensures { IfOk result (λ rows. AreClear rows pages) }
    {
        let mut rows = Vec::with_capacity(alloc, ROWS)?;
        for _ in 0..ROWS {
            rows.push(PageRow::new(alloc, pages as usize)?)?;
        }
        Ok(AvailablePages { rows })
    }

    /// The lowest page of a class and a kind.
    #[inline]
    pub fn first(&self, class: Class, kind: Kind) -> Option<usize>
        ensures page { MatchOption result (IsEmptyFrom (row_of self.now class kind) 0) (λ page. IsFirstFrom (row_of self.now class kind) 0 page) }
        ensures listed { IsSizeClass class }
    {
        self.rows[row_number(class, kind)].first()
    }

    /// Enters a page of a class and a kind.
    #[inline]
    pub fn enter(&mut self, class: Class, kind: Kind, page: PageNo)
        requires { page < length (row_of self.old class kind) }
        ensures { IsBitSet self.old self.new class kind page true }
    {
        set_bit(&mut self.rows, row_number(class, kind), page);
    }

    /// Takes a page out.
    #[inline]
    pub fn leave(&mut self, class: Class, kind: Kind, page: PageNo)
        requires { page < length (row_of self.old class kind) }
        ensures { IsBitSet self.old self.new class kind page false }
    {
        clear_bit(&mut self.rows, row_number(class, kind), page);
    }
}
