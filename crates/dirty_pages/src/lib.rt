//! A set of pages: those that were written since the collector read them, or those that are carried. Contracts see it as one
//! `bool` a page. The collector takes the pages out from the least one on. A set has a bit a page; what goes through its pages passes
//! over 4,096 that aren't in it at a look.
//!
//! # What is proved
//!
//! `set`, `clear` and `clear_all` change the one `bool` of the page, or all; `first` is the least member, and `None` exactly if
//! there is none; `count` is how many there are; `add` is the union with another set. The row that says which of the words
//! aren't 0 is right (`IsSummary`, an invariant); that it is used to pass over them, no clause says.
#![tactic(auto)]

ghost use Rattle.std.specs.Prelude.{◌≡◌, ℕ, ◌<◌, ◌≤◌, ◌⊎◌, true, false, length, slice_index_or, slice_set, IfOk, IfSome, MatchOption};
ghost use Rattle.words.specs.Bits.{Has, members, IsClear, IsEmptyFrom, IsFirstFrom};
ghost use Rattle.words.specs.declared.limits.TheConstants.{MOST_PAGES};

mod row;
mod summary;

pub use row::SummedRow;
use std::alloc::{AllocError, Global};
use std::marker::Model;
use words::PageNo;

/// A set of the pages of a heap.
#[derive(Drop)]
pub struct DirtyPages {
    row: SummedRow,
}

impl Model for DirtyPages {
    ghost use Rattle.std.specs.Prelude.{List, Bool, ◌≤◌, length};
    ghost use Rattle.words.specs.declared.limits.TheConstants.{MOST_PAGES};

    ghost Value = { List Bool };

    ghost view = { λ d. d.row };

    ghost invariant = { λ d. length d.row ≤ MOST_PAGES };
}

impl DirtyPages {
    /// No page of a heap of so many. The error is that there is no memory.
    pub fn new(alloc: Global, pages: u32) -> Result<DirtyPages, AllocError>
        requires { pages ≤ MOST_PAGES }
        ensures { IfOk result (λ dirty. IsClear dirty pages) }
    {
        let row = SummedRow::new(alloc, pages as usize)?;
        Ok(DirtyPages { row })
    }

    /// Whether the page is in the set. One that the heap doesn't have isn't.
    #[inline]
    pub fn is_dirty(&self, page: PageNo) -> bool
        ensures { result ≡ slice_index_or self.now page false }
    {
        let page = page as usize;
        page < self.row.len() && self.row.is_set(page)
    }

    /// Puts the page into the set, if the heap has it.
    #[inline]
    pub fn set(&mut self, page: PageNo)
        ensures { self.new ≡ slice_set self.old page true }
    {
        let page = page as usize;
        if page < self.row.len() {
            self.row.set(page);
        }
    }

    /// Takes the page out of the set.
    pub fn clear(&mut self, page: PageNo)
        ensures { self.new ≡ slice_set self.old page false }
    {
        let page = page as usize;
        if page < self.row.len() {
            self.row.clear(page);
        }
    }

    /// How many pages are in the set. Words of the row that have none are passed over.
    pub fn count(&self) -> u32
        ensures { result ≡ members self.now }
    {
        self.row.count()
    }

    /// Takes all pages out of the set.
    pub fn clear_all(&mut self)
        ensures { IsClear self.new (length self.old) }
    {
        self.row.clear_all();
    }

    /// Puts the pages of another set into this one too.
    pub fn add(&mut self, more: &DirtyPages)
        requires { length more.now ≡ length self.old }
        ensures size { length self.new ≡ length self.old }
        ensures each { (p : ℕ) → Has self.new p → Has self.old p ⊎ Has more.now p }
        ensures old { (p : ℕ) → Has self.old p → Has self.new p }
        ensures more { (p : ℕ) → Has more.now p → Has self.new p }
    {
        self.row.add(&more.row);
    }

    /// The least page of the set, and `None` exactly where it is empty.
    pub fn first(&self) -> Option<PageNo>
        ensures first { MatchOption result (IsEmptyFrom self.now 0) (λ page. IsFirstFrom self.now 0 page) }
        ensures limit { IfSome result (λ page. page < MOST_PAGES) }
    {
        let page = self.row.next(0)?;
        Some(page as PageNo)
    }
}
