//! The pages of a heap, of which only those below the highest one that ever had something are written. Of the others the
//! memory is set aside at the start, and nothing of it is touched.
ghost use Rattle.std.specs.Prelude.{◌≡◌, ℕ, ◌+◌, ◌<◌, ◌≤◌, length, map, slice_set, vec_capacity, vec_len, IfOk, IfNone, IfSome};
ghost use Rattle.std.specs.Borrow.{sem};
ghost use Rattle.words.specs.declared.limits.TheConstants.{MOST_PAGES};
ghost use Rattle.block_map.specs.States.{cut, free, state_at, large_states, IsCut, IsSpanSet, AreFreePages};
ghost use Rattle.block_map.specs.Shown.{shown, IsSameStates};

use crate::page::Page;
use blocks::{Block, LargeHead};
use std::alloc::{AllocError, Global};
use std::marker::Model;
use words::{Kind, PageNo};

/// The pages of a heap, seen as the list of what stands on them.
#[derive(Drop)]
pub(crate) struct PageList {
    made: Vec<Page>,
    len: u32,
    // What stands on a page past those that are made.
    empty: Page,
}

impl Model for PageList {
    ghost use Rattle.std.specs.Prelude.{◌≡◌, ◌≤◌, List, length, map, vec_capacity};
    ghost use Rattle.words.specs.declared.limits.TheConstants.{MOST_PAGES};
    ghost use Rattle.block_map.specs.States.{PageState, free};
    ghost use Rattle.block_map.specs.Shown.{padded, shown};

    ghost Value = { List PageState };

    ghost view = { λ p. padded (map shown p.made.items) p.len };

    ghost invariant = { λ p. (length p.made.items ≤ p.len) × (p.len ≤ vec_capacity p.made) × (p.len ≤ MOST_PAGES) × (shown p.empty ≡ free) };
}

// Makes free pages until there is this one. There is room for it.
#[tactic(auto, using(crate::proofs::Padding::making))]
fn make_until(made: &mut Vec<Page>, page: usize)
    requires room { page < vec_capacity made.old }
    ensures inside { page < vec_len made.new }
    ensures few { (n : ℕ) → length made.old.items ≤ n → page < n → length made.new.items ≤ n }
    ensures room { vec_capacity made.old ≤ vec_capacity made.new }
    ensures same { IsSameStates (map shown made.old.items) (map shown made.new.items) }
{
    while made.len() <= page {
        let Ok(()) = made.push(Page::Free) else {
            unreachable!();
        };
    }
}

#[tactic(auto, using(crate::proofs::Padding::padding, crate::proofs::Spans::filling))]
impl PageList {
    ghost use Rattle.block_map.specs.Lending.{LendsBlockOf};

    /// So many free pages.
    pub(crate) fn new(alloc: Global, count: u32) -> Result<PageList, AllocError>
        requires { count ≤ MOST_PAGES }
        ensures { IfOk result (λ pages. AreFreePages pages count) }
    {
        let made = Vec::with_capacity(alloc, count as usize)?;
        Ok(PageList {
            made,
            len: count,
            empty: Page::Free,
        })
    }

    /// The number of pages.
    #[inline]
    pub(crate) fn len(&self) -> u32
        ensures len { result ≡ length self.now }
        ensures small { result ≤ MOST_PAGES }
    {
        self.len
    }

    /// How many pages, from the first one on, may have something.
    #[inline]
    pub(crate) fn used(&self) -> u32
        ensures inside { result ≤ length self.now }
        ensures past { (k : ℕ) → result ≤ k → state_at self.now k ≡ free }
    {
        self.made.len() as u32
    }

    /// What stands on a page.
    #[inline]
    pub(crate) fn at(&self, page: usize) -> &Page
        requires { page < length self.now }
        ensures { state_at self.now page ≡ shown result.now }
    {
        if page < self.made.len() {
            &self.made[page]
        } else {
            &self.empty
        }
    }

    /// What stands on a page, unless that page is past those that are made.
    #[inline]
    pub(crate) fn made(&self, page: usize) -> Option<&Page>
        ensures some { IfSome result (λ p. state_at self.now page ≡ shown p.now) }
        ensures none { IfNone result (state_at self.now page ≡ free) }
    {
        if page < self.made.len() {
            Some(&self.made[page])
        } else {
            None
        }
    }

    /// The block of a page that is cut, lent.
    #[inline(always)]
    pub(crate) fn block_mut(&mut self, page: PageNo) -> &mut Block
        requires { IsCut (state_at self.old page) }
        ensures* lends { sem 𝓛 (LendsBlockOf self.entry page result) }
        ensures block { state_at self.old page ≡ cut result.now }
    {
        let what = &mut self.made[page as usize];
        what.block_mut()
    }

    /// Gives a page what stands there from now on.
    pub(crate) fn put_page(&mut self, page: usize, value: Page)
        requires { page < length self.old }
        ensures { self.new ≡ slice_set self.old page (shown value) }
    {
        make_until(&mut self.made, page);
        self.made[page] = value;
    }

    /// Makes pages those of a large object.
    pub(crate) fn fill_large(&mut self, first: PageNo, count: u32, kind: Kind)
        requires { first + count ≤ length self.old }
        ensures { IsSpanSet self.old self.new first count (large_states first count kind) }
    {
        // Its clauses tell that the pages are few.
        let _len = self.len();
        for q in first..first + count {
            let value = if q == first {
                Page::Head(LargeHead { pages: count, kind })
            } else {
                Page::Body(first)
            };
            self.put_page(q as usize, value);
        }
    }

    /// Makes pages free.
    pub(crate) fn fill_free(&mut self, first: PageNo, count: u32)
        requires { first + count ≤ length self.old }
        ensures { IsSpanSet self.old self.new first count (λ _. free) }
    {
        // The same.
        let _len = self.len();
        for q in first..first + count {
            self.put_page(q as usize, Page::Free);
        }
    }
}
