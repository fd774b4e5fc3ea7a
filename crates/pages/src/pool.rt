//! The pool of free pages, seen as the row of its pages: true is a free page.
ghost use Rattle.std.specs.Prelude.{◌≡◌, ◌+◌, ◌%◌, ◌<◌, ◌≤◌, true, false, length, slice_index_or, MatchOption, IfSome, IfNone};
ghost use Rattle.words.specs.declared.limits.TheConstants.{MOST_PAGES};
ghost use Rattle.words.specs.Bits.{members, IsEmptyFrom, IsFirstClearFrom, IsFullFrom};
ghost use Rattle.pages.specs.FreeRuns.{IsNextRun};
ghost use Rattle.pages.specs.Opening.{IsOpenedWithin};
ghost use Rattle.pages.specs.Runs.{IsFirstFreeRun, HasNoFreeRun, IsFilled, IsMask, IsRunEnd, AreAllFree};
ghost use Rattle.pages.specs.Hints.{HasNoRunBelow};

use crate::hints::Hints;
use crate::opening::is_page_count;
use crate::starts::next_start;
use std::alloc::Global;
use std::marker::Model;
use words::{BitRow, OpenError, PageNo};

/// A run of free pages.
#[derive(Clone, Copy, Debug, PartialEq, Eq)]
pub struct FreeRun {
    /// Its first page.
    pub first: PageNo,

    /// How many there are before one that isn't free.
    pub pages: u32,
}

/// Which pages of a heap are free.
#[derive(Drop)]
pub struct PagePool {
    free: BitRow,
    hints: Hints,
}

impl Model for PagePool {
    ghost use Rattle.std.specs.Prelude.{◌≤◌, Bool, List, length};
    ghost use Rattle.words.specs.declared.limits.TheConstants.{MOST_PAGES};
    ghost use Rattle.pages.specs.Hints.{AreHints};

    ghost Value = { List Bool };

    ghost view = { λ p. p.free };

    ghost invariant = { λ p. (length p.free ≤ MOST_PAGES) × AreHints p.free p.hints };
}

// The lowest place of n free pages in a row, of which none begin below `low`. Words of the row tell at once where up to 64 of them begin.
#[tactic(auto, using(crate::proofs::Runs::searching))]
fn find_run(row: &BitRow, low: usize, n: usize) -> Option<usize>
    requires small { length row.now ≤ MOST_PAGES }
    requires none { HasNoRunBelow row.now n low }
    ensures { MatchOption result (HasNoFreeRun row.now n) (λ i. IsFirstFreeRun row.now i n) }
{
    match n {
        0 => Some(0),
        1 => find_page(row, low),
        2..=64 => next_start(row, low, n as u32),
        _ => find_long(row, low, n),
    }
}

// The same of more than 64: where as many begin it looks for the first page that is taken, and goes on from there if the run is too short.
#[tactic(auto, using(crate::proofs::Runs::searching))]
fn find_long(row: &BitRow, low: usize, n: usize) -> Option<usize>
    requires small { length row.now ≤ MOST_PAGES }
    requires long { 64 < n }
    requires none { HasNoRunBelow row.now n low }
    ensures { MatchOption result (HasNoFreeRun row.now n) (λ i. IsFirstFreeRun row.now i n) }
{
    let mut from = low;
    while let Some(first) = next_start(row, from, 64) {
        let end = run_end(row, first);
        if end - first >= n {
            return Some(first);
        }
        from = end;
    }
    None
}

// The lowest free page of a row: of a run of one page the end isn't looked for.
fn find_page(row: &BitRow, low: usize) -> Option<usize>
    requires { HasNoRunBelow row.now 1 low }
    ensures { MatchOption result (HasNoFreeRun row.now 1) (λ i. IsFirstFreeRun row.now i 1) }
{
    row.next(low)
}

// Where the run of free pages ends that begins at `first`.
#[tactic(auto, using(crate::proofs::Runs::ending))]
fn run_end(row: &BitRow, first: usize) -> usize
    requires inside { first < length row.now }
    requires free { slice_index_or row.now first false ≡ true }
    ensures { IsRunEnd row.now first result }
{
    match row.next_clear(first) {
        Some(end) => end,
        None => row.len(),
    }
}

// The word whose ones are n bits from the bit `low` on.
#[tactic(auto, using(crate::proofs::Filling::masks))]
fn mask_of(low: usize, n: usize) -> u64
    requires some { 0 < n }
    requires inside { low + n ≤ 64 }
    ensures { IsMask result low n }
{
    (u64::MAX >> (64 - n)) << low
}

// Makes n pages of a row free, or taken, from the page `first` on, that all lie in one word of it.
fn fill_word(row: &mut BitRow, first: usize, n: usize, free: bool)
    requires some { 0 < n }
    requires word { first % 64 + n ≤ 64 }
    requires inside { first + n ≤ length row.old }
    ensures { IsFilled row.old row.new first n free }
{
    let mask = mask_of(first % 64, n);
    let word = row.as_words()[first / 64];
    row.set_word(first / 64, if free { word | mask } else { word & !mask });
}

// Makes n pages of a row free, or taken, from the page `first` on, by whole words.
#[tactic(auto, using(crate::proofs::Filling::filling))]
fn fill(row: &mut BitRow, first: usize, n: usize, free: bool)
    requires inside { first + n ≤ length row.old }
    requires small { length row.old ≤ MOST_PAGES }
    ensures { IsFilled row.old row.new first n free }
{
    let mut low = first;
    let mut left = n;
    while left > 0 {
        let here = left.min(64 - low % 64);
        fill_word(row, low, here, free);
        low += here;
        left -= here;
    }
}

#[tactic(auto, using(crate::proofs::Pools::pools))]
impl PagePool {
    /// So many pages, each of them free.
    #[tactic(auto, using(crate::proofs::Filling::filling))]
    pub fn new(alloc: Global, pages: u32) -> Result<PagePool, OpenError>
        ensures { IsOpenedWithin MOST_PAGES pages result (λ p. AreAllFree p pages) }
    {
        if !is_page_count(pages) {
            return Err(OpenError::BadPages);
        }
        let mut free = BitRow::new(alloc, pages as usize)?;
        fill(&mut free, 0, pages as usize, true);
        Ok(PagePool {
            free,
            hints: Hints::new(),
        })
    }

    /// The number of pages.
    pub fn len(&self) -> u32
        ensures len { result ≡ length self.now }
        ensures small { result ≤ MOST_PAGES }
    {
        self.free.len() as u32
    }

    /// How many pages are free, where all from `used` on are. Those below are counted by whole words.
    pub fn count_free(&self, used: PageNo) -> u32
        requires inside { used ≤ length self.now }
        requires rest { IsFullFrom self.now used }
        ensures { result ≡ members self.now }
    {
        self.free.count(0, used as usize) + (self.len() - used)
    }

    /// The lowest page from a page on that isn't free, found by whole words.
    pub fn next_taken(&self, low: PageNo) -> Option<PageNo>
        ensures { MatchOption result (IsFullFrom self.now low) (λ page. IsFirstClearFrom self.now low page) }
    {
        let Some(page) = self.free.next_clear(low as usize) else {
            return None;
        };
        Some(page as u32)
    }

    /// The lowest run of free pages from a page on.
    pub fn next_run(&self, low: PageNo) -> Option<FreeRun>
        ensures { MatchOption result (IsEmptyFrom self.now low) (λ run. IsNextRun self.now low run) }
    {
        let Some(first) = self.free.next(low as usize) else {
            return None;
        };
        let end = run_end(&self.free, first);
        Some(FreeRun {
            first: first as u32,
            pages: (end - first) as u32,
        })
    }

    /// Takes n consecutive pages, the lowest that are free, and answers the first of them. `None` exactly where there
    /// are no n consecutive free pages.
    pub fn take_run(&mut self, n: u32) -> Option<PageNo>
        ensures some { IfSome result (λ i. IsFirstFreeRun self.old i n × IsFilled self.old self.new i n false) }
        ensures none { IfNone result (HasNoFreeRun self.old n × (self.new ≡ self.old)) }
    {
        let n = n as usize;
        let Some(first) = find_run(&self.free, self.hints.start(n), n) else {
            self.hints.missed(self.free.len(), n);
            return None;
        };
        fill(&mut self.free, first, n, false);
        self.hints.taken(first, n);
        Some(first as u32)
    }

    /// Gives n pages back from the page `first` on, those of them that the heap has.
    #[tactic(auto, using(crate::proofs::Filling::filling))]
    pub fn give(&mut self, first: PageNo, n: u32)
        ensures { IsFilled self.old self.new first n true }
    {
        let first = self.free.len().min(first as usize);
        let n = (n as usize).min(self.free.len() - first);
        fill(&mut self.free, first, n, true);
        self.hints.given(first, n);
    }
}
