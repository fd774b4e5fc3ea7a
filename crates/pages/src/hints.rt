//! Where a search for free pages may begin: none is free below one page, and where one for several was, as many are free in a row nowhere before
//! what it found.
ghost use Rattle.std.specs.Prelude.{◌≡◌, ◌≤◌, Bool, List, true, false, length};
ghost use Rattle.words.specs.declared.limits.TheConstants.{MOST_PAGES};
ghost use Rattle.pages.specs.Hints.{AreHints, HasNoRunBelow};
ghost use Rattle.pages.specs.Runs.{HasNoFreeRun, IsFilled, IsFirstFreeRun};

// What is known of a row of pages.
#[derive(Clone, Copy)]
pub(crate) struct Hints {
    // No page below it is free.
    low: usize,
    // So many pages in a row are nowhere free that begin below `passed`.
    sought: usize,
    passed: usize,
}

#[tactic(auto, using(crate::proofs::Searches::hinting))]
impl Hints {
    // Nothing is known.
    pub(crate) fn new() -> Hints
        ensures { (row : List Bool) → AreHints row result }
    {
        Hints {
            low: 0,
            sought: 1,
            passed: 0,
        }
    }

    // Where a search for n pages may begin.
    pub(crate) fn start(&self, n: usize) -> usize
        ensures { (row : List Bool) → AreHints row self.now → HasNoRunBelow row n result }
    {
        if n >= self.sought {
            self.low.max(self.passed)
        } else {
            self.low
        }
    }

    // The lowest n pages in a row that were free, from `first` on, are taken.
    pub(crate) fn taken(&mut self, first: usize, n: usize)
        requires { first ≤ MOST_PAGES }
        ensures { (old new : List Bool) → AreHints old self.old → IsFirstFreeRun old first n → IsFilled old new first n false → AreHints new self.new }
    {
        if n == 1 {
            self.low = first + 1;
        } else if n > 1 {
            self.sought = n;
            self.passed = first;
        }
    }

    // Of so many pages no n in a row are free.
    pub(crate) fn missed(&mut self, pages: usize, n: usize)
        ensures { (row : List Bool) → AreHints row self.old → length row ≡ pages → HasNoFreeRun row n → AreHints row self.new }
    {
        self.sought = n;
        self.passed = pages;
    }

    // n pages from `first` on are free again.
    pub(crate) fn given(&mut self, first: usize, n: usize)
        ensures { (old new : List Bool) → AreHints old self.old → IsFilled old new first n true → AreHints new self.new }
    {
        self.low = self.low.min(first);
        self.passed = self.passed.min(first.saturating_sub(self.sought));
    }
}
