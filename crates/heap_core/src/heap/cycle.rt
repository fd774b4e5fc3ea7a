//! The calls of the collector. Each is refused with [`Refusal::WrongPhase`] exactly in the wrong phase, and then changes
//! nothing.
ghost use Rattle.std.specs.Prelude.{◌≡◌, ℕ, true, false};
ghost use Rattle.pages.specs.Reads.{AreMoments};
ghost use Rattle.block_map.specs.FoundIn.{found_in};
ghost use Rattle.marker.specs.Beside.{AreBeside, IsStill};
ghost use Rattle.words.specs.Bits.{Has, IsFirstFrom};
ghost use Rattle.heap_core.specs.BesideSteps.{MarksBeside, RetracesBeside, RetracesPageBeside};
ghost use Rattle.heap_core.specs.Collections.{IsGrantedInPhase, IsAlwaysGranted, BeginsCycle, ReadsRoots, TakesWords, RetracesPage, EndsCycle, CollectsAll, SweepsOne};

use super::Core;
use pages::Moments;
use words::{PageNo, Refusal};

impl Core {
    /// Whether a cycle is marking.
    pub fn is_marking(&self) -> bool
        ensures phase { result ≡ self.now.cycle.is_marking }
    {
        self.is_marking
    }

    /// Begins a cycle.
    pub fn begin(&mut self) -> Result<(), Refusal>
        ensures { IsGrantedInPhase false self.old result self.new (λ _. BeginsCycle self.old self.new) }
    {
        if self.is_marking {
            return Err(Refusal::WrongPhase);
        }
        let used = self.objects.used();
        self.objects.sweep_all(&self.marker);
        self.marker.begin(used);
        self.is_marking = true;
        self.needs_full = false;
        Ok(())
    }

    /// Marks what root words point into.
    pub fn roots(&mut self) -> Result<(), Refusal>
        ensures { IsGrantedInPhase true self.old result self.new (λ _. ReadsRoots self.old self.new) }
    {
        if !self.is_marking {
            return Err(Refusal::WrongPhase);
        }
        self.roots.write_words(&mut self.root_words);
        self.objects
            .mark_roots(&mut self.marker, self.root_words.as_slice());
        Ok(())
    }

    /// Reads words of entries, at most so many, and answers how many.
    pub fn mark(&mut self, most: u64) -> Result<u64, Refusal>
        ensures { IsGrantedInPhase true self.old result self.new (λ n. TakesWords most self.old n self.new) }
    {
        if !self.is_marking {
            return Err(Refusal::WrongPhase);
        }
        let marked = self.objects.mark(&mut self.marker, most, self.leave);
        Ok(marked.read)
    }

    /// Reads words of entries, at most so many, while others write on dirty pages, and answers how many. The memory is read at these
    /// moments.
    pub fn mark_beside(&mut self, most: u64, moments: Moments) -> Result<u64, Refusal>
        requires moments { AreMoments self.old.store.words moments.list }
        requires beside { AreBeside (found_in self.old.store.states) self.old.cycle.marker.dirty moments.list }
        ensures { IsGrantedInPhase true self.old result self.new (λ n. MarksBeside most moments.list self.old n self.new) }
    {
        if !self.is_marking {
            return Err(Refusal::WrongPhase);
        }
        let beside = self
            .objects
            .mark_beside(&mut self.marker, most, moments, self.leave);
        Ok(beside.read)
    }

    /// Reads the lowest dirty page again, on which nobody writes, while others write on other dirty pages. Answers 1, or 0 where no page
    /// is dirty. The memory is read at these moments.
    pub fn retrace_beside(&mut self, moments: Moments) -> Result<u64, Refusal>
        requires moments { AreMoments self.old.store.words moments.list }
        requires beside { AreBeside (found_in self.old.store.states) self.old.cycle.marker.dirty moments.list }
        requires still { (p : ℕ) → IsFirstFrom self.old.cycle.marker.dirty 0 p → IsStill (found_in self.old.store.states) self.old.store.words moments.list p }
        ensures { IsGrantedInPhase true self.old result self.new (λ n. RetracesBeside moments.list self.old n self.new) }
    {
        if !self.is_marking {
            return Err(Refusal::WrongPhase);
        }
        let Some(_) = self
            .objects
            .retrace_beside(&mut self.marker, moments, self.leave)
        else {
            return Ok(0);
        };
        Ok(1)
    }

    /// Reads this page again, on which nobody writes, while others write on other dirty pages. Answers 1, or 0 where it isn't dirty: a page
    /// that the heap hasn't never is. The memory is read at these moments.
    pub fn retrace_page_beside(&mut self, page: PageNo, moments: Moments) -> Result<u64, Refusal>
        requires moments { AreMoments self.old.store.words moments.list }
        requires beside { AreBeside (found_in self.old.store.states) self.old.cycle.marker.dirty moments.list }
        requires still { Has self.old.cycle.marker.dirty page → IsStill (found_in self.old.store.states) self.old.store.words moments.list page }
        ensures { IsGrantedInPhase true self.old result self.new (λ n. RetracesPageBeside page moments.list self.old n self.new) }
    {
        if !self.is_marking {
            return Err(Refusal::WrongPhase);
        }
        if !self
            .objects
            .retrace_page_beside(&mut self.marker, page, moments, self.leave)
        {
            return Ok(0);
        }
        Ok(1)
    }

    /// Reads the lowest dirty page again. Answers 1, or 0 where no page is dirty.
    pub fn retrace(&mut self) -> Result<u64, Refusal>
        ensures { IsGrantedInPhase true self.old result self.new (λ n. RetracesPage self.old n self.new) }
    {
        if !self.is_marking {
            return Err(Refusal::WrongPhase);
        }
        let Some(_) = self.objects.retrace(&mut self.marker, self.leave) else {
            return Ok(0);
        };
        Ok(1)
    }

    /// Ends the cycle: marks on until nothing is left to read, and forgets the objects that aren't marked. Answers how many. It
    /// reads at most the words of the pages that were dirty, for each newly marked object those of the pages that it covers,
    /// and what the entries had left.
    pub fn finish(&mut self) -> Result<u64, Refusal>
        ensures { IsGrantedInPhase true self.old result self.new (λ n. EndsCycle self.old n self.new) }
    {
        if !self.is_marking {
            return Err(Refusal::WrongPhase);
        }
        self.roots.write_words(&mut self.root_words);
        let root_words = self.root_words.as_slice();
        let count = self
            .objects
            .finish(&mut self.marker, root_words, &mut self.reads);
        self.objects.take_along(&self.marker, &mut self.links);
        self.is_marking = false;
        self.count = self.count.wrapping_add(1);
        Ok(count)
    }

    /// Drops a cycle that is marking, and forgets exactly the objects that aren't reached. Answers how many. It reads at most, for
    /// each object that is left, the words of the pages that it covers. It is never refused.
    pub fn collect(&mut self) -> Result<u64, Refusal>
        ensures { IsAlwaysGranted result (λ n. CollectsAll self.old n self.new) }
    {
        let used = self.objects.used();
        self.objects.sweep_all(&self.marker);
        self.marker.begin(used);
        self.roots.write_words(&mut self.root_words);
        let root_words = self.root_words.as_slice();
        let count = self
            .objects
            .collect(&mut self.marker, root_words, &mut self.reads);
        self.objects.take_along(&self.marker, &mut self.links);
        self.is_marking = false;
        self.needs_full = false;
        self.count = self.count.wrapping_add(1);
        Ok(count)
    }

    /// Sweeps one page, if one is pending. Answers 1 if one was, and else 0. It is never refused.
    pub fn sweep(&mut self) -> Result<u64, Refusal>
        ensures { IsAlwaysGranted result (λ n. SweepsOne self.old n self.new) }
    {
        if self.objects.sweep(&self.marker) {
            Ok(1)
        } else {
            Ok(0)
        }
    }

    /// How many collections were granted, modulo 2^64.
    pub fn gc_no(&self) -> u64
        ensures { result ≡ self.now.cycle.count }
    {
        self.count
    }
}
