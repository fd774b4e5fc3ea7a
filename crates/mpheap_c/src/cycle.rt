//! The calls of the collector.
ghost use Rattle.std.specs.Prelude.{◌≡◌, ℕ, Some, true, false};
ghost use Rattle.pages.specs.Reads.{AreMoments};
ghost use Rattle.block_map.specs.FoundIn.{found_in};
ghost use Rattle.marker.specs.Beside.{AreBeside, IsStill};
ghost use Rattle.words.specs.Bits.{Has, IsFirstFrom};
ghost use Rattle.heap_core.specs.CoreContents.{CoreContents};
ghost use Rattle.heap_core.specs.BesideSteps.{MarksBeside, RetracesBeside, RetracesPageBeside};
ghost use Rattle.heap_core.specs.Collections.{IsGrantedInPhase, IsGrantedPartial, IsAlwaysGranted, BeginsCycle, BeginsPartialCycle, ReadsRoots, TakesWords, RetracesPage, EndsCycle, CollectsAll, SweepsOne};
ghost use Rattle.mpheap_c.specs.Handle.{IsOpen};
ghost use Rattle.mpheap_c.specs.Crossing.{Holds, TellsDoneOf, TellsWordOf, HasCount, HasPhase, HasMark};

use crate::asked::Asked;
use crate::heap::Heap;
use crate::status::{done, word_to};

/// Begins a cycle.
#[unsafe(no_mangle)]
pub extern "C" fn mpheap_begin(heap: &mut Heap) -> u32
    requires open { IsOpen heap.old.core }
    ensures { Holds (TellsDoneOf result (λ old r new. IsGrantedInPhase false old r new (λ _. BeginsCycle old new))) heap.old.core heap.new.core }
{
    done(heap.core().begin())
}

/// Begins a cycle with the marks of the last one.
#[unsafe(no_mangle)]
pub extern "C" fn mpheap_begin_partial(heap: &mut Heap) -> u32
    requires open { IsOpen heap.old.core }
    ensures { Holds (TellsDoneOf result (λ old r new. IsGrantedPartial old r new (BeginsPartialCycle old new))) heap.old.core heap.new.core }
{
    done(heap.core().begin_partial())
}

/// Marks what root words point into.
#[unsafe(no_mangle)]
pub extern "C" fn mpheap_roots(heap: &mut Heap) -> u32
    requires open { IsOpen heap.old.core }
    ensures { Holds (TellsDoneOf result (λ old r new. IsGrantedInPhase true old r new (λ _. ReadsRoots old new))) heap.old.core heap.new.core }
{
    done(heap.core().roots())
}

/// Reads words of entries, at most so many, and answers how many.
#[unsafe(no_mangle)]
pub extern "C" fn mpheap_mark(heap: &mut Heap, most: u64, count: &mut u64) -> u32
    requires open { IsOpen heap.old.core }
    ensures { Holds (TellsWordOf result count.old count.new (λ old r new. IsGrantedInPhase true old r new (λ n. TakesWords most old n new))) heap.old.core heap.new.core }
{
    word_to(heap.core().mark(most), count)
}

/// Reads words of entries, at most so many, while others write on dirty pages, and answers how many. What the caller owes is that
/// at all moments of the call the words of Normal objects on pages that aren't dirty are what they are at its begin.
#[unsafe(no_mangle)]
pub extern "C" fn mpheap_mark_beside(
    heap: &mut Heap,
    most: u64,
    asked: &Asked,
    count: &mut u64,
) -> u32
    requires open { IsOpen heap.old.core }
    requires moments { (c : CoreContents) → heap.old.core ≡ Some c → AreMoments c.store.words asked.now.moments }
    requires beside { (c : CoreContents) → heap.old.core ≡ Some c → AreBeside (found_in c.store.states) c.cycle.marker.dirty asked.now.moments }
    ensures { Holds (TellsWordOf result count.old count.new (λ old r new. IsGrantedInPhase true old r new (λ n. MarksBeside most asked.now.moments old n new))) heap.old.core heap.new.core }
{
    let moments = asked.moments();
    word_to(heap.core().mark_beside(most, moments), count)
}

/// Reads the lowest dirty page again, while others write on other dirty pages. Answers 1, or 0 where no page is dirty. What the
/// caller owes is that of [`mpheap_mark_beside`], and that nobody writes words of Normal objects on that page.
#[unsafe(no_mangle)]
pub extern "C" fn mpheap_retrace_beside(heap: &mut Heap, asked: &Asked, count: &mut u64) -> u32
    requires open { IsOpen heap.old.core }
    requires moments { (c : CoreContents) → heap.old.core ≡ Some c → AreMoments c.store.words asked.now.moments }
    requires beside { (c : CoreContents) → heap.old.core ≡ Some c → AreBeside (found_in c.store.states) c.cycle.marker.dirty asked.now.moments }
    requires still { (c : CoreContents) → heap.old.core ≡ Some c → (p : ℕ) → IsFirstFrom c.cycle.marker.dirty 0 p → IsStill (found_in c.store.states) c.store.words asked.now.moments p }
    ensures { Holds (TellsWordOf result count.old count.new (λ old r new. IsGrantedInPhase true old r new (λ n. RetracesBeside asked.now.moments old n new))) heap.old.core heap.new.core }
{
    let moments = asked.moments();
    word_to(heap.core().retrace_beside(moments), count)
}

/// Reads this page again, while others write on other dirty pages. Answers 1, or 0 where it isn't dirty. What the caller owes is that
/// of [`mpheap_mark_beside`], and that nobody writes words of Normal objects on this page.
#[unsafe(no_mangle)]
pub extern "C" fn mpheap_retrace_page_beside(
    heap: &mut Heap,
    page: u32,
    asked: &Asked,
    count: &mut u64,
) -> u32
    requires open { IsOpen heap.old.core }
    requires moments { (c : CoreContents) → heap.old.core ≡ Some c → AreMoments c.store.words asked.now.moments }
    requires beside { (c : CoreContents) → heap.old.core ≡ Some c → AreBeside (found_in c.store.states) c.cycle.marker.dirty asked.now.moments }
    requires still { (c : CoreContents) → heap.old.core ≡ Some c → Has c.cycle.marker.dirty page → IsStill (found_in c.store.states) c.store.words asked.now.moments page }
    ensures { Holds (TellsWordOf result count.old count.new (λ old r new. IsGrantedInPhase true old r new (λ n. RetracesPageBeside page asked.now.moments old n new))) heap.old.core heap.new.core }
{
    let moments = asked.moments();
    word_to(heap.core().retrace_page_beside(page, moments), count)
}

/// Reads the lowest dirty page again. Answers 1, or 0 where no page is dirty.
#[unsafe(no_mangle)]
pub extern "C" fn mpheap_retrace(heap: &mut Heap, count: &mut u64) -> u32
    requires open { IsOpen heap.old.core }
    ensures { Holds (TellsWordOf result count.old count.new (λ old r new. IsGrantedInPhase true old r new (λ n. RetracesPage old n new))) heap.old.core heap.new.core }
{
    word_to(heap.core().retrace(), count)
}

/// Ends the cycle. Answers how many objects were forgotten.
#[unsafe(no_mangle)]
pub extern "C" fn mpheap_finish(heap: &mut Heap, count: &mut u64) -> u32
    requires open { IsOpen heap.old.core }
    ensures { Holds (TellsWordOf result count.old count.new (λ old r new. IsGrantedInPhase true old r new (λ n. EndsCycle old n new))) heap.old.core heap.new.core }
{
    word_to(heap.core().finish(), count)
}

/// Sweeps one page, if one is pending. Answers 1 if one was, and else 0.
#[unsafe(no_mangle)]
pub extern "C" fn mpheap_sweep(heap: &mut Heap, count: &mut u64) -> u32
    requires open { IsOpen heap.old.core }
    ensures { Holds (TellsWordOf result count.old count.new (λ old r new. IsAlwaysGranted r (λ n. SweepsOne old n new))) heap.old.core heap.new.core }
{
    word_to(heap.core().sweep(), count)
}

/// Drops a cycle that is marking, and forgets exactly the objects that are not reached. Answers how many.
#[unsafe(no_mangle)]
pub extern "C" fn mpheap_collect(heap: &mut Heap, count: &mut u64) -> u32
    requires open { IsOpen heap.old.core }
    ensures { Holds (TellsWordOf result count.old count.new (λ old r new. IsAlwaysGranted r (λ n. CollectsAll old n new))) heap.old.core heap.new.core }
{
    word_to(heap.core().collect(), count)
}

/// How many collections were granted, modulo 2^64.
#[unsafe(no_mangle)]
pub extern "C" fn mpheap_gc_no(heap: &mut Heap) -> u64
    requires open { IsOpen heap.old.core }
    ensures { Holds (HasCount result) heap.old.core heap.new.core }
{
    heap.core().gc_no()
}

/// Whether a cycle is marking.
#[unsafe(no_mangle)]
pub extern "C" fn mpheap_is_marking(heap: &mut Heap) -> bool
    requires open { IsOpen heap.old.core }
    ensures { Holds (HasPhase result) heap.old.core heap.new.core }
{
    heap.core().is_marking()
}

/// Whether an object that begins at this address is kept, and marked. This is no event: nothing changes.
#[unsafe(no_mangle)]
pub extern "C" fn mpheap_is_marked(heap: &mut Heap, base: u64) -> bool
    requires open { IsOpen heap.old.core }
    ensures { Holds (HasMark base result) heap.old.core heap.new.core }
{
    heap.core().is_marked(base)
}
