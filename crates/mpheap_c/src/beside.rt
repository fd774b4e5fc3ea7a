//! What stands beside the calls: words that C writes itself, and figures to pace the collector by. None of it is an event.
ghost use Rattle.heap_core.specs.DirectWrites.{TellsWritten};
ghost use Rattle.mpheap_c.specs.Handle.{IsOpen};
ghost use Rattle.mpheap_c.specs.Crossing.{Holds, HasFreePages, HasDirtyPages, HasPendingPages, HasUsedPages, TellsFreeRun};

use crate::heap::Heap;

/// Tells that C writes the word at an address itself: while a cycle is marking, the page of the address becomes dirty.
#[unsafe(no_mangle)]
pub extern "C" fn mpheap_written(heap: &mut Heap, address: u64)
    requires open { IsOpen heap.old.core }
    ensures { Holds (TellsWritten address) heap.old.core heap.new.core }
{
    heap.core().written(address);
}

/// How many pages are free: no object lies on them.
#[unsafe(no_mangle)]
pub extern "C" fn mpheap_free_pages(heap: &mut Heap) -> u32
    requires open { IsOpen heap.old.core }
    ensures { Holds (HasFreePages result) heap.old.core heap.new.core }
{
    heap.core().free_pages()
}

/// How many pages are dirty.
#[unsafe(no_mangle)]
pub extern "C" fn mpheap_dirty_pages(heap: &mut Heap) -> u32
    requires open { IsOpen heap.old.core }
    ensures { Holds (HasDirtyPages result) heap.old.core heap.new.core }
{
    heap.core().dirty_pages()
}

/// How many pages are still to be swept.
#[unsafe(no_mangle)]
pub extern "C" fn mpheap_pending_pages(heap: &mut Heap) -> u32
    requires open { IsOpen heap.old.core }
    ensures { Holds (HasPendingPages result) heap.old.core heap.new.core }
{
    heap.core().pending_pages()
}

/// The lowest run of free pages from a page on: whether there is one, its first page, and how many there are.
#[unsafe(no_mangle)]
pub extern "C" fn mpheap_free_run(
    heap: &mut Heap,
    low: u32,
    first: &mut u32,
    pages: &mut u32,
) -> bool
    requires open { IsOpen heap.old.core }
    ensures { Holds (TellsFreeRun low result first.old pages.old first.new pages.new) heap.old.core heap.new.core }
{
    match heap.core().free_run(low) {
        Some(run) => {
            *first = run.first;
            *pages = run.pages;
            true
        }
        None => false,
    }
}

/// How many pages, from the first one on, may have an object.
#[unsafe(no_mangle)]
pub extern "C" fn mpheap_used_pages(heap: &mut Heap) -> u32
    requires open { IsOpen heap.old.core }
    ensures { Holds (HasUsedPages result) heap.old.core heap.new.core }
{
    heap.core().used_pages()
}
