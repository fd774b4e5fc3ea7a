//! A heap is opened and closed.
ghost use Rattle.std.specs.Prelude.{◌≡◌, None};
ghost use denote.RawPtr.{null_ptr};
ghost use Rattle.mpheap_c.specs.Handle.{IsOpen};
ghost use Rattle.mpheap_c.specs.Crossing.{IsOpenedAs, IsOpenedWith};

use crate::handle::Handle;
use crate::heap::Heap;
use crate::status::{BAD_PAGES, NO_MEMORY};
use heap_core::{Core, Limits};
use std::alloc::Global;
use std::mem::replace;
use words::OpenError;
use words::limits::MOST_REQUEST_WORDS;

/// Opens a heap.
#[unsafe(no_mangle)]
pub extern "C" fn mpheap_open(alloc: Global, pages: u32, heap: &mut Heap) -> u32
    requires closed { heap.old.core ≡ None }
    ensures { IsOpenedAs pages result heap.old.core heap.new.core }
{
    match Core::new(alloc, pages) {
        Ok(core) => match Box::new(alloc, core) {
            Ok(boxed) => {
                replace(heap.inside(), Handle::of(boxed)).let_go();
                0
            }
            Err(_) => NO_MEMORY,
        },
        Err(OpenError::BadPages) => BAD_PAGES,
        Err(OpenError::Memory) => NO_MEMORY,
    }
}

/// Opens a heap with limits of its own.
#[unsafe(no_mangle)]
pub extern "C" fn mpheap_open_with(
    alloc: Global,
    pages: u32,
    request_words: u64,
    heap: &mut Heap,
) -> u32
    requires closed { heap.old.core ≡ None }
    ensures { IsOpenedWith pages request_words result heap.old.core heap.new.core }
{
    if request_words > MOST_REQUEST_WORDS {
        return BAD_PAGES;
    }
    let limits = Limits {
        pages,
        request_words,
    };
    match Core::open(alloc, limits) {
        Ok(core) => match Box::new(alloc, core) {
            Ok(boxed) => {
                replace(heap.inside(), Handle::of(boxed)).let_go();
                0
            }
            Err(_) => NO_MEMORY,
        },
        Err(OpenError::BadPages) => BAD_PAGES,
        Err(OpenError::Memory) => NO_MEMORY,
    }
}

/// Closes a heap: its memory is freed, and the handle is closed, with a null address.
#[unsafe(no_mangle)]
pub extern "C" fn mpheap_close(alloc: Global, heap: &mut Heap)
    requires open { IsOpen heap.old.core }
    ensures closed { heap.new.core ≡ None }
    ensures null { heap.new.at ≡ null_ptr }
{
    replace(heap.inside(), Handle::closed(alloc)).close();
}
