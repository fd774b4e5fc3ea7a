//! A heap whose opening was refused memory.
use heap_core::Core;
use std::alloc::Global;
use std::process::Abort;
use std::test::Fail;
use words::limits::PAGE_WORDS;
use words::{Kind, OpenError, Reg, Slot};

// A heap of four pages, opened again where memory is refused.
fn open_again(alloc: Global) -> Result<Core, OpenError> {
    match Core::new(alloc, 4) {
        Err(OpenError::Memory) => Core::new(alloc, 4),
        answer => answer,
    }
}

// How many of five objects of a page have room.
fn granted(core: &mut Core, slot: Slot, into: Reg) -> u32 {
    let mut granted: u32 = 0;
    for _ in 0..5 {
        if core.alloc(slot, into, PAGE_WORDS, Kind::Normal).is_ok() {
            granted = granted.wrapping_add(1);
        }
    }
    granted
}

// A heap of four pages has room for one object of a page on each, and for no more.
fn is_filled_by_pages(rt: &impl Abort, core: &mut Core) -> Result<(), Fail> {
    let slot = core.attach().ok().ok_or("a mutator")?;
    let into = Reg::new(0).ok_or("a register")?;
    assert_eq!(rt; granted(core, slot, into), 4);
    Ok(())
}

/// Where memory is refused, at whichever request, the answer is that, and the same call made again opens a heap. By itself this runs
/// with ample memory; `rt try --test --fail-alloc N` refuses the N-th request.
#[test]
fn a_refused_heap_can_be_opened_again(rt: HostRuntime) -> Result<(), Fail> {
    let mut core = open_again(rt.alloc()).ok().ok_or("a heap")?;
    is_filled_by_pages(&rt, &mut core)
}
