//! The marking of a cycle is shared by threads of C: the heap's core is lent to a round of helpers, whose shares go to as many threads, come
//! back, and are gathered.
ghost use Rattle.std.specs.Prelude.{◌≡◌, ◌⊎◌, None};
ghost use Rattle.heap_core.specs.Sharing.{Sharing, IsSameRound};
ghost use Rattle.mpheap_c.specs.Handle.{IsOpen};
ghost use Rattle.mpheap_c.specs.Sharing.{Stands, IsEmptyPlace, IsShared, IsHired, IsHelped, IsJoined, IsGathered};

use crate::crew::{Crew, Place};
use crate::handle::Handle;
use crate::heap::Heap;
use crate::status::{BAD_NUMBER, NO_MEMORY, WRONG_PHASE};
use final_pause::Helpers;
use heap_core::{NotLent, Shares};
use std::alloc::Global;
use std::mem::replace;

/// Opens a place for shares, where none stand yet.
#[unsafe(no_mangle)]
pub extern "C" fn mpheap_shares_open(alloc: Global, some: &mut Crew) -> u32
    requires closed { some.old.place ≡ None }
    ensures opened { result ≡ 0 → IsEmptyPlace some.new.place }
    ensures refused { result ≡ 102 → some.new.place ≡ None }
    ensures either { (result ≡ 0) ⊎ (result ≡ 102) }
{
    let Ok(boxed) = Box::new(alloc, Place { shares: None }) else {
        return NO_MEMORY;
    };
    replace(some.inside(), Handle::of(boxed)).let_go();
    0
}

/// Closes a place. Shares that stand there are dropped, and with the last of a round the heap.
#[unsafe(no_mangle)]
pub extern "C" fn mpheap_shares_close(alloc: Global, some: &mut Crew)
    requires open { IsOpen some.old.place }
    ensures closed { some.new.place ≡ None }
{
    replace(some.inside(), Handle::closed(alloc)).close();
}

/// Lends the heap's core to so many helpers. All that waits to be read is dealt to their shares, and the heap is closed until they are
/// gathered.
#[unsafe(no_mangle)]
pub extern "C" fn mpheap_share(alloc: Global, heap: &mut Heap, helpers: u8, all: &mut Crew) -> u32
    requires open { IsOpen heap.old.core }
    requires place { IsOpen all.old.place }
    ensures { IsShared helpers result heap.old.core all.old.place heap.new.core all.new.place }
{
    let Some(helpers) = Helpers::new(helpers) else {
        return BAD_NUMBER;
    };
    let place = all.place();
    if place.shares.is_some() {
        return BAD_NUMBER;
    }
    let core = replace(heap.inside(), Handle::closed(alloc)).into_box();
    match Shares::lend(alloc, core, helpers) {
        Ok(shares) => {
            place.shares = Some(shares);
            0
        }
        Err((core, why)) => {
            replace(heap.inside(), Handle::of(core)).let_go();
            match why {
                NotLent::WrongPhase => WRONG_PHASE,
                NotLent::Memory => NO_MEMORY,
            }
        }
    }
}

/// Takes the last share out, to another place, for another thread.
#[unsafe(no_mangle)]
pub extern "C" fn mpheap_hire(alloc: Global, all: &mut Crew, one: &mut Crew) -> u32
    requires open { IsOpen all.old.place }
    requires place { IsOpen one.old.place }
    ensures { IsHired result all.old.place one.old.place all.new.place one.new.place }
{
    let place = one.place();
    if place.shares.is_some() {
        return BAD_NUMBER;
    }
    let Some(shares) = &mut all.place().shares else {
        return BAD_NUMBER;
    };
    match shares.hire(alloc) {
        Ok(Some(hired)) => {
            place.shares = Some(hired);
            0
        }
        Ok(None) => BAD_NUMBER,
        Err(_) => NO_MEMORY,
    }
}

/// Does the shares that stand there, of each until about so many words were read, and answers how many that were. It takes no memory, and
/// calls of several threads, each with a place of its own, may run at the same time.
#[unsafe(no_mangle)]
pub extern "C" fn mpheap_help(some: &mut Crew, most: u64) -> u64
    requires open { IsOpen some.old.place }
    ensures { IsHelped most result some.old.place some.new.place }
{
    match &mut some.place().shares {
        Some(shares) => shares.help(most),
        None => 0,
    }
}

/// Takes shares of the same round back behind those that stand there. It takes no memory.
#[unsafe(no_mangle)]
pub extern "C" fn mpheap_join(all: &mut Crew, one: &mut Crew) -> u32
    requires open { IsOpen all.old.place }
    requires place { IsOpen one.old.place }
    requires same { (s t : Sharing) → Stands all.old.place s → Stands one.old.place t → IsSameRound s t }
    ensures { IsJoined result all.old.place one.old.place all.new.place one.new.place }
{
    let Some(shares) = &mut all.place().shares else {
        return BAD_NUMBER;
    };
    let place = one.place();
    let Some(other) = place.shares.take() else {
        return BAD_NUMBER;
    };
    match shares.join(other) {
        Ok(()) => 0,
        Err(back) => {
            place.shares = Some(back);
            BAD_NUMBER
        }
    }
}

/// Puts together what the helpers of a round won and left, and opens the heap again. Shares that aren't done are done first.
#[unsafe(no_mangle)]
pub extern "C" fn mpheap_gather(all: &mut Crew, heap: &mut Heap) -> u32
    requires open { IsOpen all.old.place }
    requires closed { heap.old.core ≡ None }
    ensures { IsGathered result all.old.place all.new.place heap.new.core }
{
    let place = all.place();
    let Some(shares) = place.shares.take() else {
        return BAD_NUMBER;
    };
    match shares.gather() {
        Ok(core) => {
            replace(heap.inside(), Handle::of(core)).let_go();
            0
        }
        Err(back) => {
            place.shares = Some(back);
            BAD_NUMBER
        }
    }
}
