//! The calls of mutators on links.
ghost use Rattle.std.specs.Prelude.{◌<◌};
ghost use Rattle.words.specs.declared.limits.TheConstants.{SLOTS, REGISTERS};
ghost use Rattle.mpheap_c.specs.Handle.{IsOpen};
ghost use Rattle.mpheap_c.specs.Crossing.{IsAnswered, IsServed, IsDoneCall, IsCountCall};

use crate::heap::Heap;
use crate::status::{BAD_NUMBER, done, word_to};
use heap_spec::{Call, Event};
use words::{Reg, Slot};

/// Makes the word at the address of `at` and an offset in words a link to the object that `to` points into.
#[unsafe(no_mangle)]
pub extern "C" fn mpheap_link(heap: &mut Heap, slot: u8, at: u8, offset: u64, to: u8) -> u32
    requires open { IsOpen heap.old.core }
    ensures { IsServed ((slot < SLOTS) × (at < REGISTERS) × (to < REGISTERS)) (IsDoneCall (Event.Mutator slot (Call.Link at offset to)) result) result heap.old.core heap.new.core }
{
    let (Some(slot), Some(at), Some(to)) = (Slot::new(slot), Reg::new(at), Reg::new(to)) else {
        return BAD_NUMBER;
    };
    done(heap.core().link(slot, at, offset, to))
}

/// Takes the link at the address of `at` and an offset in words away, and counts it.
#[unsafe(no_mangle)]
pub extern "C" fn mpheap_unlink(
    heap: &mut Heap,
    slot: u8,
    at: u8,
    offset: u64,
    count: &mut u64,
) -> u32
    requires open { IsOpen heap.old.core }
    ensures { IsAnswered ((slot < SLOTS) × (at < REGISTERS)) (IsCountCall (Event.Mutator slot (Call.Unlink at offset)) result count.old count.new) result count.old count.new heap.old.core heap.new.core }
{
    let (Some(slot), Some(at)) = (Slot::new(slot), Reg::new(at)) else {
        return BAD_NUMBER;
    };
    word_to(heap.core().unlink(slot, at, offset), count)
}
