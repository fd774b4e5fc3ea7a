//! Many objects by one call.
ghost use Rattle.std.specs.Prelude.{◌≡◌, ◌<◌};
ghost use Rattle.words.specs.declared.limits.TheConstants.{SLOTS, REGISTERS};
ghost use Rattle.mpheap_c.specs.Handle.{IsOpen};
ghost use Rattle.mpheap_c.specs.Crossing.{IsAnswered};
ghost use Rattle.mpheap_c.specs.Many.{IsManyCall};

use crate::heap::Heap;
use crate::status::{BAD_NUMBER, done};
use heap_core::Request;
use words::{Kind, Reg, Slot};

/// Allocates objects of at least so many words, all 0, one after the other, as many as there is room for bases, and puts the base of
/// the last one into `into`.
#[unsafe(no_mangle)]
pub extern "C" fn mpheap_alloc_many(
    heap: &mut Heap,
    slot: u8,
    into: u8,
    words: u64,
    bases: &mut [u64],
    count: &mut u64,
) -> u32
    requires open { IsOpen heap.old.core }
    ensures call { IsAnswered ((slot < SLOTS) × (into < REGISTERS)) (IsManyCall slot into words Kind.Normal result bases.old bases.new count.new) result count.old count.new heap.old.core heap.new.core }
    ensures bad { result ≡ 100 → bases.new ≡ bases.old }
{
    let (Some(slot), Some(into)) = (Slot::new(slot), Reg::new(into)) else {
        return BAD_NUMBER;
    };
    let request = Request {
        into,
        words,
        kind: Kind::Normal,
    };
    done(heap.core().alloc_many(slot, &request, bases, count))
}

/// The same of objects whose words the collector never reads.
#[unsafe(no_mangle)]
pub extern "C" fn mpheap_alloc_pointer_free_many(
    heap: &mut Heap,
    slot: u8,
    into: u8,
    words: u64,
    bases: &mut [u64],
    count: &mut u64,
) -> u32
    requires open { IsOpen heap.old.core }
    ensures call { IsAnswered ((slot < SLOTS) × (into < REGISTERS)) (IsManyCall slot into words Kind.PointerFree result bases.old bases.new count.new) result count.old count.new heap.old.core heap.new.core }
    ensures bad { result ≡ 100 → bases.new ≡ bases.old }
{
    let (Some(slot), Some(into)) = (Slot::new(slot), Reg::new(into)) else {
        return BAD_NUMBER;
    };
    let request = Request {
        into,
        words,
        kind: Kind::PointerFree,
    };
    done(heap.core().alloc_many(slot, &request, bases, count))
}
