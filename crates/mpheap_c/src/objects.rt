//! The calls of mutators that reach objects.
ghost use Rattle.std.specs.Prelude.{◌<◌};
ghost use Rattle.words.specs.declared.limits.TheConstants.{SLOTS, REGISTERS};
ghost use Rattle.mpheap_c.specs.Handle.{IsOpen};
ghost use Rattle.mpheap_c.specs.Crossing.{IsAnswered, IsServed, IsWordCall, IsBaseCall, IsDoneCall, IsCountCall, Holds, FindsAt};

use crate::heap::Heap;
use crate::status::{BAD_NUMBER, NO_OBJECT, done, word_to};
use heap_spec::{Call, Event};
use words::{Kind, Reg, Slot};

/// Loads the word at the address of `at` and an offset in words into `into`.
#[unsafe(no_mangle)]
pub extern "C" fn mpheap_load(
    heap: &mut Heap,
    slot: u8,
    into: u8,
    at: u8,
    offset: u64,
    word: &mut u64,
) -> u32
    requires open { IsOpen heap.old.core }
    ensures { IsAnswered ((slot < SLOTS) × (into < REGISTERS) × (at < REGISTERS)) (IsWordCall (Event.Mutator slot (Call.Load into at offset)) result word.old word.new) result word.old word.new heap.old.core heap.new.core }
{
    let (Some(slot), Some(into), Some(at)) = (Slot::new(slot), Reg::new(into), Reg::new(at)) else {
        return BAD_NUMBER;
    };
    word_to(heap.core().load(slot, into, at, offset), word)
}

/// Stores the word of `from` at the address of `at` and an offset in words.
#[unsafe(no_mangle)]
pub extern "C" fn mpheap_store(heap: &mut Heap, slot: u8, at: u8, offset: u64, from: u8) -> u32
    requires open { IsOpen heap.old.core }
    ensures { IsServed ((slot < SLOTS) × (at < REGISTERS) × (from < REGISTERS)) (IsDoneCall (Event.Mutator slot (Call.Store at offset from)) result) result heap.old.core heap.new.core }
{
    let (Some(slot), Some(at), Some(from)) = (Slot::new(slot), Reg::new(at), Reg::new(from)) else {
        return BAD_NUMBER;
    };
    done(heap.core().store(slot, at, offset, from))
}

/// Sets `into` to the base of the object that `from` points into.
#[unsafe(no_mangle)]
pub extern "C" fn mpheap_base(heap: &mut Heap, slot: u8, into: u8, from: u8, word: &mut u64) -> u32
    requires open { IsOpen heap.old.core }
    ensures { IsAnswered ((slot < SLOTS) × (into < REGISTERS) × (from < REGISTERS)) (IsWordCall (Event.Mutator slot (Call.Base into from)) result word.old word.new) result word.old word.new heap.old.core heap.new.core }
{
    let (Some(slot), Some(into), Some(from)) = (Slot::new(slot), Reg::new(into), Reg::new(from))
    else {
        return BAD_NUMBER;
    };
    word_to(heap.core().base(slot, into, from), word)
}

/// The words of the object that a register points into.
#[unsafe(no_mangle)]
pub extern "C" fn mpheap_size(heap: &mut Heap, slot: u8, from: u8, count: &mut u64) -> u32
    requires open { IsOpen heap.old.core }
    ensures { IsAnswered ((slot < SLOTS) × (from < REGISTERS)) (IsCountCall (Event.Mutator slot (Call.Size from)) result count.old count.new) result count.old count.new heap.old.core heap.new.core }
{
    let (Some(slot), Some(from)) = (Slot::new(slot), Reg::new(from)) else {
        return BAD_NUMBER;
    };
    word_to(heap.core().size(slot, from), count)
}

/// Allocates an object of at least so many words, all 0, and puts its base into `into`.
#[unsafe(no_mangle)]
pub extern "C" fn mpheap_alloc(heap: &mut Heap, slot: u8, into: u8, words: u64) -> u32
    requires open { IsOpen heap.old.core }
    ensures { IsServed ((slot < SLOTS) × (into < REGISTERS)) (IsDoneCall (Event.Mutator slot (Call.Alloc into words Kind.Normal)) result) result heap.old.core heap.new.core }
{
    let (Some(slot), Some(into)) = (Slot::new(slot), Reg::new(into)) else {
        return BAD_NUMBER;
    };
    done(heap.core().alloc(slot, into, words, Kind::Normal))
}

/// The same of an object whose words the collector never reads.
#[unsafe(no_mangle)]
pub extern "C" fn mpheap_alloc_pointer_free(heap: &mut Heap, slot: u8, into: u8, words: u64) -> u32
    requires open { IsOpen heap.old.core }
    ensures { IsServed ((slot < SLOTS) × (into < REGISTERS)) (IsDoneCall (Event.Mutator slot (Call.Alloc into words Kind.PointerFree)) result) result heap.old.core heap.new.core }
{
    let (Some(slot), Some(into)) = (Slot::new(slot), Reg::new(into)) else {
        return BAD_NUMBER;
    };
    done(heap.core().alloc(slot, into, words, Kind::PointerFree))
}

/// As `mpheap_alloc`, and it answers the base too.
#[unsafe(no_mangle)]
pub extern "C" fn mpheap_alloc_base(
    heap: &mut Heap,
    slot: u8,
    into: u8,
    words: u64,
    base: &mut u64,
) -> u32
    requires open { IsOpen heap.old.core }
    ensures { IsAnswered ((slot < SLOTS) × (into < REGISTERS)) (IsBaseCall (Event.Mutator slot (Call.Alloc into words Kind.Normal)) slot into result base.old base.new) result base.old base.new heap.old.core heap.new.core }
{
    let (Some(slot), Some(into)) = (Slot::new(slot), Reg::new(into)) else {
        return BAD_NUMBER;
    };
    word_to(
        heap.core().alloc_base(slot, into, words, Kind::Normal),
        base,
    )
}

/// As `mpheap_alloc_pointer_free`, and it answers the base too.
#[unsafe(no_mangle)]
pub extern "C" fn mpheap_alloc_pointer_free_base(
    heap: &mut Heap,
    slot: u8,
    into: u8,
    words: u64,
    base: &mut u64,
) -> u32
    requires open { IsOpen heap.old.core }
    ensures { IsAnswered ((slot < SLOTS) × (into < REGISTERS)) (IsBaseCall (Event.Mutator slot (Call.Alloc into words Kind.PointerFree)) slot into result base.old base.new) result base.old base.new heap.old.core heap.new.core }
{
    let (Some(slot), Some(into)) = (Slot::new(slot), Reg::new(into)) else {
        return BAD_NUMBER;
    };
    word_to(
        heap.core().alloc_base(slot, into, words, Kind::PointerFree),
        base,
    )
}

/// Frees the object whose base a register has.
#[unsafe(no_mangle)]
pub extern "C" fn mpheap_free(heap: &mut Heap, slot: u8, base: u8) -> u32
    requires open { IsOpen heap.old.core }
    ensures { IsServed ((slot < SLOTS) × (base < REGISTERS)) (IsDoneCall (Event.Mutator slot (Call.Free base)) result) result heap.old.core heap.new.core }
{
    let (Some(slot), Some(base)) = (Slot::new(slot), Reg::new(base)) else {
        return BAD_NUMBER;
    };
    done(heap.core().free(slot, base))
}

/// The base and the words of the kept object that a word points into. This is no event: nothing changes.
#[unsafe(no_mangle)]
pub extern "C" fn mpheap_kept_at(heap: &mut Heap, word: u64, base: &mut u64, words: &mut u64) -> u32
    requires open { IsOpen heap.old.core }
    ensures { Holds (FindsAt word result base.old words.old base.new words.new) heap.old.core heap.new.core }
{
    match heap.core().kept_at(word) {
        Some(found) => {
            *base = found.base;
            *words = u64::from(found.len);
            0
        }
        None => NO_OBJECT,
    }
}
