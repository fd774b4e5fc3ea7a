//! The calls of mutators that touch nothing but the roots.
ghost use Rattle.std.specs.Prelude.{◌<◌};
ghost use Rattle.words.specs.declared.limits.TheConstants.{SLOTS, REGISTERS, GLOBALS};
ghost use Rattle.mpheap_c.specs.Handle.{IsOpen};
ghost use Rattle.mpheap_c.specs.Crossing.{IsAnswered, IsServed, IsWordCall, IsDoneCall, IsAttached, Holds};

use crate::heap::Heap;
use crate::status::{BAD_NUMBER, done, slot_to, word_to};
use heap_spec::{Call, Event};
use words::{Global, Reg, Slot};

/// A mutator comes, into the lowest slot that has none, with registers of 0 and an empty stack.
#[unsafe(no_mangle)]
pub extern "C" fn mpheap_attach(heap: &mut Heap, slot: &mut u8) -> u32
    requires open { IsOpen heap.old.core }
    ensures { Holds (IsAttached result slot.old slot.new) heap.old.core heap.new.core }
{
    slot_to(heap.core().attach(), slot)
}

/// The mutator of the slot goes.
#[unsafe(no_mangle)]
pub extern "C" fn mpheap_detach(heap: &mut Heap, slot: u8) -> u32
    requires open { IsOpen heap.old.core }
    ensures { IsServed (slot < SLOTS) (IsDoneCall (Event.Mutator slot Call.Detach) result) result heap.old.core heap.new.core }
{
    let Some(slot) = Slot::new(slot) else {
        return BAD_NUMBER;
    };
    done(heap.core().detach(slot))
}

/// Puts a word into a register.
#[unsafe(no_mangle)]
pub extern "C" fn mpheap_set(heap: &mut Heap, slot: u8, into: u8, number: u64) -> u32
    requires open { IsOpen heap.old.core }
    ensures { IsServed ((slot < SLOTS) × (into < REGISTERS)) (IsDoneCall (Event.Mutator slot (Call.Set into number)) result) result heap.old.core heap.new.core }
{
    let (Some(slot), Some(into)) = (Slot::new(slot), Reg::new(into)) else {
        return BAD_NUMBER;
    };
    done(heap.core().set(slot, into, number))
}

/// Puts the word of `from` into `into`.
#[unsafe(no_mangle)]
pub extern "C" fn mpheap_copy(heap: &mut Heap, slot: u8, into: u8, from: u8) -> u32
    requires open { IsOpen heap.old.core }
    ensures { IsServed ((slot < SLOTS) × (into < REGISTERS) × (from < REGISTERS)) (IsDoneCall (Event.Mutator slot (Call.Copy into from)) result) result heap.old.core heap.new.core }
{
    let (Some(slot), Some(into), Some(from)) = (Slot::new(slot), Reg::new(into), Reg::new(from))
    else {
        return BAD_NUMBER;
    };
    done(heap.core().copy(slot, into, from))
}

/// Puts the word of `from` and a number, added, into `into`.
#[unsafe(no_mangle)]
pub extern "C" fn mpheap_add(heap: &mut Heap, slot: u8, into: u8, from: u8, number: u64) -> u32
    requires open { IsOpen heap.old.core }
    ensures { IsServed ((slot < SLOTS) × (into < REGISTERS) × (from < REGISTERS)) (IsDoneCall (Event.Mutator slot (Call.Add into from number)) result) result heap.old.core heap.new.core }
{
    let (Some(slot), Some(into), Some(from)) = (Slot::new(slot), Reg::new(into), Reg::new(from))
    else {
        return BAD_NUMBER;
    };
    done(heap.core().add(slot, into, from, number))
}

/// Puts the word of `from` less that of `less` into `into`.
#[unsafe(no_mangle)]
pub extern "C" fn mpheap_sub(heap: &mut Heap, slot: u8, into: u8, from: u8, less: u8) -> u32
    requires open { IsOpen heap.old.core }
    ensures { IsServed ((slot < SLOTS) × (into < REGISTERS) × (from < REGISTERS) × (less < REGISTERS)) (IsDoneCall (Event.Mutator slot (Call.Sub into from less)) result) result heap.old.core heap.new.core }
{
    let (Some(slot), Some(into), Some(from), Some(less)) = (
        Slot::new(slot),
        Reg::new(into),
        Reg::new(from),
        Reg::new(less),
    ) else {
        return BAD_NUMBER;
    };
    done(heap.core().sub(slot, into, from, less))
}

/// The word of a register.
#[unsafe(no_mangle)]
pub extern "C" fn mpheap_get(heap: &mut Heap, slot: u8, from: u8, word: &mut u64) -> u32
    requires open { IsOpen heap.old.core }
    ensures { IsAnswered ((slot < SLOTS) × (from < REGISTERS)) (IsWordCall (Event.Mutator slot (Call.Get from)) result word.old word.new) result word.old word.new heap.old.core heap.new.core }
{
    let (Some(slot), Some(from)) = (Slot::new(slot), Reg::new(from)) else {
        return BAD_NUMBER;
    };
    word_to(heap.core().get(slot, from), word)
}

/// Puts the word of a register on the stack.
#[unsafe(no_mangle)]
pub extern "C" fn mpheap_push(heap: &mut Heap, slot: u8, from: u8) -> u32
    requires open { IsOpen heap.old.core }
    ensures { IsServed ((slot < SLOTS) × (from < REGISTERS)) (IsDoneCall (Event.Mutator slot (Call.Push from)) result) result heap.old.core heap.new.core }
{
    let (Some(slot), Some(from)) = (Slot::new(slot), Reg::new(from)) else {
        return BAD_NUMBER;
    };
    done(heap.core().push(slot, from))
}

/// Takes the top word off the stack into a register.
#[unsafe(no_mangle)]
pub extern "C" fn mpheap_pop(heap: &mut Heap, slot: u8, into: u8, word: &mut u64) -> u32
    requires open { IsOpen heap.old.core }
    ensures { IsAnswered ((slot < SLOTS) × (into < REGISTERS)) (IsWordCall (Event.Mutator slot (Call.Pop into)) result word.old word.new) result word.old word.new heap.old.core heap.new.core }
{
    let (Some(slot), Some(into)) = (Slot::new(slot), Reg::new(into)) else {
        return BAD_NUMBER;
    };
    word_to(heap.core().pop(slot, into), word)
}

/// Puts the word of a global into a register.
#[unsafe(no_mangle)]
pub extern "C" fn mpheap_gget(
    heap: &mut Heap,
    slot: u8,
    into: u8,
    global: u8,
    word: &mut u64,
) -> u32
    requires open { IsOpen heap.old.core }
    ensures { IsAnswered ((slot < SLOTS) × (into < REGISTERS) × (global < GLOBALS)) (IsWordCall (Event.Mutator slot (Call.GlobalGet into global)) result word.old word.new) result word.old word.new heap.old.core heap.new.core }
{
    let (Some(slot), Some(into), Some(global)) = (
        Slot::new(slot),
        Reg::new(into),
        Global::new(global),
    ) else {
        return BAD_NUMBER;
    };
    word_to(heap.core().gget(slot, into, global), word)
}

/// Puts the word of a register into a global.
#[unsafe(no_mangle)]
pub extern "C" fn mpheap_gput(heap: &mut Heap, slot: u8, global: u8, from: u8) -> u32
    requires open { IsOpen heap.old.core }
    ensures { IsServed ((slot < SLOTS) × (global < GLOBALS) × (from < REGISTERS)) (IsDoneCall (Event.Mutator slot (Call.GlobalPut global from)) result) result heap.old.core heap.new.core }
{
    let (Some(slot), Some(global), Some(from)) = (
        Slot::new(slot),
        Global::new(global),
        Reg::new(from),
    ) else {
        return BAD_NUMBER;
    };
    done(heap.core().gput(slot, global, from))
}
