//! The flags of the touched objects and of the old ones, as a replayer has them.
ghost use Rattle.std.specs.Prelude.{◌≡◌, IsTrue, true, false, length};
ghost use Rattle.plain_heap.specs.Flags.{FlagsReached, FlagsLed, FlagsBrought, ForgetsUnflagged, CantForget};
ghost use Rattle.plain_heap.specs.Aging.{FlagsAll, FlagUnset, FlagsClosure};
ghost use Rattle.plain_heap.specs.Wrongs.{TellsUnforgotten};

use heap_spec::Call;
use plain_heap::{PlainHeap, Wrong};
use words::Slot;

// Sets the flags of what is reached, and no other.
pub(crate) fn flag_begin(heap: &mut PlainHeap, flags: &mut Vec<bool>)
    ensures flags { FlagsReached heap.old flags.new.items }
    ensures size { length flags.new.items ≡ length flags.old.items }
    ensures same { heap.new ≡ heap.old }
{
    heap.flag_reached(flags);
}

// Sets the flags of what roots or the old objects lead to, and no other.
pub(crate) fn flag_partial(heap: &mut PlainHeap, aged: &Vec<bool>, flags: &mut Vec<bool>)
    ensures flags { FlagsClosure heap.old aged.now.items flags.new.items }
    ensures size { length flags.new.items ≡ length flags.old.items }
    ensures same { heap.new ≡ heap.old }
{
    heap.flag_closure(aged, flags);
}

// All objects are old.
pub(crate) fn age_all(heap: &PlainHeap, aged: &mut Vec<bool>)
    ensures flags { FlagsAll heap.now aged.new.items }
    ensures size { length aged.new.items ≡ length aged.old.items }
{
    heap.flag_all(aged);
}

// The object at this base is new.
pub(crate) fn renew(heap: &PlainHeap, base: u64, aged: &mut Vec<bool>)
    ensures { FlagUnset heap.now base aged.old.items aged.new.items }
{
    heap.unflag(base, aged);
}

// Sets the flags of what a call brought, while a cycle marks.
pub(crate) fn flag_call(
    marking: bool,
    heap: &mut PlainHeap,
    slot: Slot,
    call: &Call,
    flags: &mut Vec<bool>,
)
    ensures flags { marking ≡ true → FlagsBrought heap.old slot call.now flags.old.items flags.new.items }
    ensures size { length flags.new.items ≡ length flags.old.items }
    ensures same { heap.new ≡ heap.old }
{
    if !marking {
        return;
    }
    heap.flag_brought(slot, call, flags);
}

// Sets the flags of what a word leads to, while a cycle marks.
pub(crate) fn flag_place(marking: bool, heap: &mut PlainHeap, word: u64, flags: &mut Vec<bool>)
    ensures flags { marking ≡ true → FlagsLed heap.old word flags.old.items flags.new.items }
    ensures size { length flags.new.items ≡ length flags.old.items }
    ensures same { heap.new ≡ heap.old }
{
    if !marking {
        return;
    }
    heap.flag_led(word, flags);
}

// Takes out the objects with these bases, among them each without a flag.
pub(crate) fn forget(heap: &mut PlainHeap, bases: &[u64], flags: &Vec<bool>) -> bool
    ensures yes { IsTrue result → ForgetsUnflagged heap.old flags.now.items bases.now heap.new }
    ensures no { result ≡ false → CantForget heap.old flags.now.items bases.now }
    ensures same { result ≡ false → heap.new ≡ heap.old }
    ensures origin { heap.new.origin ≡ heap.old.origin }
{
    heap.forget(bases, flags)
}

// What is wrong where the end of a cycle is said to have taken out the objects with these bases.
pub(crate) fn wrong_forgotten(
    heap: &mut PlainHeap,
    bases: &[u64],
    flags: &Vec<bool>,
) -> Option<Wrong>
    ensures wrong { TellsUnforgotten heap.old flags.now.items bases.now result }
    ensures same { heap.new ≡ heap.old }
{
    heap.wrong_forgotten(bases, flags)
}
