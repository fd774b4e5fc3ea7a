//! What words of a generator draw.
ghost use Rattle.std.specs.Prelude.{◌≡◌, ◌<◌, ◌≤◌, ◌%◌, Some, slice_get};
ghost use Rattle.words.specs.declared.limits.TheConstants.{SLOTS};
ghost use Rattle.workloads.specs.Draws.{drawn, drawn_calls, drawn_collections};

use heap_spec::{Call, Event};
use words::{Global, Kind, Reg, Slot};

// The register that a word draws.
fn register(word: u32) -> Reg
    ensures { result ≡ word % 16 }
{
    let Some(register) = Reg::new((word % 16) as u8) else {
        unreachable!()
    };
    register
}

// The global that a word draws.
fn global(word: u32) -> Global
    ensures { result ≡ word % 64 }
{
    let Some(global) = Global::new((word % 64) as u8) else {
        unreachable!()
    };
    global
}

// A call, by its number.
fn call(number: u32, p: Reg, q: Reg, x: u32) -> Call
    requires { number < 16 }
    ensures { slice_get (drawn_calls p q x) number ≡ Some result }
{
    let few = u64::from(1 + x % 40);
    let many = u64::from(200 + x % 400);
    let offset = u64::from(x % 4);
    match number {
        0 | 1 => Call::Alloc(p, few, Kind::Normal),
        2 => Call::Alloc(p, few, Kind::PointerFree),
        3 => Call::Alloc(p, many, Kind::Normal),
        4 | 5 | 6 => Call::Load(p, q, offset),
        7 | 8 | 9 => Call::Store(p, offset, q),
        10 => Call::Copy(p, q),
        11 => Call::Set(p, 0),
        12 => Call::Push(p),
        13 => Call::Pop(p),
        14 => Call::Free(p),
        15 => Call::GlobalPut(global(x), p),
        _ => unreachable!(),
    }
}

// A command of the collector, by its number.
fn collection(number: u32, x: u32) -> Event
    requires { number < 8 }
    ensures { slice_get (drawn_collections x) number ≡ Some result }
{
    match number {
        0 => Event::Begin,
        1 => Event::Roots,
        2 | 3 => Event::Mark(u64::from(1 + x % 64)),
        4 => Event::Retrace,
        5 => Event::Finish,
        6 => Event::Sweep,
        7 => Event::Collect,
        _ => unreachable!(),
    }
}

/// The command that four words draw.
pub(crate) fn draw(mutators: u8, x0: u32, x1: u32, x2: u32, x3: u32) -> Event
    requires { mutators ≤ SLOTS }
    ensures { result ≡ drawn mutators x0 x1 x2 x3 }
{
    let mutators = u32::from(mutators);
    let actor = x0 % (mutators + 1);
    if actor < mutators {
        let Some(slot) = Slot::new(actor as u8) else {
            unreachable!()
        };
        Event::Mutator(slot, call(x1 % 16, register(x2), register(x2 / 16), x3))
    } else {
        collection(x1 % 8, x3)
    }
}
