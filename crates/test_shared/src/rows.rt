//! Worked rows through a shared heap, in one thread: those of `tests/rows` named `hidden_pointer`,
//! `retrace_after_store`, `sweep_two_blocks` and `nothing_is_set`.
ghost use Rattle.std.specs.Prelude.{◌≡◌};

use crate::serve::{Actors, leave, reg, serve};
use heap_core::Core;
use heap_spec::{Call, Event, Reply};
use history::{Naming, Opened};
use shared::{SharedHeap, open};
use std::marker::Brand;
use std::process::Abort;
use std::sync::Wait;
use std::test::Fail;
use words::limits::{FIRST_ADDRESS, PAGE_BYTES};
use words::{Kind, Slot};

// The pages of the row's heap.
const PAGES: u32 = 4;

// The address at which it ends.
const END: u64 = FIRST_ADDRESS + PAGES as u64 * PAGE_BYTES;

// What a command is to be answered.
#[derive(Clone, Copy)]
enum Wanted {
    Is(Reply),
    /// An address of the heap.
    Pointer,
}

impl Wanted {
    fn fits(self, reply: Reply) -> bool {
        match self {
            Wanted::Is(wanted) => reply == wanted,
            Wanted::Pointer =>
                matches!(reply, Reply::Word(word) if word >= FIRST_ADDRESS && word < END),
        }
    }
}

const OK: Wanted = Wanted::Is(Reply::Done);

fn count(number: u64) -> Wanted {
    Wanted::Is(Reply::Count(number))
}

fn word(word: u64) -> Wanted {
    Wanted::Is(Reply::Word(word))
}

// The first line that is not answered as it is to be.
fn first_wrong<J: Naming>(
    rt: &impl Wait,
    heap: &SharedHeap<J>,
    actors: &mut Actors<J>,
    row: &[(Event, Wanted)],
) -> Option<usize> {
    for i in 0..row.len() {
        let (event, wanted) = row[i];
        if !wanted.fits(serve(rt, heap, actors, event)) {
            return Some(i);
        }
    }
    None
}

// Runs a row on a heap of its own.
fn check<J: Naming, R: Wait + Abort>(rt: &R, opened: Opened<Core>, row: &[(Event, Wanted)])
    requires { (opened.table ≡ J.table) × (opened.origin ≡ J.origin) }
{
    let (heap, collector) = SharedHeap::<J>::named(opened);
    let me = heap.attach(rt).ok().expect(rt, "a slot");
    let mut actors = Actors { me, collector };
    let wrong = first_wrong(rt, &heap, &mut actors, row);
    leave(rt, &heap, actors);
    assert_eq!(rt; wrong, None);
}

// The row's one mutator comes, to this slot.
fn comes(slot: Slot) -> (Event, Wanted) {
    (Event::Attach, Wanted::Is(Reply::Slot(slot)))
}

// A call of the row's one mutator.
fn call(slot: Slot, call: Call) -> Event {
    Event::Mutator(slot, call)
}

fn hidden_pointer(slot: Slot) -> [(Event, Wanted); 18] {
    let (a, b, c) = (reg(4), reg(2), reg(1));
    [
        comes(slot),
        (call(slot, Call::Alloc(c, 2, Kind::Normal)), OK),
        (call(slot, Call::Alloc(a, 2, Kind::Normal)), OK),
        (call(slot, Call::Alloc(b, 2, Kind::Normal)), OK),
        (call(slot, Call::Set(reg(5), 77)), OK),
        (call(slot, Call::Store(b, 0, reg(5))), OK),
        (call(slot, Call::Store(c, 0, b)), OK),
        (call(slot, Call::Set(b, 0)), OK),
        (Event::Begin, OK),
        (Event::Roots, OK),
        (Event::Mark(2), count(2)),
        (call(slot, Call::Load(reg(6), c, 0)), Wanted::Pointer),
        (call(slot, Call::Store(a, 0, reg(6))), OK),
        (call(slot, Call::Store(c, 0, b)), OK),
        (call(slot, Call::Set(reg(6), 0)), OK),
        (Event::Finish, count(0)),
        (call(slot, Call::Load(reg(6), a, 0)), Wanted::Pointer),
        (call(slot, Call::Load(reg(7), reg(6), 0)), word(77)),
    ]
}

#[test]
fn the_hidden_pointer_stays(rt: HostRuntime) -> Result<(), Fail> {
    let slot = Slot::new(0).ok_or("a slot")?;
    let opened = open(rt.alloc(), PAGES).ok().ok_or("a heap")?;
    check::<Brand, _>(&rt, opened, &hidden_pointer(slot));
    Ok(())
}

fn retrace_after_store(slot: Slot) -> [(Event, Wanted); 8] {
    [
        comes(slot),
        (call(slot, Call::Alloc(reg(1), 2, Kind::Normal)), OK),
        (Event::Begin, OK),
        (Event::Retrace, count(0)),
        (call(slot, Call::Store(reg(1), 0, reg(1))), OK),
        (Event::Retrace, count(1)),
        (Event::Retrace, count(0)),
        (Event::Finish, count(0)),
    ]
}

#[test]
fn a_page_that_was_stored_to_is_retraced(rt: HostRuntime) -> Result<(), Fail> {
    let slot = Slot::new(0).ok_or("a slot")?;
    let opened = open(rt.alloc(), PAGES).ok().ok_or("a heap")?;
    check::<Brand, _>(&rt, opened, &retrace_after_store(slot));
    Ok(())
}

fn sweep_two_blocks(slot: Slot) -> [(Event, Wanted); 9] {
    [
        comes(slot),
        (call(slot, Call::Alloc(reg(1), 2, Kind::Normal)), OK),
        (call(slot, Call::Alloc(reg(1), 4, Kind::Normal)), OK),
        (call(slot, Call::Set(reg(1), 0)), OK),
        (Event::Begin, OK),
        (Event::Finish, count(2)),
        (Event::Sweep, count(1)),
        (Event::Sweep, count(1)),
        (Event::Sweep, count(0)),
    ]
}

#[test]
fn pending_pages_are_swept_one_by_one(rt: HostRuntime) -> Result<(), Fail> {
    let slot = Slot::new(0).ok_or("a slot")?;
    let opened = open(rt.alloc(), PAGES).ok().ok_or("a heap")?;
    check::<Brand, _>(&rt, opened, &sweep_two_blocks(slot));
    Ok(())
}

fn nothing_is_set(slot: Slot) -> [(Event, Wanted); 2] {
    [comes(slot), (call(slot, Call::Get(reg(1))), word(0))]
}

#[test]
fn a_new_mutator_has_words_of_0(rt: HostRuntime) -> Result<(), Fail> {
    let slot = Slot::new(0).ok_or("a slot")?;
    let opened = open(rt.alloc(), PAGES).ok().ok_or("a heap")?;
    check::<Brand, _>(&rt, opened, &nothing_is_set(slot));
    Ok(())
}
