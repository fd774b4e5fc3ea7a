//! The numbers of an event are in range, since their types say so.
ghost use Rattle.heap_spec.specs.Ranges.{CallInRange, InRange};

use heap_spec::{Call, Event};

// Of a call.
fn call_in_range(call: &Call)
    ensures { CallInRange call.now }
{
    match call {
        Call::Detach => {}
        Call::Get(a) | Call::Push(a) | Call::Pop(a) | Call::Free(a) | Call::Size(a) => {
            a.number();
        }
        Call::Copy(a, b) | Call::Base(a, b) => {
            a.number();
            b.number();
        }
        Call::Sub(a, b, d) => {
            a.number();
            b.number();
            d.number();
        }
        Call::Set(a, w) | Call::Alloc(a, w, _) => {
            a.number();
            let _word = *w;
        }
        Call::Add(a, b, w) | Call::Load(a, b, w) | Call::Store(a, w, b) => {
            a.number();
            b.number();
            let _word = *w;
        }
        Call::Link(a, w, b) => {
            a.number();
            b.number();
            let _word = *w;
        }
        Call::Unlink(a, w) => {
            a.number();
            let _word = *w;
        }
        Call::GlobalGet(a, g) | Call::GlobalPut(g, a) => {
            a.number();
            g.number();
        }
    }
}

// Of an event.
pub(crate) fn in_range(event: &Event)
    ensures { InRange event.now }
{
    match event {
        Event::Mutator(slot, call) => {
            slot.number();
            call_in_range(call);
        }
        Event::Mark(words) => {
            let _words = *words;
        }
        Event::Attach => {}
        Event::Begin => {}
        Event::BeginPartial => {}
        Event::Roots => {}
        Event::Retrace => {}
        Event::Finish => {}
        Event::Sweep => {}
        Event::Collect => {}
        Event::Number => {}
    }
}
