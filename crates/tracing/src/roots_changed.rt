//! Which register and which global a call changed: it puts a word into at most one.
ghost use Rattle.std.specs.Prelude.{◌≡◌};
ghost use Rattle.std.specs.Option.{option_map};
ghost use Rattle.heap_spec.specs.Steps.{register};
ghost use Rattle.tracing.specs.RootWords.{words_put as words_put_of, changed_global, changed_register, event_put, global_of as global_put_of, register_of as register_put_of, there_at};

use heap_spec::Event;
use plain_heap::PlainHeap;
use trace_lines::{Numbered, RegisterWord};
use words::{Global, Reg, Slot};

/// The register and the global that an event may put a word into, with their words.
#[derive(Clone, Copy)]
pub(crate) struct PutWords {
    pub(crate) register: Option<RegisterWord>,
    pub(crate) global: Option<Numbered>,
}

// The word of a register, if its slot has a mutator.
fn word_of(heap: &PlainHeap, slot: Slot, reg: Reg) -> Option<u64>
    ensures { result ≡ option_map (λ m. register m reg) (there_at heap.now.roots slot) }
{
    match heap.roots().mutator(slot) {
        Some(mutator) => Some(mutator.word(reg)),
        None => None,
    }
}

// The register that an event may change, with its word.
fn register_of(heap: &PlainHeap, event: &Event) -> Option<RegisterWord>
    ensures { result ≡ register_put_of heap.now.roots event.now }
{
    let Event::Mutator(slot, call) = event else {
        return None;
    };
    let Some(reg) = call.written_register() else {
        return None;
    };
    let Some(word) = word_of(heap, *slot, reg) else {
        return None;
    };
    Some(RegisterWord {
        slot: u64::from(slot.number()),
        register: u64::from(reg.number()),
        word,
    })
}

// The global that an event may change.
fn global_put(event: &Event) -> Option<Global>
    ensures { result ≡ event_put event.now }
{
    let Event::Mutator(_, call) = event else {
        return None;
    };
    call.written_global()
}

// The global that an event may change, with its word.
fn global_of(heap: &PlainHeap, event: &Event) -> Option<Numbered>
    ensures { result ≡ global_put_of heap.now.roots event.now }
{
    let Some(global) = global_put(event) else {
        return None;
    };
    Some(Numbered {
        number: u64::from(global.number()),
        word: heap.roots().global(global),
    })
}

/// What an event may put a word into, as it is in a heap.
pub(crate) fn words_put(heap: &PlainHeap, event: &Event) -> PutWords
    ensures { result ≡ words_put_of heap.now.roots event.now }
{
    PutWords {
        register: register_of(heap, event),
        global: global_of(heap, event),
    }
}

/// The register, if its word is another than before.
pub(crate) fn register_change(
    old: Option<RegisterWord>,
    new: Option<RegisterWord>,
) -> Option<RegisterWord>
    ensures { result ≡ changed_register old new }
{
    let Some(old) = old else {
        return None;
    };
    let Some(new) = new else {
        return None;
    };
    if old.word == new.word {
        None
    } else {
        Some(new)
    }
}

/// The global, if its word is another than before.
pub(crate) fn global_change(old: Option<Numbered>, new: Option<Numbered>) -> Option<Numbered>
    ensures { result ≡ changed_global old new }
{
    let Some(old) = old else {
        return None;
    };
    let Some(new) = new else {
        return None;
    };
    if old.word == new.word {
        None
    } else {
        Some(new)
    }
}
