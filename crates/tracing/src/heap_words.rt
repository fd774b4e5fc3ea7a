//! Which words of the heap an event wrote: that of a store, and those of links whose objects it took.
ghost use Rattle.std.specs.Prelude.{◌≡◌, ◌++◌, IfOk, OnOk, map};
ghost use Rattle.tracing.specs.Sets.{listed};
ghost use Rattle.tracing.specs.HeapWords.{clears as may_clear, stored_at as stored_by, word_told, words_told, written_to as written_by};

use crate::leaving::forgets;
use crate::places::place_of;
use crate::sets::listed;
use heap_spec::{Call, Event, Reply};
use links::Link;
use plain_heap::PlainHeap;
use std::alloc::{AllocError, Global};
use trace_lines::Numbered;

// The address that a store wrote to, if the event is one and was granted.
fn stored_at(heap: &PlainHeap, event: &Event, reply: &Reply) -> Option<u64>
    ensures { result ≡ stored_by heap.now.roots event.now reply.now }
{
    let Event::Mutator(slot, Call::Store(at, offset, _)) = event else {
        return None;
    };
    let Reply::Done = reply else {
        return None;
    };
    match heap.roots().mutator(*slot) {
        Some(mutator) => Some(mutator.address(*at, *offset)),
        None => None,
    }
}

// Whether an event may take objects: then it writes 0 into the words of links to them.
fn clears(event: &Event) -> bool
    ensures { result ≡ may_clear event.now }
{
    let Event::Mutator(_, Call::Free(_)) = event else {
        return forgets(event);
    };
    true
}

// The addresses of some links.
fn addresses_of(alloc: Global, links: &[Link]) -> Result<Vec<u64>, AllocError>
    ensures { IfOk result (λ addresses. addresses.items ≡ map (λ l. l.address) links.now) }
{
    links
        .iter()
        .map(|link| link.address)
        .collect::<Vec<u64>>(alloc)
}

// The addresses that the event may have written to, where these links are gone.
fn written_to(
    alloc: Global,
    heap: &PlainHeap,
    event: &Event,
    reply: &Reply,
    gone: &[Link],
) -> Result<Vec<u64>, AllocError>
    ensures { IfOk result (λ addresses. addresses.items ≡ written_by heap.now.roots event.now reply.now gone.now) }
{
    let mut addresses = listed(alloc, stored_at(heap, event, reply))?;
    if !clears(event) {
        return Ok(addresses);
    }
    let cleared = addresses_of(alloc, gone)?;
    addresses.extend_from_slice(cleared.as_slice())?;
    Ok(addresses)
}

// Puts the word at an address behind others, if an object has it.
fn add_word(words: &mut Vec<Numbered>, heap: &PlainHeap, address: u64) -> Result<(), AllocError>
    ensures { OnOk result (words.new.items ≡ words.old.items ++ listed (word_told heap.now address)) }
{
    let Some(word) = heap.word(address) else {
        return Ok(());
    };
    words.push(Numbered {
        number: place_of(address),
        word,
    })?;
    Ok(())
}

/// The words of objects that the event wrote, as they are now, where these links are gone.
pub(crate) fn wrote(
    alloc: Global,
    heap: &PlainHeap,
    event: &Event,
    reply: &Reply,
    gone: &[Link],
) -> Result<Vec<Numbered>, AllocError>
    ensures { IfOk result (λ words. words.items ≡ words_told heap.now (written_by heap.now.roots event.now reply.now gone.now)) }
{
    let addresses = written_to(alloc, heap, event, reply, gone)?;
    let mut words = Vec::new(alloc);
    for address in addresses.as_slice() {
        add_word(&mut words, heap, *address)?;
    }
    Ok(words)
}
