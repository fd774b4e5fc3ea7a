//! What a line looked at, as far as its reply tells.
ghost use Rattle.std.specs.Prelude.{◌≡◌, IfOk, length};
ghost use Rattle.roots.specs.Roots.{root_words_of};
ghost use Rattle.tracing.specs.Looked.{reads_of as read_by};

use heap_spec::{Event, Reply};
use plain_heap::PlainHeap;
use roots::{RootWords, Roots};
use std::alloc::{AllocError, Global};
use trace_lines::Reads;

// How many root words there are.
fn root_words(alloc: Global, roots: &Roots) -> Result<u64, AllocError>
    ensures { IfOk result (λ count. count ≡ length (root_words_of roots.now)) }
{
    let mut words = RootWords::new(alloc)?;
    roots.write_words(&mut words);
    Ok(words.as_slice().len() as u64)
}

/// What an event looked at: of a small step that its reply measures, and of no other.
pub(crate) fn reads_of(
    alloc: Global,
    heap: &PlainHeap,
    event: &Event,
    reply: &Reply,
) -> Result<Option<Reads>, AllocError>
    ensures { IfOk result (λ looked. looked ≡ read_by heap.now.roots event.now reply.now) }
{
    Ok(match (event, reply) {
        (Event::Roots, Reply::Done) => Some(Reads {
            roots: root_words(alloc, heap.roots())?,
            words: 0,
            pages: 0,
        }),
        (Event::Mark(_), Reply::Count(words)) => Some(Reads {
            roots: 0,
            words: *words,
            pages: 0,
        }),
        _ => None,
    })
}
