//! A reply as `run` prints it.
ghost use Rattle.std.specs.Prelude.{◌≡◌, IfOk, string_bytes};
ghost use Rattle.scripts.specs.Printing.{reply_text as text_of_reply};

use heap_spec::Reply;
use std::alloc::{AllocError, Global};
use words::limits::{FIRST_ADDRESS, PAGE_BYTES};
use written_runs::reply_text;

/// A reply of a heap of so many pages: every word that is an address of the heap prints alike.
pub(crate) fn shown_reply(alloc: Global, pages: u32, reply: &Reply) -> Result<String, AllocError>
    ensures { IfOk result (λ text. string_bytes text ≡ text_of_reply pages reply.now) }
{
    let Reply::Word(word) = reply else {
        return reply_text(alloc, reply);
    };
    if FIRST_ADDRESS <= *word && *word < FIRST_ADDRESS + PAGE_BYTES * u64::from(pages) {
        return format!(in alloc; "ptr");
    }
    reply_text(alloc, reply)
}
