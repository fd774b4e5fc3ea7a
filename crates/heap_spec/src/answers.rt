//! What a call answers, as a reply.
ghost use Rattle.std.specs.Prelude.{◌≡◌};
ghost use Rattle.heap_spec.specs.Replies.{count_reply, done_reply, slot_reply, word_reply};

use crate::reply::Reply;
use words::{Refusal, Slot};

/// The reply to a call that answers nothing more than that it is done.
pub fn done(answer: Result<(), Refusal>) -> Reply
    ensures { result ≡ done_reply answer }
{
    match answer {
        Ok(()) => Reply::Done,
        Err(refusal) => Reply::Refused(refusal),
    }
}

/// The reply to a call that answers a word.
pub fn word(answer: Result<u64, Refusal>) -> Reply
    ensures { result ≡ word_reply answer }
{
    match answer {
        Ok(word) => Reply::Word(word),
        Err(refusal) => Reply::Refused(refusal),
    }
}

/// The reply to a call that answers a number of things.
pub fn count(answer: Result<u64, Refusal>) -> Reply
    ensures { result ≡ count_reply answer }
{
    match answer {
        Ok(count) => Reply::Count(count),
        Err(refusal) => Reply::Refused(refusal),
    }
}

/// The reply to a call that answers a slot.
pub fn slot_of(answer: Result<Slot, Refusal>) -> Reply
    ensures { result ≡ slot_reply answer }
{
    match answer {
        Ok(slot) => Reply::Slot(slot),
        Err(refusal) => Reply::Refused(refusal),
    }
}
