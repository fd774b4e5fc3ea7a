//! The reply that a text begins with.
ghost use Rattle.std.specs.Prelude.{◌≡◌, ℕ, ◌<◌, List, MatchOption};
ghost use Rattle.words.specs.declared.limits.TheConstants.{SLOTS};
ghost use Rattle.words.specs.declared.refusal.Refusal.{Refusal as RefusalValue};
ghost use Rattle.words.specs.Refusals.{code_of};
ghost use Rattle.heap_spec.specs.declared.event.Event.{Event as EventValue};
ghost use Rattle.heap_spec.specs.declared.reply.Reply.{Reply as ReplyValue};
ghost use Rattle.written_runs.specs.Written.{answers_word};
ghost use Rattle.written_runs.specs.Reading.{IsNumberAt, IsRefusalAt, IsReplyAt};

use crate::cut::{cut, past};
use heap_spec::{Call, Event, Reply};
use scripts::{is_text, number};
use words::{Refusal, Slot};

/// The number that stands behind a space at the front of a text, and what is left of the text.
pub(crate) fn number_at(text: &[u8]) -> Option<(u64, &[u8])>
    ensures { MatchOption result ((n : ℕ) (rest : List ℕ) → IsNumberAt text.now n rest → ⊥)
        (λ found. IsNumberAt text.now found.0 found.1.now) }
{
    let Some(text) = past(text, " ") else {
        return None;
    };
    let (word, rest) = cut(text, b' ');
    let Some(n) = number(word) else {
        return None;
    };
    Some((n, rest))
}

// Whether a number that the event answers is a word of a register or of the heap, and not a count.
fn answers_word(event: &Event) -> bool
    ensures { result ≡ answers_word event.now }
{
    let Event::Mutator(_, call) = event else {
        return false;
    };
    match call {
        Call::Size(_) | Call::Unlink(_, _) => false,
        _ => true,
    }
}

// The refusal with this code.
fn refusal_with(code: u64) -> Option<Refusal>
    ensures { MatchOption result ((refusal : RefusalValue) → code_of refusal ≡ code → ⊥)
        (λ refusal. code_of refusal ≡ code) }
{
    match code {
        1 => Some(Refusal::NoSlot),
        2 => Some(Refusal::Misaligned),
        3 => Some(Refusal::NoObject),
        4 => Some(Refusal::NotBase),
        5 => Some(Refusal::BadSize),
        6 => Some(Refusal::Full),
        7 => Some(Refusal::StackFull),
        8 => Some(Refusal::StackEmpty),
        9 => Some(Refusal::WrongPhase),
        10 => Some(Refusal::LinksFull),
        11 => Some(Refusal::NotPointerFree),
        12 => Some(Refusal::NeedsFull),
        _ => None,
    }
}

// The slot whose number stands behind a space, and what is left of the text.
fn slot_at(text: &[u8]) -> Option<(Slot, &[u8])>
    ensures { MatchOption result ((slot : ℕ) (rest : List ℕ) → slot < SLOTS → IsNumberAt text.now slot rest → ⊥)
        (λ found. IsNumberAt text.now found.0 found.1.now × (found.0 < SLOTS)) }
{
    let Some((n, rest)) = number_at(text) else {
        return None;
    };
    if n > u64::from(u8::MAX) {
        return None;
    }
    let Some(slot) = Slot::new(n as u8) else {
        return None;
    };
    Some((slot, rest))
}

// The refusal whose code and name stand each behind a space, and what is left of the text.
fn refusal_at(text: &[u8]) -> Option<(Refusal, &[u8])>
    ensures { MatchOption result ((refusal : RefusalValue) (rest : List ℕ) → IsRefusalAt text.now refusal rest → ⊥)
        (λ found. IsRefusalAt text.now found.0 found.1.now) }
{
    let Some((code, text)) = number_at(text) else {
        return None;
    };
    let Some(refusal) = refusal_with(code) else {
        return None;
    };
    let Some(text) = past(text, " ") else {
        return None;
    };
    let (name, rest) = cut(text, b' ');
    if !is_text(name, refusal.name()) {
        return None;
    }
    Some((refusal, rest))
}

/// The reply to an event that a text begins with, and what is left of the text.
pub(crate) fn reply_at<'a>(event: &Event, text: &'a [u8]) -> Option<(Reply, &'a [u8])>
    ensures { MatchOption result ((other : EventValue) (reply : ReplyValue) (rest : List ℕ)
        → IsReplyAt other text.now reply rest → ⊥)
        (λ found. IsReplyAt event.now text.now found.0 found.1.now) }
{
    let (word, rest) = cut(text, b' ');
    if is_text(word, "ok") {
        return Some((Reply::Done, rest));
    }
    if is_text(word, "mutator") {
        let Some((slot, rest)) = slot_at(rest) else {
            return None;
        };
        return Some((Reply::Slot(slot), rest));
    }
    if is_text(word, "refused") {
        let Some((refusal, rest)) = refusal_at(rest) else {
            return None;
        };
        return Some((Reply::Refused(refusal), rest));
    }
    let Some(value) = number(word) else {
        return None;
    };
    if answers_word(event) {
        return Some((Reply::Word(value), rest));
    }
    Some((Reply::Count(value), rest))
}
