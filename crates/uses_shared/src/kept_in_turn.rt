//! Two mutators, one after the other, of which the second may have the first one's slot.
ghost use Rattle.std.specs.Prelude.{◌≡◌, IfOk};
ghost use mathlib.Core.List.{IsPrefix};
ghost use Rattle.history.specs.Histories.{counted_up};
ghost use Rattle.heap_history.specs.Alone.{attaches};
ghost use Rattle.uses_shared.specs.Keeping.{PutsAndLoads, IsSettled};

use crate::kept_words::{KeptError, put, registers};
use heap_history::laws::{left_before, nobody_else_came_in_turn, own_words_as_known_in_turn};
use history::Naming;
use shared::{Departed, Mutator, SharedHeap};
use std::sync::Wait;
use words::Refusal;

// Puts the word into a new object, and loads it.
fn keep<J: Naming>(
    rt: &impl Wait,
    heap: &SharedHeap<J>,
    me: &mut Mutator<J>,
    word: u64,
) -> Result<u64, Refusal>
    ensures { IfOk result (λ loaded. PutsAndLoads J.origin word loaded me.old me.new) }
{
    let (object, scratch) = registers();
    put(rt, heap, me, word)?;
    heap.load(rt, me, scratch, object, 0)
}

// The mutator has then seen all that the other had when it left. The answer is how many came in what it has then seen.
fn settle<J: Naming>(
    rt: &impl Wait,
    heap: &SharedHeap<J>,
    me: &mut Mutator<J>,
    gone: &mut Departed<J>,
) -> u64
    ensures me { IsSettled J.origin me.old me.new.seen me.new }
    ensures heard { IsPrefix gone.old.seen me.new.seen }
    ensures came { result ≡ counted_up (attaches me.new.seen) }
{
    heap.hear(me, gone);
    let _slot = me.slot();
    heap.attaches(rt, me)
}

/// A mutator puts a word into an object of its own, loads it, and leaves; then another one comes, to the slot that is free,
/// and does the same. What each loads is what it put, though both may have had one slot.
///
/// # Errors
/// [`KeptError::Refused`]: a call was refused; [`KeptError::Stranger`]: another mutator came to this heap.
pub fn keep_in_turn<J: Naming>(
    rt: &impl Wait,
    heap: &SharedHeap<J>,
    words: (u64, u64),
) -> Result<(u64, u64), KeptError>
    ensures { IfOk result (λ loaded. loaded ≡ words) }
{
    let Ok(mut one) = heap.attach(rt) else {
        return Err(KeptError::Refused);
    };
    let first = keep(rt, heap, &mut one, words.0);
    let mut gone = heap.depart(rt, one);
    let Ok(mut other) = heap.attach(rt) else {
        return Err(KeptError::Refused);
    };
    let second = keep(rt, heap, &mut other, words.1);
    let came = settle(rt, heap, &mut other, &mut gone);
    heap.detach(rt, other);
    let (Ok(first), Ok(second)) = (first, second) else {
        return Err(KeptError::Refused);
    };
    if came != 2 {
        return Err(KeptError::Stranger);
    }
    left_before();
    nobody_else_came_in_turn();
    own_words_as_known_in_turn();
    Ok((first, second))
}
