//! How stacks change: by a push or a pop.
ghost use Rattle.std.specs.Prelude.{◌≡◌, ◌≤◌, drop, length, IfOk};
ghost use Rattle.tracing.specs.Stacks.{IsTop, SaysStack, stack_step as step_of};

use heap_spec::{Call, Event, Reply};
use plain_heap::PlainHeap;
use roots::Mutator;
use std::alloc::{AllocError, Global};
use trace_lines::StackChange;
use words::Slot;

/// The stack of a slot, upon which so many words were pushed.
#[derive(Clone, Copy)]
pub(crate) struct StackStep {
    pub(crate) slot: Slot,
    pub(crate) pushed: usize,
}

/// The stack that an event changed: a push that was granted has one word more, a pop one less.
pub(crate) fn stack_step(event: &Event, reply: &Reply) -> Option<StackStep>
    ensures { result ≡ step_of event.now reply.now }
{
    match (event, reply) {
        (Event::Mutator(slot, Call::Push(_)), Reply::Done) => Some(StackStep {
            slot: *slot,
            pushed: 1,
        }),
        (Event::Mutator(slot, Call::Pop(_)), Reply::Word(_)) => Some(StackStep {
            slot: *slot,
            pushed: 0,
        }),
        _ => None,
    }
}

// The words of a stack from one on.
fn words_from(alloc: Global, stack: &[u64], first: usize) -> Result<Vec<u64>, AllocError>
    requires { first ≤ length stack.now }
    ensures { IfOk result (λ words. words.items ≡ drop first stack.now) }
{
    stack[first..].iter().copied().collect::<Vec<u64>>(alloc)
}

// The words that were pushed upon a mutator's stack, and how many are below.
fn top_of(alloc: Global, mutator: &Mutator, step: StackStep) -> Result<StackChange, AllocError>
    ensures { IfOk result (IsTop mutator.now step) }
{
    let stack = mutator.stack();
    let keep = stack.len().saturating_sub(step.pushed);
    Ok(StackChange {
        slot: u64::from(step.slot.number()),
        keep: keep as u64,
        pushed: words_from(alloc, stack, keep)?,
    })
}

/// What was pushed by a step, and how many words are below.
pub(crate) fn stack_change(
    alloc: Global,
    heap: &PlainHeap,
    step: Option<StackStep>,
) -> Result<Option<StackChange>, AllocError>
    ensures { IfOk result (SaysStack heap.now.roots step) }
{
    let Some(step) = step else {
        return Ok(None);
    };
    let Some(mutator) = heap.roots().mutator(step.slot) else {
        return Ok(None);
    };
    Ok(Some(top_of(alloc, mutator, step)?))
}
