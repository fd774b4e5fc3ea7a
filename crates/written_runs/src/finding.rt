//! What a replayer finds of a step.
ghost use Rattle.std.specs.Prelude.{◌≡◌, IfOk, IfSome, IfNone, IsTrue, false};
ghost use Rattle.written_runs.specs.Ranges.{BeginsBy};
ghost use Rattle.written_runs.specs.Finding.{IsNoStep, IsOnlyReplyTo, IsStepped, TellsReply, TellsWay, TellsWhy};
ghost use Rattle.written_runs.specs.Steps.{IsOpen};

use crate::places::Places;
use crate::step::Step;
use heap_spec::{Event, Reply};
use plain_heap::{Keeper, PathStep, Wrong};
use replayer::Replayer;
use std::alloc::{AllocError, Global};

/// Whether a step goes on with what was told so far.
pub(crate) fn goes_on(replayer: &mut Replayer, places: Places, step: &Step) -> bool
    requires begins { BeginsBy places replayer.old }
    ensures yes { IsTrue result → IsStepped places replayer.old step.now replayer.new }
    ensures no { result ≡ false → IsNoStep places replayer.old step.now }
    ensures same { result ≡ false → replayer.new ≡ replayer.old }
    ensures begins { BeginsBy places replayer.new }
{
    match places {
        Places::Classes => replayer.step(&step.event, &step.reply, step.hint),
        Places::Any(_) => {
            replayer.step_anywhere(&step.event, &step.reply, step.hint, step.words)
        }
    }
}

// The one reply that an event has here. None where it may be open.
fn only_reply(replayer: &mut Replayer, places: Places, event: &Event) -> Option<Reply>
    requires begins { BeginsBy places replayer.old }
    ensures reply { IfSome result (λ reply. IsOnlyReplyTo places replayer.old event.now reply) }
    ensures none { IfNone result (IsOpen places replayer.old.marking event.now) }
    ensures same { replayer.new ≡ replayer.old }
{
    match places {
        Places::Classes => replayer.reply_to(event),
        Places::Any(_) => replayer.reply_anywhere_to(event),
    }
}

/// The reply that a step had to have, where it is another one than it has. None where its own is the only one, or may be open.
pub(crate) fn other_reply(replayer: &mut Replayer, places: Places, step: &Step) -> Option<Reply>
    requires begins { BeginsBy places replayer.old }
    ensures tells { TellsReply places replayer.old step.now result }
    ensures same { replayer.new ≡ replayer.old }
{
    let Some(expected) = only_reply(replayer, places, &step.event) else {
        return None;
    };
    if expected == step.reply {
        return None;
    }
    Some(expected)
}

/// What keeps an object, where it is wrong that it is gone.
pub(crate) fn keeper_of(replayer: &mut Replayer, wrong: Option<Wrong>) -> Option<Keeper>
    ensures why { TellsWhy replayer.old wrong result }
    ensures same { replayer.new ≡ replayer.old }
{
    match wrong {
        None => None,
        Some(Wrong::IsMissing(_)) => None,
        Some(Wrong::StandsTwice(_)) => None,
        Some(Wrong::HasToStay(base)) => replayer.keeper(base),
        Some(Wrong::HasToGo(_)) => None,
    }
}

/// A path to an object, where it is wrong that it is gone, if it is asked for.
pub(crate) fn path_of(
    replayer: &mut Replayer,
    alloc: Global,
    why: bool,
    wrong: Option<Wrong>,
) -> Result<Option<Vec<PathStep>>, AllocError>
    ensures path { IfOk result (λ path. TellsWay replayer.old why wrong path) }
    ensures same { replayer.new ≡ replayer.old }
{
    if !why {
        return Ok(None);
    }
    match wrong {
        None => Ok(None),
        Some(Wrong::IsMissing(_)) => Ok(None),
        Some(Wrong::StandsTwice(_)) => Ok(None),
        Some(Wrong::HasToStay(base)) => replayer.path_to(alloc, base),
        Some(Wrong::HasToGo(_)) => Ok(None),
    }
}
