//! Replies as the results of calls.
ghost use Rattle.std.specs.Prelude.{◌≡◌};
ghost use Rattle.heap_spec.specs.Replies.{count_reply, done_reply, word_reply};
ghost use Rattle.heap_history.specs.Replies.{IsDoneReply, IsWordReply, IsCountReply};

use heap_spec::Reply;
use words::Refusal;

/// Of a call that answers nothing more than that it is done.
pub(crate) fn done_result(reply: Reply) -> Result<(), Refusal>
    requires { IsDoneReply reply }
    ensures { done_reply result ≡ reply }
{
    match reply {
        Reply::Done => Ok(()),
        Reply::Refused(refusal) => Err(refusal),
        _ => unreachable!(),
    }
}

/// Of a call that answers a word.
pub(crate) fn word_result(reply: Reply) -> Result<u64, Refusal>
    requires { IsWordReply reply }
    ensures { word_reply result ≡ reply }
{
    match reply {
        Reply::Word(word) => Ok(word),
        Reply::Refused(refusal) => Err(refusal),
        _ => unreachable!(),
    }
}

/// Of a call that answers a number of things.
pub(crate) fn count_result(reply: Reply) -> Result<u64, Refusal>
    requires { IsCountReply reply }
    ensures { count_reply result ≡ reply }
{
    match reply {
        Reply::Count(count) => Ok(count),
        Reply::Refused(refusal) => Err(refusal),
        _ => unreachable!(),
    }
}
