//! What a reply says, as the collector's events are answered.
ghost use Rattle.std.specs.Prelude.{◌≡◌, ℕ, List, IsTrue, IfSome, IfNone, false, length};
ghost use Rattle.std.specs.Borrow.{Bor};
ghost use Rattle.replayer.specs.declared.hint.Hint.{Hint as HintValue};

use crate::hint::Hint;
use heap_spec::Reply;
use words::Refusal;

/// Whether the reply is that the call is done.
pub(crate) fn is_done(reply: &Reply) -> bool
    ensures yes { IsTrue result → reply.now ≡ Reply.Done }
    ensures no { result ≡ false → reply.now ≡ Reply.Done → ⊥ }
{
    let Reply::Done = reply else {
        return false;
    };
    true
}

/// Whether the reply is that the phase forbids the call.
pub(crate) fn is_wrong_phase(reply: &Reply) -> bool
    ensures yes { IsTrue result → reply.now ≡ Reply.Refused Refusal.WrongPhase }
    ensures no { result ≡ false → reply.now ≡ Reply.Refused Refusal.WrongPhase → ⊥ }
{
    let Reply::Refused(Refusal::WrongPhase) = reply else {
        return false;
    };
    true
}

/// Whether the reply is that a full cycle has to come first.
pub(crate) fn is_needs_full(reply: &Reply) -> bool
    ensures yes { IsTrue result → reply.now ≡ Reply.Refused Refusal.NeedsFull }
    ensures no { result ≡ false → reply.now ≡ Reply.Refused Refusal.NeedsFull → ⊥ }
{
    let Reply::Refused(Refusal::NeedsFull) = reply else {
        return false;
    };
    true
}

/// The number of a reply that is one.
pub(crate) fn count_in(reply: &Reply) -> Option<u64>
    ensures some { IfSome result (λ n. reply.now ≡ Reply.Count n) }
    ensures none { IfNone result ((n : ℕ) → reply.now ≡ Reply.Count n → ⊥) }
{
    let Reply::Count(n) = reply else {
        return None;
    };
    Some(*n)
}

/// The bases that a collection is said to have forgotten, if the reply is how many they are.
pub(crate) fn forgotten<'a>(reply: &Reply, hint: Hint<'a>) -> Option<&'a [u64]>
    ensures some { IfSome result (λ bases. (hint.entry ≡ HintValue.Forgot bases) × (reply.now ≡ Reply.Count (length bases.now))) }
    ensures none { IfNone result ((bases : Bor (List ℕ)) → hint.entry ≡ HintValue.Forgot bases → reply.now ≡ Reply.Count (length bases.now) → ⊥) }
{
    let Hint::Forgot(bases) = hint else {
        return None;
    };
    let Some(n) = count_in(reply) else {
        return None;
    };
    if n != bases.len() as u64 {
        return None;
    }
    Some(bases)
}
