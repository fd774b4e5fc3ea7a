//! Texts are cut.
ghost use Rattle.std.specs.Prelude.{◌≡◌, ◌++◌, ℕ, List, MatchOption};
ghost use Rattle.written_runs.specs.Cuts.{IsTextCut};

use scripts::is_text;

/// The front of a text before a byte, and the rest from there on: the whole text and nothing where the byte doesn't occur.
pub(crate) fn cut(text: &[u8], at: u8) -> (&[u8], &[u8])
    ensures { IsTextCut at text.now result.0.now result.1.now }
{
    for i in 0..text.len() {
        if text[i] == at {
            return text.split_at(i);
        }
    }
    text.split_at(text.len())
}

/// What stands behind this front of a text, and `None` exactly if the text begins otherwise.
pub(crate) fn past<'a>(text: &'a [u8], front: &str) -> Option<&'a [u8]>
    ensures { MatchOption result ((rest : List ℕ) → text.now ≡ front.now ++ rest → ⊥)
        (λ rest. text.now ≡ front.now ++ rest.now) }
{
    if text.len() < front.len() {
        return None;
    }
    let (start, rest) = text.split_at(front.len());
    if is_text(start, front) {
        Some(rest)
    } else {
        None
    }
}
