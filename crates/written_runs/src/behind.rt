//! What stands behind a reply.
ghost use Rattle.std.specs.Prelude.{ℕ, List, [], ◌∷◌, ◌++◌, codes, IfOk, MatchOption};
ghost use Rattle.replayer.specs.declared.hint.Hint.{Hint as HintValue};
ghost use Rattle.written_runs.specs.declared.places.Places.{Places as PlacesValue};
ghost use Rattle.written_runs.specs.Reading.{AreBases, IsBehind, IsHintText, IsOnlyNumber};

use crate::cut::past;
use crate::places::Places;
use crate::reply::number_at;
use replayer::Hint;
use scripts::number;
use std::alloc::{AllocError, Global};

/// What stands behind a reply.
#[derive(Debug, Drop)]
pub enum Behind {
    /// Nothing.
    Nothing,

    /// ` @ ADDRESS`.
    Place(u64),

    /// ` @ ADDRESS WORDS`.
    Object(u64, u64),

    /// ` -` and these bases.
    Bases(Vec<u64>),
}

impl Behind {
    /// What the reply leaves open, and how many words the object has that this places, 0 where it isn't told.
    pub fn hint(&self) -> (Hint<'_>, u64)
        ensures { (places : PlacesValue) (text : List ℕ) → IsBehind places text self.now → IsHintText places text result.0 result.1 }
    {
        match self {
            Behind::Nothing => (Hint::Nothing, 0),
            Behind::Place(base) => (Hint::Place(*base), 0),
            Behind::Object(base, words) => (Hint::Place(*base), *words),
            Behind::Bases(bases) => (Hint::Forgot(bases.as_slice()), 0),
        }
    }
}

// The bases that a text is, each behind a space.
fn bases_of(alloc: Global, text: &[u8]) -> Result<Option<Vec<u64>>, AllocError>
    ensures { IfOk result (λ found. MatchOption found ((bases : List ℕ) → AreBases text.now bases → ⊥)
        (λ bases. AreBases text.now bases.items)) }
{
    let mut bases = Vec::new(alloc);
    let mut rest = text;
    while !rest.is_empty() {
        let Some((base, after)) = number_at(rest) else {
            return Ok(None);
        };
        bases.push(base)?;
        rest = after;
    }
    Ok(Some(bases))
}

// The number that a text is behind a space.
fn only_number(text: &[u8]) -> Option<u64>
    ensures { MatchOption result ((n : ℕ) → IsOnlyNumber text.now n → ⊥) (λ n. IsOnlyNumber text.now n) }
{
    let Some(word) = past(text, " ") else {
        return None;
    };
    number(word)
}

// The address and the number of words of an object, each behind a space.
fn object_of(text: &[u8]) -> Option<(u64, u64)>
    ensures { MatchOption result ((base n : ℕ) → AreBases text.now (base ∷ n ∷ []) → ⊥)
        (λ found. AreBases text.now (found.0 ∷ found.1 ∷ [])) }
{
    let Some((base, rest)) = number_at(text) else {
        return None;
    };
    let Some(words) = only_number(rest) else {
        return None;
    };
    Some((base, words))
}

// What a text is that stands behind ` @`: an address, and where objects lie anywhere a number of words behind it.
fn place_of(places: Places, text: &[u8]) -> Option<Behind>
    ensures { MatchOption result ((base n : ℕ) → IsHintText places (codes " @" ++ text.now) (Hint.Place base) n → ⊥)
        (λ behind. IsBehind places (codes " @" ++ text.now) behind) }
{
    match places {
        Places::Classes => {
            let Some(base) = only_number(text) else {
                return None;
            };
            Some(Behind::Place(base))
        }
        Places::Any(_) => {
            let Some((base, words)) = object_of(text) else {
                return None;
            };
            Some(Behind::Object(base, words))
        }
    }
}

/// What a text is that stands behind a reply, and `None` exactly if it is no hint's.
pub(crate) fn behind_of(
    alloc: Global,
    places: Places,
    text: &[u8],
) -> Result<Option<Behind>, AllocError>
    ensures { IfOk result (λ found. MatchOption found ((hint : HintValue) (n : ℕ) → IsHintText places text.now hint n → ⊥)
        (λ behind. IsBehind places text.now behind)) }
{
    if text.is_empty() {
        return Ok(Some(Behind::Nothing));
    }
    if let Some(place) = past(text, " @") {
        let Some(behind) = place_of(places, place) else {
            return Ok(None);
        };
        return Ok(Some(behind));
    }
    let Some(text) = past(text, " -") else {
        return Ok(None);
    };
    let Some(bases) = bases_of(alloc, text)? else {
        return Ok(None);
    };
    Ok(Some(Behind::Bases(bases)))
}
