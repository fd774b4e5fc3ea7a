//! Single words, and numbers among them.
ghost use Rattle.std.specs.Prelude.{◌≡◌, ℕ, ◌+◌, ◌<◌, ◌≤◌, MatchOption, MatchBool, decimal};
ghost use Rattle.heap_spec.specs.Layout.{word_end};

/// Whether the word is this text.
pub fn is_text(word: &[u8], text: &str) -> bool
    ensures { MatchBool result (word.now ≡ text.now) (word.now ≡ text.now → ⊥) }
{
    word == text.as_bytes()
}

// The number that a byte prints alone.
#[inline]
fn digit(byte: u8) -> Option<u64>
    ensures { MatchOption result ((n : ℕ) → n < 10 → byte ≡ 48 + n → ⊥) (λ n. (byte ≡ 48 + n) × (n < 10)) }
{
    let n = byte.wrapping_sub(b'0');
    if n < 10 { Some(u64::from(n)) } else { None }
}

/// The number that a word is: its digits are those that print it, so there is no sign and no leading zero.
pub fn number(word: &[u8]) -> Option<u64>
    ensures { MatchOption result ((n : ℕ) → n < word_end → word.now ≡ decimal n → ⊥) (λ n. (word.now ≡ decimal n) × (n < word_end)) }
{
    if word.is_empty() {
        return None;
    }
    let first = word[0];
    if word.len() == 1 {
        return digit(first);
    }
    if first == b'0' {
        return None;
    }
    // (std reads a sign)
    if first == b'+' {
        return None;
    }
    let Ok(text) = str::from_utf8(word) else {
        return None;
    };
    let Ok(n) = text.parse::<u64>() else {
        return None;
    };
    Some(n)
}

/// The same, of numbers below 256.
pub(crate) fn small_number(word: &[u8]) -> Option<u8>
    ensures { MatchOption result ((n : ℕ) → n < 256 → word.now ≡ decimal n → ⊥) (λ n. (word.now ≡ decimal n) × (n < 256)) }
{
    let n = number(word)?;
    if n < 256 { Some(n as u8) } else { None }
}

/// The number that a word is, where it lies in this range.
pub fn number_in(word: &[u8], least: u64, most: u64) -> Option<u64>
    ensures { MatchOption result
        ((n : ℕ) → least ≤ n → n ≤ most → word.now ≡ decimal n → ⊥)
        (λ n. (word.now ≡ decimal n) × (least ≤ n) × (n ≤ most)) }
{
    let n = number(word)?;
    if n < least {
        return None;
    }
    if most < n {
        return None;
    }
    Some(n)
}
