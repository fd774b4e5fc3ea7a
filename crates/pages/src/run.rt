//! Words in a row that are gone over once.
ghost use Rattle.std.specs.Prelude.{◌≡◌, ◌<◌, ◌∷◌, length, IfNone, IfSome};
ghost use Rattle.std.specs.Iterator.{YieldsFirst, item_count};

use std::marker::Model;

/// Words in a row. It gives each of them once, and lends none. Contracts see the list of those that are left.
#[derive(Drop)]
pub struct Words<'a> {
    left: &'a [u64],
}

impl<'a> Model for Words<'a> {
    ghost use Rattle.std.specs.Prelude.{ℕ, List};

    ghost Value = { List ℕ };

    ghost view = { λ w. w.left.now };
}

impl<'a> Words<'a> {
    /// The words of a slice.
    #[inline]
    pub fn new(words: &'a [u64]) -> Words<'a>
        ensures { result ≡ words.now }
    {
        Words { left: words }
    }

    /// How many words are left.
    #[inline]
    pub fn len(&self) -> usize
        ensures { result ≡ length self.now }
    {
        self.left.len()
    }

    /// The next four words, if so many are left. A loop over fours asks once for four whether it is at the end.
    #[inline]
    pub fn next_four(&mut self) -> Option<(u64, u64, u64, u64)>
        ensures some { IfSome result (λ four. self.old ≡ four.0 ∷ four.1 ∷ four.2 ∷ four.3 ∷ self.new) }
        ensures few { IfNone result (length self.old < 4) }
        ensures stays { IfNone result (self.new ≡ self.old) }
    {
        let (four, rest) = self.left.split_first_chunk::<4>()?;
        self.left = rest;
        Some((four[0], four[1], four[2], four[3]))
    }
}

impl<'a> Iterator for Words<'a> {
    type Item = u64;

    ghost next_gives = { YieldsFirst (λ left. left) };

    ghost remaining = { item_count (λ left. left) };

    #[inline]
    fn next(&mut self) -> Option<u64> {
        let (first, others) = self.left.split_first()?;
        self.left = others;
        Some(*first)
    }
}
