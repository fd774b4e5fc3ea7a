//! The words of a line, one after another.
ghost use Rattle.std.specs.Prelude.{◌≡◌, ℕ, List, ◌∷◌, [], IfSome, IfNone, MatchOption, MatchBool};
ghost use Rattle.scripts.specs.Grammar.{line_words};
ghost use Rattle.scripts.specs.Fields.{ReadsOne, ReadsTwo, ReadsThree};

use crate::field::Field;
use std::marker::Model;

// The first word of a line, and what stands after the space behind it.
fn next_word(line: &[u8]) -> (&[u8], Option<&[u8]>)
    ensures last { IfNone result.1 (line_words line.now ≡ result.0.now ∷ []) }
    ensures more { IfSome result.1 (λ rest. line_words line.now ≡ result.0.now ∷ line_words rest.now) }
{
    for i in 0..line.len() {
        if line[i] == b' ' {
            return (&line[..i], Some(&line[i + 1..]));
        }
    }
    (line, None)
}

/// What is left of a line, seen as its words.
#[derive(Drop)]
pub(crate) struct Words<'a> {
    rest: Option<&'a [u8]>,
}

impl<'a> Model for Words<'a> {
    ghost use Rattle.std.specs.Prelude.{List, ℕ};
    ghost use Rattle.scripts.specs.WordsLeft.{words_left};

    ghost Value = { List (List ℕ) };

    ghost view = { λ w. words_left w.rest };
}

impl<'a> Words<'a> {
    /// The words of a line.
    pub(crate) fn of(line: &'a [u8]) -> Words<'a>
        ensures { result ≡ line_words line.now }
    {
        Words { rest: Some(line) }
    }

    /// Takes the next word.
    pub(crate) fn word(&mut self) -> Option<&'a [u8]>
        ensures { MatchOption result (self.old ≡ []) (λ word. self.old ≡ word.now ∷ self.new) }
    {
        let (word, rest) = next_word(self.rest?);
        self.rest = rest;
        Some(word)
    }

    // Takes the next word, which is to be of this field.
    fn next<A: Field>(&mut self) -> Option<A>
        ensures { MatchOption result ((a : A) (rest : List (List ℕ)) → A.fits a → self.old ≡ A.text a ∷ rest → ⊥)
            (λ a. (self.old ≡ A.text a ∷ self.new) × A.fits a) }
    {
        let word = self.word()?;
        A::read(word)
    }

    /// Takes the last word, which is to be of this field.
    pub(crate) fn one<A: Field>(&mut self) -> Option<A>
        ensures { ReadsOne A.text A.fits self.old result }
    {
        let a = self.next()?;
        self.is_done().then_some(a)
    }

    /// Takes the last two words, which are to be of these fields.
    pub(crate) fn two<A: Field, B: Field>(&mut self) -> Option<(A, B)>
        ensures { ReadsTwo A.text A.fits B.text B.fits self.old result }
    {
        let a = self.next()?;
        let b = self.one()?;
        Some((a, b))
    }

    /// Takes the last three words, which are to be of these fields.
    pub(crate) fn three<A: Field, B: Field, C: Field>(&mut self) -> Option<(A, B, C)>
        ensures { ReadsThree A.text A.fits B.text B.fits C.text C.fits self.old result }
    {
        let a = self.next()?;
        let (b, c) = self.two()?;
        Some((a, b, c))
    }

    /// Whether no word is left.
    pub(crate) fn is_done(&self) -> bool
        ensures { MatchBool result (self.now ≡ []) (self.now ≡ [] → ⊥) }
    {
        match self.rest {
            None => true,
            Some(_) => false,
        }
    }
}
