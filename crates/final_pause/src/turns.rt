//! Whose turn an object on a dirty page is.
//!
//! On the first 256 dirty pages what begins at 16 granules in a row has one turn, so a word of 64 mark bits has four. One division tells
//! the first of these, and the others follow it in a circle: so nothing is divided for each object. Each further page is one helper's: where
//! there are so many the parts are even all the same, and a processor reads a whole page much faster than a piece of each.
ghost use Rattle.std.specs.Prelude.{◌≡◌, ℕ, ◌+◌, ◌*◌, ◌/◌, ◌%◌, ◌<◌, ◌≤◌, ◌↔◌, nat_lt, true, length};
ghost use Rattle.std.specs.Int.{bit_at};
ghost use Rattle.words.specs.declared.limits.TheConstants.{MOST_PAGES, PAGE_GRANULES};
ghost use Rattle.final_pause.specs.Helping.{IsReadyPause};
ghost use Rattle.final_pause.specs.Pauses.{pause_view};
ghost use Rattle.final_pause.specs.Serving.{AreOwnMarks, IsTurnAt, turn_number};

use crate::helper::Helper;
use crate::share::Pause;

// The granules in a row of which the objects that begin there have one turn.
const TURN: usize = 16;

// So many dirty pages, the first ones, are shared by what begins on them.
const SHARED_PAGES: usize = 256;

// The turns of a word of 64 mark bits.
const TURNS: usize = 64 / TURN;

// The bits of the first of them.
const FIRST_TURN: u64 = 0xffff;

// Whether the dirty page of a number is shared.
#[inline]
fn is_shared(number: usize) -> bool
    ensures { result ≡ nat_lt number 256 }
{
    number < SHARED_PAGES
}

// The turn after this one.
#[inline]
fn turn_after(turn: usize, helpers: usize) -> usize
    requires { turn < helpers }
    ensures { result ≡ (turn + 1) % helpers }
{
    let next = turn + 1;
    if next == helpers { 0 } else { next }
}

// The bits of a word's turn i, if that is the place's, and none otherwise.
#[inline]
fn bits_of_turn(turn: usize, place: usize, i: usize) -> u64
    requires { i < 4 }
    ensures { (k : ℕ) → k < 64 → (bit_at result k ≡ 1) ↔ ((turn ≡ place) × (k / 16 ≡ i)) }
{
    if turn == place {
        FIRST_TURN << (TURN * i)
    } else {
        0
    }
}

// The bits of the 64 granules from 64 j on that have a place's turn, on the dirty page of a number, which is shared.
#[inline]
fn bits_if_shared(helpers: usize, place: usize, number: usize, j: usize) -> u64
    requires some { 0 < helpers }
    requires few { number ≤ MOST_PAGES }
    requires inside { 64 * j ≤ PAGE_GRANULES * MOST_PAGES }
    ensures { (k : ℕ) → k < 64 → (bit_at result k ≡ 1) ↔ ((number + (64 * j + k) / 16) % helpers ≡ place) }
{
    let mut turn = (number + TURNS * j) % helpers;
    let mut bits = 0;
    for i in 0..TURNS {
        bits |= bits_of_turn(turn, place, i);
        turn = turn_after(turn, helpers);
    }
    bits
}

// The bits of the 64 granules from 64 j on that have a place's turn, on the dirty page of a number.
#[inline]
fn bits_of_place(helpers: usize, place: usize, number: usize, j: usize) -> u64
    requires some { 0 < helpers }
    requires few { number ≤ MOST_PAGES }
    requires inside { 64 * j ≤ PAGE_GRANULES * MOST_PAGES }
    ensures { (k : ℕ) → k < 64 → (bit_at result k ≡ 1) ↔ (turn_number number (64 * j + k) % helpers ≡ place) }
{
    if is_shared(number) {
        return bits_if_shared(helpers, place, number, j);
    }
    if number % helpers == place {
        u64::MAX
    } else {
        0
    }
}

impl<'a> Pause<'a> {
    /// Whether the dirty page of a number is another helper's, with all that is on it.
    #[inline]
    pub(crate) fn is_others(&self, helper: &Helper, number: usize) -> bool
        requires { 0 < self.now.helpers }
        ensures { result ≡ true → (g : ℕ) → IsTurnAt (pause_view self.now) helper.now.place number g → ⊥ }
    {
        !is_shared(number) && number % self.helpers != helper.place
    }

    /// Whether the object that begins at a granule is the helper's to read, on the dirty page of a number.
    #[inline]
    pub(crate) fn is_turn(&self, helper: &Helper, number: usize, granule: usize) -> bool
        requires some { 0 < self.now.helpers }
        requires few { number ≤ MOST_PAGES }
        requires inside { granule ≤ PAGE_GRANULES * MOST_PAGES }
        ensures { (result ≡ true) ↔ IsTurnAt (pause_view self.now) helper.now.place number granule }
    {
        let turn = if is_shared(number) {
            number + granule / TURN
        } else {
            number
        };
        turn % self.helpers == helper.place
    }

    /// The bits of the 64 granules from 64 j on that were marked before the helpers started and have the helper's turn, on
    /// the dirty page of a number. Many words of marks are 0.
    #[inline]
    pub(crate) fn own_marks(&self, helper: &Helper, j: usize, number: usize) -> u64
        requires ready { IsReadyPause (pause_view self.now) }
        requires few { number ≤ MOST_PAGES }
        requires inside { 64 * (j + 1) ≤ length self.now.marker.now.marks }
        ensures { AreOwnMarks (pause_view self.now) helper.now.place number j result }
    {
        let marks = self.marker.mark_row().as_words()[j];
        if marks == 0 {
            return 0;
        }
        marks & bits_of_place(self.helpers, helper.place, number, j)
    }
}
