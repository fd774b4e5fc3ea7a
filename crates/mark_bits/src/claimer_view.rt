//! What contracts say of a claimer.
use std::collections::LinkedList;

/// What a claimer knows and has won. It lives in contracts alone: no value of it is made.
pub struct ClaimerView {
    /// Its part of the right to give the marks back: so many of 2^n equal ones, and n.
    pub right: (u64, u64),

    /// The marks when the table was made.
    pub start: LinkedList<bool>,

    /// Words as they were when it or a claimer before it saw them, each after its place.
    pub seen: LinkedList<(u64, u64)>,

    /// The bits that its claims were the first to set, the newest first.
    pub won: LinkedList<u64>,
}
