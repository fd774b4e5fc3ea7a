//! A step of a run: what a line is written of.
use heap_spec::{Event, Reply};
use replayer::Hint;

/// An event, its reply, and what the reply leaves open.
#[derive(Clone, Copy, Debug)]
pub(crate) struct Step<'a> {
    /// What was asked.
    pub(crate) event: Event,

    /// What was answered.
    pub(crate) reply: Reply,

    /// What the reply leaves open.
    pub(crate) hint: Hint<'a>,

    /// How many words the object has that the hint places, 0 where the line doesn't tell it.
    pub(crate) words: u64,
}
