//! What the record of a line is made from: what the tracer was told, and what there was before the line and after it.
use crate::leaving::Leaving;
use crate::roots_changed::PutWords;
use crate::seen::Seen;
use heap_core::Core;
use heap_spec::{Event, Reply};
use replayer::Replayer;

/// A line, and the core after it, if there is one.
#[derive(Clone, Copy)]
pub(crate) struct Told<'a> {
    pub(crate) core: Option<&'a Core>,
    pub(crate) event: &'a Event,
    pub(crate) reply: &'a Reply,
}

/// What there was before a line.
#[derive(Clone, Copy)]
pub(crate) struct Before<'a> {
    /// The words that the line may put others in the place of.
    pub(crate) put: &'a PutWords,

    pub(crate) seen: &'a Seen,
}

/// What there is after a line.
#[derive(Clone, Copy)]
pub(crate) struct After<'a> {
    pub(crate) replayer: &'a Replayer,
    pub(crate) seen: &'a Seen,

    /// Where the objects went that the line took.
    pub(crate) leaving: &'a Leaving,
}
