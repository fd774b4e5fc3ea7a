//! A request of a mutator.
use words::{Kind, Reg, Slot};

/// What a mutator asks for: an object of at least so many words, whose base comes into a register.
#[derive(Clone, Copy)]
pub(crate) struct Request {
    pub(crate) slot: Slot,
    pub(crate) into: Reg,
    pub(crate) words: u64,
    pub(crate) kind: Kind,
}
