//! What runs around each call of an actor, so that a test can hold it back.
//!
//! Actors have numbers: a mutator that of its slot, the collector [`COLLECTOR_ACTOR`], and the helper h of a pause
//! [`FIRST_HELPER`] + h. The calls of an actor are numbered from 0, modulo 2^32. A helper's calls are its claims, and are
//! numbered afresh in each pause.
use std::marker::Sync;
use words::limits::SLOTS;

/// The collector's number as an actor.
pub const COLLECTOR_ACTOR: u8 = SLOTS;

/// The number of the first helper as an actor.
pub const FIRST_HELPER: u8 = 32;

/// What runs before and after each call of an actor. It may hold the actor back, and sees nothing of the heap.
pub trait Gate: Sync {
    /// The actor is about to make the call.
    fn before(&self, actor: u8, call: u32);

    /// The actor has made the call.
    fn after(&self, actor: u8, call: u32);
}

/// A gate that holds nobody back.
#[derive(Clone, Copy, Debug, Default)]
pub struct Open;

impl Gate for Open {
    fn before(&self, _actor: u8, _call: u32) {}

    fn after(&self, _actor: u8, _call: u32) {}
}
