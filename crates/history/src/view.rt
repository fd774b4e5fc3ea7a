//! What a seat knows. No value of these types is ever made: a view is the ghost value of a seat.
use crate::made::Made;
use std::collections::LinkedList;

/// What contracts see of a pass: its slot, the beginning of the history that it has seen, and the slot's own events in it since its
/// first, oldest first.
pub struct Known<C, R> {
    pub slot: u8,
    pub seen: LinkedList<Made<C, R>>,
    pub mine: LinkedList<Made<C, R>>,
}

/// What a seat knows. One that keeps has the whole history in `log`, one that holds has a pass of its own, and one that hosts has taken
/// in another's.
pub struct View<C, R> {
    pub keeps: bool,
    pub log: LinkedList<Made<C, R>>,
    pub holds: bool,
    pub pass: Known<C, R>,
    pub hosts: bool,
    pub guest: Known<C, R>,
}
