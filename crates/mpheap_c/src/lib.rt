//! The core of a heap for C.
//!
//! # What is proved
//!
//! A handle is one pointer that C keeps; its ghost field is the core behind it, and the handle owns that core with the right
//! to free it (`core_owns`). Each export has the core's own clause between the core before and after (`IsAnswered`,
//! `IsServed`, `Holds` in `specs/Crossing.antt`): the status tells the result, a word is written only where it is 0, and
//! where a number is out of range nothing changes. That the handle is open is a `requires`, which a caller that isn't Rattle
//! owes.
#![tactic(auto)]

mod asked;
mod beside;
mod crew;
mod cycle;
mod handle;
mod heap;
mod linked;
mod many;
mod objects;
mod open;
mod registers;
mod shares;
mod status;
