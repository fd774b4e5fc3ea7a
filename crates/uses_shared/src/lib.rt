//! How threads use a shared heap, by two examples: what two mutators stored, each in an object of its own, is there after a
//! cycle that ran beside them; and so it is where one comes when the other has left, maybe to the same slot. Nothing is
//! known of the heap but the contracts of its calls, and what follows from them.
//!
//! # What is proved
//!
//! `keep_words` and `keep_in_turn` answer the two words that were stored, or an error, by the laws of `heap_history`.
#![tactic(auto)]

mod kept_in_turn;
mod kept_words;

pub use kept_in_turn::keep_in_turn;
pub use kept_words::{KeptError, keep_words};
