//! What is said first of a run that isn't legal: what its first wrong line did, in the terms of the heap that wrote it, and at which lines
//! the objects and words that it speaks of came to be.
//!
//! A `Journal` is made of the lines before that one: which object each line brought, which left, and which line put a word where. From
//! it and from what the checker says (`written_runs`) `first_text` makes one sentence, and `hop_text` one for each step of a path.
//!
//! # What is proved
//!
//! That each function ends and is safe. The verdict, the rule, the reply that a line had to have, what is wrong about objects and
//! the path are the checker's, and proved there (`IsJudged`, `IsExplained`, `IsBlamed`, `IsTracedBack` of `written_runs`); the sentences
//! here are only tested, and so are the numbers of lines in them.
#![tactic(auto)]

mod first;
mod journal;
mod loads;
mod lookups;
mod noting;
mod objects;
mod requests;
mod texts;

pub use first::first_text;
pub use journal::Journal;
pub use objects::Range;
pub use texts::hop_text;
