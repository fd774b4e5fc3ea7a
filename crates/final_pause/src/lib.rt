//! The end of the marking: what is marked becomes all that can be reached.
//!
//! The pause reads the roots again, and then marks on until no page is dirty and no entry is left. Where the
//! dirty-page invariant held before, the marks are afterwards the closure of the marks before and the roots, and no
//! other.
//!
//! docs/CRATES.md tells the rest: what is kept, who touches what, and what is proved.
#![tactic(auto)]

mod alone;
mod before;
mod crew;
mod entries;
mod gate;
mod graph;
mod helper;
mod helpers;
mod page;
mod parallel;
mod piece;
mod round;
mod share;
mod spans;
mod turns;
mod waiting;

pub use alone::close_marks;
pub use gate::{COLLECTOR_ACTOR, FIRST_HELPER, Gate, Open};
pub use graph::Graph;
pub use helper::Helper;
pub use helpers::Helpers;
pub use parallel::close_marks_with;
pub use round::Round;
