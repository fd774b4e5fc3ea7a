//! The marks of the heap's granules.
//!
//! [`Marks`] is a set of granules that one thread changes. [`MarkTable`] is the same set while several threads
//! mark side by side, and each mark is won by one of them. Neither knows what lies at a granule.
//!
//! # What is proved
//!
//! `set`, `clear` and `clear_all` of the set are exact. On the table a thread claims a mark by one `fetch_or` and looks by
//! one `load`; neither takes a handle to wait. For every schedule each bit set since the table was made stands in exactly one won
//! list, and when all claimers are joined the marks are those at the start and the won lists together, each once (`Gathers` of
//! `finish`, `gathered_marks`). A table has the words of all pages, or of those in use alone (`granules_of`).
#![tactic(auto)]

mod claimer_view;
mod gathers;
mod marks;
mod table;

pub use claimer_view::ClaimerView;
pub use gathers::gathered_marks;
pub use marks::Marks;
pub use table::{Claimer, MarkTable};
