//! The memory of the heap and the pool of its free pages. Nothing above this crate touches a word of the heap but
//! through [`Memory`] and [`Reader`], and this crate knows nothing of objects.
//!
//! # What is proved
//!
//! Contracts see the heap's words as a list; the reader counts its reads at no cost, and ends into a `ReadCount`, to which
//! nothing else adds. `read`, `write` and `zero` say exactly which words change; `read_run` counts so many words in a row and
//! gives each of them once, singly or by four (`Words`).
//! `take_run` gives n consecutive free pages, and `None` exactly where there are none; `next_taken` finds those in use,
//! and `next_run` the runs of free ones.
#![tactic(auto)]

mod count;
mod hints;
mod memory;
mod moments;
mod opening;
mod pool;
mod read_count;
mod reader;
mod run;
mod starts;

pub use count::Count;
pub use memory::Memory;
pub use moments::Moments;
pub use opening::is_page_count;
pub use pool::{FreeRun, PagePool};
pub use read_count::{ReadCount, Uncounted};
pub use reader::Reader;
pub use run::Words;
