//! The links of a heap, in a row of fixed size: for each the address of its word, and the base of the object that it
//! names. This crate touches no object, and takes no memory. Who lets objects go looks which links go with them.
//!
//! # What is proved
//!
//! `link`, `unlink`, `has_room` and `keep` change or ask the row, each by one function of it (`with_link_at`, `but_at`). `AreNamed`
//! says that a heap has these links; that it stays so when objects leave, and which words then become 0, is a lemma over two tests
//! of addresses (`TellObjects`), and what the contracts above this crate rest on.
#![tactic(auto)]

mod row;

pub use row::{Link, Links, is_normal};
