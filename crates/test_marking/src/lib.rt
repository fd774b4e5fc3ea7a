//! Heaps that are laid out here and marked by helpers, against plain loops over what was put there; threads that claim marks; and which
//! object a word points into, by a table.
#![tactic(auto)]

#[cfg(test)]
mod claims;
#[cfg(test)]
mod coming;
#[cfg(test)]
mod deals;
#[cfg(test)]
mod finding;
#[cfg(test)]
mod graph;
#[cfg(test)]
mod heap;
#[cfg(test)]
mod helpers;
#[cfg(test)]
mod owners;
#[cfg(test)]
mod scene;
#[cfg(test)]
mod shares;
#[cfg(test)]
mod starts;
#[cfg(test)]
mod wide;
