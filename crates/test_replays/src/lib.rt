//! Runs of the core judged by the checker of runs, line by line: it says yes to each.
#![tactic(auto)]

#[cfg(test)]
mod judged;
#[cfg(test)]
mod orders;
#[cfg(test)]
mod scripts_of_all_calls;
