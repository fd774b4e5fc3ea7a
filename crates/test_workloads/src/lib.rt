//! Scripts and workloads as their readers and writers see them: readers, writers and memory that fail. On threads workloads under gates
//! that hold actors back; and pauses with helpers as users of a core see them: they keep what a pause alone keeps. Rows of good and bad lines are in `tests/rows`, and `tests/random.sh` has random ones.
#![tactic(auto)]

#[cfg(test)]
mod beside_cycles;
#[cfg(test)]
mod cores;
#[cfg(test)]
mod failures;
#[cfg(test)]
mod gates;
#[cfg(test)]
mod helped_cores;
#[cfg(test)]
mod helped_cycles;
#[cfg(test)]
mod long_lines;
#[cfg(test)]
mod pause;
#[cfg(test)]
mod printed;
#[cfg(test)]
mod raced_links;
#[cfg(test)]
mod random_scripts;
#[cfg(test)]
mod refused;
#[cfg(test)]
mod refused_helpers;
#[cfg(test)]
mod rows;
#[cfg(test)]
mod runs;
#[cfg(test)]
mod script_faults;
#[cfg(test)]
mod small_steps;
#[cfg(test)]
mod std_calls;
#[cfg(test)]
mod turns;
#[cfg(test)]
mod worked;
#[cfg(test)]
mod workload_rows;
