//! The rows of `tests/rows` by the library's call: each script is run from a reader to a writer in memory, and what is written is compared.
//! `tests/rows/as_tests` writes the files of rows, and `tests/rows.sh`, which runs the same rows by the proved programs, fails where one of them
//! says something else. A check takes no file of more than some 20,000 bytes, so some tables stand in two.
#![tactic(auto)]

#[cfg(test)]
mod bad_line;
#[cfg(test)]
mod bad_lines;
#[cfg(test)]
mod calls;
#[cfg(test)]
mod collections;
#[cfg(test)]
mod cut_again;
#[cfg(test)]
mod edges;
#[cfg(test)]
mod finding;
#[cfg(test)]
mod finding_2;
#[cfg(test)]
mod finding_3;
#[cfg(test)]
mod full_mark_stack;
#[cfg(test)]
mod linking;
#[cfg(test)]
mod marking;
#[cfg(test)]
mod marking_2;
#[cfg(test)]
mod partial_cycles;
#[cfg(test)]
mod rooms;
#[cfg(test)]
mod rooms_2;
#[cfg(test)]
mod row;
#[cfg(test)]
mod sweeps;
