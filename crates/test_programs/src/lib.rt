//! The program around its words, by the library's call: what it prints, what it says and its status, with readers and writers in memory that
//! fail where they are told to. `tests/command_line.sh` calls the built program, with files.
#![tactic(auto)]

#[cfg(test)]
mod called;
#[cfg(test)]
mod cases;
#[cfg(test)]
mod faults;
