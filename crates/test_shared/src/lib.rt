//! The heap behind the lock, as its users see it: worked rows in one thread, mutators in threads of their own, and cycles
//! beside them; and the worked example of a history.
#![tactic(auto)]

#[cfg(test)]
mod alone;
#[cfg(test)]
mod attached;
#[cfg(test)]
mod cycles;
#[cfg(test)]
mod departed;
#[cfg(test)]
mod helped;
#[cfg(test)]
mod register;
#[cfg(test)]
mod rows;
#[cfg(test)]
mod scenes;
#[cfg(test)]
mod serve;
#[cfg(test)]
mod stress;
#[cfg(test)]
mod threads;
#[cfg(test)]
mod unlocked;
