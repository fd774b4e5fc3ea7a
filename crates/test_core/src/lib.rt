//! A core whose memory is ample or refused.
#![tactic(auto)]

#[cfg(test)]
mod opening;
