//! The limits of random scripts.

/// The most lines of a random script behind its attaches.
pub const MAX_STEPS: u32 = 100_000;
