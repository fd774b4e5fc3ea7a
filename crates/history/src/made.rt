//! An event of a history.

/// What was made by whom: one call of a slot, with its reply.
pub struct Made<C, R> {
    /// The slot that made it.
    pub who: u8,
    /// What was asked.
    pub call: C,
    /// What was answered.
    pub reply: R,
}
