//! What the program reads from and writes to.

/// The standard streams of the program.
#[derive(Drop)]
pub struct Streams<I, O, E> {
    /// The script of `run`, where no file is named.
    pub input: I,

    /// Where replies go, and a random script.
    pub output: O,

    /// Where a fault is told.
    pub errors: E,
}
