//! An entry of the mark stack.

/// An object to be read: its base, the number of its next word, and how many words it has.
#[derive(Clone, Copy, Debug, Default)]
pub struct Entry {
    pub base: u64,
    pub next: u32,
    pub len: u32,
}
