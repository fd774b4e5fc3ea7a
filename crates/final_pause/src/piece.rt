//! Words in a row of an object.
use block_map::Found;

/// So many words of an object, from its word `first` on.
#[derive(Clone, Copy)]
pub(crate) struct Piece {
    pub(crate) found: Found,
    pub(crate) first: u32,
    pub(crate) count: u64,
}
