//! What is marked.
use block_map::BlockMap;
use pages::Memory;

/// The objects of a heap, its words, and root words.
#[derive(Clone, Copy)]
pub struct Graph<'a> {
    pub map: &'a BlockMap,
    pub memory: &'a Memory,
    pub roots: &'a [u64],
}
