//! An object of the map, one that has come, and what is left where one went.
use words::{Class, Kind, PageNo};

/// An allocated object.
#[derive(Clone, Copy, Debug, PartialEq, Eq)]
pub struct Found {
    /// Its first address.
    pub base: u64,

    /// Its words.
    pub len: u32,

    /// Whether its words are read.
    pub kind: Kind,

    /// Its page; of a large object the first one.
    pub page: PageNo,

    /// Its cell of the page; 0 for a large object.
    pub cell: u16,
}

/// An object that a cell was taken for.
#[derive(Clone, Copy)]
pub struct Taken {
    /// The object.
    pub object: Found,

    /// Whether its cell was the last free one of its page.
    pub was_last: bool,
}

/// Cells of a page that were taken.
#[derive(Clone, Copy)]
pub struct TakenCells {
    /// How many.
    pub count: usize,

    /// Whether no cell of the page is free now.
    pub is_full: bool,
}

/// A page on which a cell became free.
#[derive(Clone, Copy)]
pub struct Put {
    /// The class of its cells.
    pub class: Class,

    /// The kind of its objects.
    pub kind: Kind,

    /// Whether each of its cells was allocated.
    pub was_full: bool,

    /// Whether none is now.
    pub is_empty: bool,
}
