//! The head of a large object.
use words::Kind;

/// A large object: how many consecutive pages it has, and its kind. It is allocated as long as it stands.
#[derive(Clone, Copy, Debug, PartialEq, Eq)]
pub struct LargeHead {
    /// Its pages, from its first one on.
    pub pages: u32,

    /// Whether its words are read.
    pub kind: Kind,
}
