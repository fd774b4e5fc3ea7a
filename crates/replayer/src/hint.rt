//! What a reply leaves open.

/// What a checker has to be told besides a reply, which doesn't say where an object went or which objects are gone.
#[derive(Clone, Copy, Debug)]
pub enum Hint<'a> {
    /// The reply says it all, and a granted `collect` may be told so too.
    Nothing,

    /// The base of the object that a granted `alloc` made.
    Place(u64),

    /// The bases of the objects that a granted `finish` or `collect` forgot.
    Forgot(&'a [u64]),
}
