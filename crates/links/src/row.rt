//! The row of links.
ghost use Rattle.std.specs.Prelude.{◌≡◌, ◌%◌, ◌<◌, ◌≤◌, [], length, MatchBool};
ghost use Rattle.words.specs.declared.limits.TheConstants.{WORD_BYTES, MAX_LINKS};
ghost use Rattle.words.specs.declared.class.Kind.TheVariants.{Normal, PointerFree};
ghost use Rattle.links.specs.Rows.{has_at, but_at, with_link_at, IsAlignedRow, IsRow, HasRowRoom, LacksRowRoom};

use arrayvec::ArrayVec;
use std::marker::Model;
use words::Kind;
use words::limits::MAX_LINKS;

const MOST: usize = MAX_LINKS as usize;

/// A link: the address of its word, and the base of the object that it names.
#[derive(Clone, Copy, Debug, Default)]
pub struct Link {
    pub address: u64,
    pub base: u64,
}

/// The links that stand, in the order in which they were made.
#[derive(Drop)]
pub struct Links {
    row: ArrayVec<Link, MOST>,
}

impl Model for Links {
    ghost use Rattle.std.specs.Prelude.{List, ◌≤◌, length};
    ghost use Rattle.words.specs.declared.limits.TheConstants.{MAX_LINKS};
    ghost use Rattle.links.specs.declared.row.Link.{Link};
    ghost use Rattle.links.specs.Rows.{IsAlignedRow, IsRow};

    ghost Value = { List Link };

    ghost view = { λ l. l.row.items };

    ghost invariant = { λ l. IsRow l.row.items };
}

/// Whether the collector reads words of the kind: then no link stands in an object of it.
pub fn is_normal(kind: Kind) -> bool
    ensures { MatchBool result (kind ≡ Normal) (kind ≡ PointerFree) }
{
    match kind {
        Kind::Normal => true,
        Kind::PointerFree => false,
    }
}

// Whether one of the links stands at an address.
fn has_in(row: &[Link], address: u64) -> bool
    ensures { result ≡ has_at row.now address }
{
    for link in row {
        if link.address == address {
            return true;
        }
    }
    false
}

// Copies the links but for one at an address.
fn copy_but(row: &[Link], address: u64, into: &mut ArrayVec<Link, MOST>)
    requires empty { into.old.items ≡ [] }
    requires few { length row.now ≤ MAX_LINKS }
    ensures { into.new.items ≡ but_at row.now address }
{
    for link in row {
        if link.address != address {
            into.push(*link);
        }
    }
}

impl Links {
    /// No link.
    pub fn new() -> Links
        ensures { result ≡ [] }
    {
        Links {
            row: ArrayVec::new(),
        }
    }

    /// Whether no link stands.
    #[inline]
    pub fn is_empty(&self) -> bool
        ensures { MatchBool result (self.now ≡ []) (0 < length self.now) }
    {
        self.row.is_empty()
    }

    /// Whether as many stand as there is room for.
    pub fn is_full(&self) -> bool
        ensures { MatchBool result (length self.now ≡ MAX_LINKS) (length self.now < MAX_LINKS) }
    {
        self.row.len() == MOST
    }

    /// Whether a link stands at an address.
    pub fn has(&self, address: u64) -> bool
        ensures { result ≡ has_at self.now address }
    {
        has_in(self.row.as_slice(), address)
    }

    /// Whether there is room for a link at an address.
    pub fn has_room(&self, address: u64) -> bool
        ensures { MatchBool result (HasRowRoom self.now address) (LacksRowRoom self.now address) }
    {
        if !self.is_full() {
            return true;
        }
        self.has(address)
    }

    /// The links.
    #[inline]
    pub fn as_slice(&self) -> &[Link]
        ensures links { result.now ≡ self.now }
        ensures row { IsRow self.now }
    {
        self.row.as_slice()
    }

    /// Takes the link at an address away, if one stands there.
    pub fn unlink(&mut self, address: u64)
        ensures { self.new ≡ but_at self.old address }
    {
        let row = self.row.take();
        copy_but(row.as_slice(), address, &mut self.row);
    }

    /// Makes a link at an address to the object with a base, in place of one that stands there.
    pub fn link(&mut self, address: u64, base: u64)
        requires aligned { address % WORD_BYTES ≡ 0 }
        requires room { HasRowRoom self.old address }
        ensures { self.new ≡ with_link_at self.old address base }
    {
        let row = self.row.take();
        copy_but(row.as_slice(), address, &mut self.row);
        self.row.push(Link { address, base });
    }

    /// Lets the row be these links of it.
    pub fn keep(&mut self, kept: ArrayVec<Link, MOST>)
        requires { IsAlignedRow kept.items }
        ensures { self.new ≡ kept.items }
    {
        self.row = kept;
    }
}
