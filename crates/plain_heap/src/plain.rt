//! The plain heap, and how it is made.
ghost use Rattle.std.specs.Prelude.{◌≡◌, ◌%◌, ◌<◌, ◌↔◌, IfOk, Err, ◌⊎◌};
ghost use Rattle.words.specs.declared.limits.TheConstants.{FIRST_ADDRESS, WORD_BYTES, MAX_PAGES};
ghost use Rattle.words.specs.declared.refusal.OpenError.TheVariants.{BadPages};
ghost use Rattle.heap_spec.specs.Layout.{word_end};
ghost use Rattle.heap_spec.specs.Heap.{opening};
ghost use Rattle.plain_heap.specs.PlainContents.{end_of};

mod aging;
mod answers;
mod collections;
mod judging;
mod keeping;
pub(crate) mod laws;
mod leading;
mod linked;
mod looking;
mod objects;
mod registers;
mod replaying;
mod touching;

use crate::directory::Directory;
use crate::reach::Reach;
use links::Links;
use roots::Roots;
use std::alloc::Global;
use std::marker::Model;
use words::OpenError;
use words::limits::{FIRST_ADDRESS, MAX_PAGES, MAX_REQUEST_WORDS, PAGE_WORDS};

/// A plain heap.
#[derive(Drop)]
pub struct PlainHeap {
    pages: u32,
    words: Vec<u64>,
    directory: Directory,
    roots: Roots,
    reach: Reach,
    stays: Vec<bool>,
    links: Links,
}

impl Model for PlainHeap {
    ghost use Rattle.std.specs.Prelude.{length};
    ghost use Rattle.plain_heap.specs.PlainContents.{PlainContents, IsLaidOut};
    ghost use Rattle.plain_heap.specs.Listing.{HasMemory};

    ghost Value = { PlainContents };

    ghost view = { λ c. record { origin = c.directory.origin; pages = c.pages; words = c.words.items; objects = c.directory.objects.items; roots = c.roots; links = c.links } };

    ghost invariant = { λ c. IsLaidOut (record { origin = c.directory.origin; pages = c.pages; words = c.words.items; objects = c.directory.objects.items; roots = c.roots; links = c.links })
        × HasMemory (length c.words.items) (length c.directory.owners.items) c.reach.listing (length c.stays.items) };
}

impl PlainHeap {
    ghost use Rattle.plain_heap.specs.Standing.{StandsFor};

    /// A plain heap of so many pages that begins where heaps with size classes do. All memory that it ever takes is taken here.
    pub fn new(alloc: Global, pages: u32) -> Result<PlainHeap, OpenError>
        ensures ok { IfOk result (λ plain. StandsFor plain (opening pages)) }
        ensures origin { IfOk result (λ plain. plain.origin ≡ FIRST_ADDRESS) }
        ensures bad_pages { (result ≡ Err BadPages) ↔ ((pages ≡ 0) ⊎ (MAX_PAGES < pages)) }
    {
        PlainHeap::new_from(alloc, FIRST_ADDRESS, pages)
    }

    /// A plain heap of so many pages whose first word has this address. All memory that it ever takes is taken here.
    pub fn new_from(alloc: Global, origin: u64, pages: u32) -> Result<PlainHeap, OpenError>
        requires aligned { origin % WORD_BYTES ≡ 0 }
        requires past_zero { 0 < origin }
        requires fits { end_of origin pages < word_end }
        ensures ok { IfOk result (λ plain. StandsFor plain (opening pages)) }
        ensures origin { IfOk result (λ plain. plain.origin ≡ origin) }
        ensures bad_pages { (result ≡ Err BadPages) ↔ ((pages ≡ 0) ⊎ (MAX_PAGES < pages)) }
    {
        if pages == 0 || pages > MAX_PAGES {
            return Err(OpenError::BadPages);
        }
        let count = PAGE_WORDS as usize * pages as usize;
        let words = vec![in alloc; 0u64; count]?;
        let directory = Directory::new(alloc, origin, count)?;
        let roots = Roots::new(alloc, MAX_REQUEST_WORDS)?;
        let reach = Reach::new(alloc, count)?;
        let stays = vec![in alloc; true; count]?;
        Ok(PlainHeap {
            pages,
            words,
            directory,
            roots,
            reach,
            stays,
            links: Links::new(),
        })
    }
}
