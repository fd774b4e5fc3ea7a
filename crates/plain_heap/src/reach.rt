//! What is reached from the roots.
ghost use Rattle.std.specs.Prelude.{◌≡◌, [], IfOk, length};
ghost use Rattle.roots.specs.Roots.{root_words_of};
ghost use Rattle.plain_heap.specs.Reached.{MarksReached};
ghost use Rattle.plain_heap.specs.Listing.{HasListRoom, IsListing, KeepsRoom};
ghost use Rattle.plain_heap.specs.Aging.{MarksClosure};
ghost use Rattle.plain_heap.specs.Discovery.{IsDiscovered};

use crate::directory::Directory;
use crate::listing::Listing;
use roots::{RootWords, Roots};
use std::alloc::{AllocError, Global};

/// The objects that are reached, and the words of the roots from which they are.
#[derive(Drop)]
pub struct Reach {
    root_words: RootWords,
    pub(crate) listing: Listing,
}

impl Reach {
    // None are, and there is room for so many objects.
    pub(crate) fn new(alloc: Global, count: usize) -> Result<Reach, AllocError>
        ensures { IfOk result (λ reach. HasListRoom count reach.listing) }
    {
        let root_words = RootWords::new(alloc)?;
        let listing = Listing::new(alloc, count)?;
        Ok(Reach {
            root_words,
            listing,
        })
    }

    // Lists the objects that are reached from the roots, or from the objects with flags.
    pub(crate) fn list(
        &mut self,
        roots: &Roots,
        flags: &[bool],
        words: &[u64],
        directory: &Directory,
    )
        requires room { HasListRoom (length directory.now.owners.items) self.old.listing }
        requires words { length words.now ≡ length directory.now.owners.items }
        ensures marks { MarksClosure directory.now.origin (root_words_of roots.now) words.now directory.now.objects.items flags.now self.new.listing.marks.items }
        ensures reached { flags.now ≡ [] → MarksReached directory.now.origin (root_words_of roots.now) words.now directory.now.objects.items self.new.listing.marks.items }
        ensures discovered { flags.now ≡ [] → IsDiscovered directory.now.origin (root_words_of roots.now) words.now directory.now.objects.items self.new.listing.order.items }
        ensures listed { IsListing directory.now.objects.items self.new.listing }
        ensures room { KeepsRoom self.old.listing self.new.listing }
    {
        roots.write_words(&mut self.root_words);
        self.listing
            .list_closure(self.root_words.as_slice(), flags, words, directory);
    }
}
