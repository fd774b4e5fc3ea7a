//! The objects that are reached: a list that grows while it is gone along, and a row that marks what is listed.
ghost use Rattle.std.specs.Prelude.{◌≡◌, ◌∷◌, [], IfOk, length};
ghost use Rattle.plain_heap.specs.Reached.{MarksReached, links_of};
ghost use Rattle.plain_heap.specs.Standing.{LiesIn};
ghost use Rattle.plain_heap.specs.Listing.{HasListRoom, IsListing, ListsAll, KeepsRoom};
ghost use Rattle.plain_heap.specs.Aging.{ListsFlagged, MarksClosure};
ghost use Rattle.plain_heap.specs.Discovery.{IsDiscovered};

use crate::directory::Directory;
use crate::extent::Extent;
use crate::owners::word_index;
use std::alloc::{AllocError, Global};
use words::Kind;

/// Objects by their places in a directory: those that are marked, and the same in the order in which they were listed.
#[derive(Drop)]
pub struct Listing {
    pub marks: Vec<bool>,
    pub order: Vec<usize>,
}

// The words of an object that the collector reads.
pub(crate) fn links(object: Extent, origin: u64, words: &[u64]) -> &[u64]
    requires { LiesIn origin words.now object }
    ensures { result.now ≡ links_of origin words.now object }
{
    if object.kind == Kind::PointerFree {
        return &[];
    }
    let start = word_index(origin, object.base);
    let end = start + object.length as usize;
    &words[start..end]
}

impl Listing {
    // An empty list with room for so many objects.
    pub(crate) fn new(alloc: Global, count: usize) -> Result<Listing, AllocError>
        ensures { IfOk result (λ listing. HasListRoom count listing) }
    {
        let marks = vec![in alloc; false; count]?;
        let order = Vec::with_capacity(alloc, count)?;
        Ok(Listing { marks, order })
    }

    // Takes all objects off the list.
    fn clear(&mut self, directory: &Directory)
        requires { HasListRoom (length directory.now.owners.items) self.old }
        ensures ready { IsListing directory.now.objects.items self.new }
        ensures none { self.new.order.items ≡ [] }
        ensures room { KeepsRoom self.old self.new }
    {
        self.marks.fill(false);
        self.order.clear();
    }

    // Lists the object that a word points into, unless it is listed.
    fn list_one(&mut self, word: u64, directory: &Directory)
        requires { IsListing directory.now.objects.items self.old }
        ensures { ListsAll directory.now.objects.items (word ∷ []) self.old self.new }
    {
        let Some(index) = directory.index_at(word) else {
            return;
        };
        if self.marks[index] {
            return;
        }
        self.marks[index] = true;
        self.order.push_reserved(index);
    }

    // Lists the objects that some words point into.
    fn list_all(&mut self, words: &[u64], directory: &Directory)
        requires { IsListing directory.now.objects.items self.old }
        ensures { ListsAll directory.now.objects.items words.now self.old self.new }
    {
        for word in words {
            self.list_one(*word, directory);
        }
    }

    // Lists the objects that have their flags.
    fn list_flagged(&mut self, flags: &[bool], directory: &Directory)
        requires { IsListing directory.now.objects.items self.old }
        ensures { ListsFlagged directory.now.origin directory.now.objects.items directory.now.objects.items flags.now self.old self.new }
    {
        for index in 0..directory.len() {
            let base = directory.object(index).base;
            if directory.is_flagged(base, flags) {
                self.list_one(base, directory);
            }
        }
    }

    // Lists the objects that are reached from these roots, or from the objects with flags.
    pub(crate) fn list_closure(
        &mut self,
        roots: &[u64],
        flags: &[bool],
        words: &[u64],
        directory: &Directory,
    )
        requires room { HasListRoom (length directory.now.owners.items) self.old }
        requires words { length words.now ≡ length directory.now.owners.items }
        ensures marks { MarksClosure directory.now.origin roots.now words.now directory.now.objects.items flags.now self.new.marks.items }
        ensures reached { flags.now ≡ [] → MarksReached directory.now.origin roots.now words.now directory.now.objects.items self.new.marks.items }
        ensures discovered { flags.now ≡ [] → IsDiscovered directory.now.origin roots.now words.now directory.now.objects.items self.new.order.items }
        ensures listed { IsListing directory.now.objects.items self.new }
        ensures room { KeepsRoom self.old self.new }
    {
        self.clear(directory);
        self.list_all(roots, directory);
        self.list_flagged(flags, directory);
        for next in 0..directory.len() {
            if next < self.order.len() {
                let object = directory.object(self.order[next]);
                self.list_all(links(object, directory.origin, words), directory);
            }
        }
    }
}
