//! A path from a root to an object, found from its end: the list of reached objects is gone back.
ghost use Rattle.std.specs.Prelude.{◌≡◌, ◌<◌, ℕ, [], Contains, IfOk, IfSome, IfNone, OnOk, Some, length, reverse, slice_get};
ghost use Rattle.roots.specs.Roots.{root_words_of};
ghost use Rattle.plain_heap.specs.Discovery.{IsDiscovered};
ghost use Rattle.plain_heap.specs.Listing.{IsListing};
ghost use Rattle.plain_heap.specs.Paths.{IsRowPath, StepsBack};

use crate::directory::Directory;
use crate::keepers::Keeper;
use crate::listing::Listing;
use roots::Roots;
use std::alloc::AllocError;

/// A step of a path: what points into the object with this base.
#[derive(Clone, Copy, Debug, PartialEq, Eq)]
pub struct PathStep {
    pub keeper: Keeper,
    pub base: u64,
}

/// What a path is looked for in: the roots, the words, and the objects that they point into.
#[derive(Clone, Copy)]
pub(crate) struct Graph<'a> {
    pub(crate) roots: &'a Roots,
    pub(crate) words: &'a [u64],
    pub(crate) directory: &'a Directory,
}

// The place on the list of the object at one place of the row.
pub(crate) fn place_of(order: &[usize], own: usize) -> Option<usize>
    ensures some { IfSome result (λ place. slice_get order.now place ≡ Some own) }
    ensures none { IfNone result (Contains order.now own → ⊥) }
{
    for place in 0..order.len() {
        if order[place] == own {
            return Some(place);
        }
    }
    None
}

impl Listing {
    // Puts what points into the object at a place of the list behind a path: a root, or else a word of an object that is listed
    // before it, whose place is told.
    fn step_back(
        &self,
        graph: Graph,
        place: usize,
        path: &mut Vec<PathStep>,
    ) -> Result<Option<usize>, AllocError>
        requires within { place < length self.now.order.items }
        requires words { length graph.words.now ≡ length graph.directory.now.owners.items }
        requires listed { IsListing graph.directory.now.objects.items self.now }
        requires discovered { IsDiscovered graph.directory.now.origin (root_words_of graph.roots.now) graph.words.now graph.directory.now.objects.items self.now.order.items }
        ensures { IfOk result (λ before. StepsBack graph.entry.directory.now.origin graph.entry.roots.now graph.entry.words.now graph.entry.directory.now.objects.items self.now.order.items place path.old.items path.new.items before) }
    {
        let own = self.order[place];
        let object = graph.directory.object(own);
        let base = object.base;
        if let Some(root) = graph.roots.root_into(base, object.length) {
            let keeper = Keeper::ByRoot(root);
            path.push(PathStep { keeper, base })?;
            return Ok(None);
        }
        let earlier = &self.order[..place];
        let Some((before, keeper)) = graph.directory.link_into(earlier, graph.words, own, object)
        else {
            unreachable!();
        };
        path.push(PathStep { keeper, base })?;
        Ok(Some(before))
    }

    // The path to the object at a place of the list, its last step first.
    pub(crate) fn walk_back(
        &self,
        graph: Graph,
        start: usize,
        path: &mut Vec<PathStep>,
    ) -> Result<(), AllocError>
        requires within { start < length self.now.order.items }
        requires words { length graph.words.now ≡ length graph.directory.now.owners.items }
        requires listed { IsListing graph.directory.now.objects.items self.now }
        requires discovered { IsDiscovered graph.directory.now.origin (root_words_of graph.roots.now) graph.words.now graph.directory.now.objects.items self.now.order.items }
        requires empty { path.old.items ≡ [] }
        ensures { OnOk result ((own : ℕ) → slice_get self.now.order.items start ≡ Some own → IsRowPath graph.entry.directory.now.origin graph.entry.roots.now graph.entry.words.now graph.entry.directory.now.objects.items (reverse path.new.items) own) }
    {
        let mut place = start;
        loop {
            let Some(before) = self.step_back(graph, place, path)? else {
                return Ok(());
            };
            place = before;
        }
    }
}
