//! A path from a root to an object. Nothing changes.
ghost use Rattle.std.specs.Prelude.{◌≡◌, IfOk};
ghost use Rattle.heap_spec.specs.Heap.{Heap};
ghost use Rattle.plain_heap.specs.Standing.{StandsFor};
ghost use Rattle.plain_heap.specs.Paths.{TellsPath};

use super::PlainHeap;
use crate::paths::{Graph, PathStep, place_of};
use std::alloc::{AllocError, Global};

impl PlainHeap {
    /// A path from a root to the object with this base, its first step first. `None` exactly if the object isn't reached.
    pub fn path_to(&mut self, alloc: Global, base: u64) -> Result<Option<Vec<PathStep>>, AllocError>
        ensures path { IfOk result (λ path. (s : Heap) → StandsFor self.old s → TellsPath s base path) }
        ensures same { self.new ≡ self.old }
    {
        let Some(own) = self.directory.index_of(base) else {
            return Ok(None);
        };
        self.reach
            .list(&self.roots, &[], &self.words, &self.directory);
        let listing = &self.reach.listing;
        let Some(place) = place_of(&listing.order, own) else {
            return Ok(None);
        };
        let mut path = Vec::new(alloc);
        let graph = Graph {
            roots: &self.roots,
            words: &self.words,
            directory: &self.directory,
        };
        listing.walk_back(graph, place, &mut path)?;
        path.reverse();
        Ok(Some(path))
    }
}
