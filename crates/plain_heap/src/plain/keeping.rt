//! What keeps an object reached. Nothing changes.
ghost use Rattle.std.specs.Prelude.{◌≡◌, Some, slice_get};
ghost use Rattle.heap_spec.specs.Heap.{Heap};
ghost use Rattle.roots.specs.Roots.{root_words_of};
ghost use Rattle.roots.specs.Finding.{AreNotInto};
ghost use Rattle.plain_heap.specs.Standing.{StandsFor};
ghost use Rattle.plain_heap.specs.Keepers.{TellsKeeper};

use super::PlainHeap;
use crate::extent::Extent;
use crate::keepers::Keeper;

impl PlainHeap {
    // The word of another object that keeps an object into which no root points.
    fn keeping_word(&mut self, own: usize, object: Extent) -> Option<Keeper>
        requires there { slice_get self.old.objects own ≡ Some object }
        requires rootless { AreNotInto (root_words_of self.old.roots) object.base object.length }
        ensures keeper { (s : Heap) → StandsFor self.old s → TellsKeeper s object.base result }
        ensures same { self.new ≡ self.old }
    {
        self.reach
            .list(&self.roots, &[], &self.words, &self.directory);
        let order = &self.reach.listing.order;
        let Some((_, keeper)) = self.directory.link_into(order, &self.words, own, object) else {
            return None;
        };
        Some(keeper)
    }

    /// What keeps the object with this base reached: a root that points into it, or else a word of another reached object.
    /// `None` only if it isn't reached.
    pub fn keeper(&mut self, base: u64) -> Option<Keeper>
        ensures keeper { (s : Heap) → StandsFor self.old s → TellsKeeper s base result }
        ensures same { self.new ≡ self.old }
    {
        let own = self.directory.index_of(base)?;
        let object = self.directory.object(own);
        if let Some(root) = self.roots.root_into(object.base, object.length) {
            return Some(Keeper::ByRoot(root));
        }
        self.keeping_word(own, object)
    }
}
