//! What keeps an object reached: a root, or a word of another object.
ghost use Rattle.std.specs.Prelude.{◌≡◌, ◌<◌, ℕ, All, Contains, IfSome, IfNone, Some, length, slice_get};
ghost use Rattle.plain_heap.specs.Keepers.{IsLinkAt, HasNoLink};

use crate::directory::Directory;
use crate::extent::Extent;
use crate::listing::links;
use roots::{Root, first_into};

/// What keeps an object reached: where a word stands that the collector reads and that points into it.
#[derive(Clone, Copy, Debug, PartialEq, Eq)]
pub enum Keeper {
    /// A root.
    ByRoot(Root),

    /// A word of another object, by that object's base and counted from its first word.
    ByWord(u64, usize),
}

impl Directory {
    // The word of the object at one place that keeps the object at its own.
    fn link_at(&self, position: usize, words: &[u64], own: usize, object: Extent) -> Option<Keeper>
        requires within { position < length self.now.objects.items }
        requires words { length words.now ≡ length self.now.owners.items }
        ensures some { IfSome result (λ keeper. IsLinkAt self.now.origin words.now self.now.objects.items own object position keeper) }
        ensures none { IfNone result (HasNoLink self.now.origin words.now self.now.objects.items own object position) }
    {
        if position == own {
            return None;
        }
        let holder = self.object(position);
        let Some(index) = first_into(
            links(holder, self.origin, words),
            object.base,
            object.length,
        ) else {
            return None;
        };
        Some(Keeper::ByWord(holder.base, index))
    }

    // The first word of the objects in this order that keeps the object at its own place, and the place of its object in the order.
    pub(crate) fn link_into(
        &self,
        order: &[usize],
        words: &[u64],
        own: usize,
        object: Extent,
    ) -> Option<(usize, Keeper)>
        requires below { (i : ℕ) → Contains order.now i → i < length self.now.objects.items }
        requires words { length words.now ≡ length self.now.owners.items }
        ensures some { IfSome result (λ found. (i : ℕ) × (slice_get order.now found.0 ≡ Some i) × IsLinkAt self.now.origin words.now self.now.objects.items own object i found.1) }
        ensures none { IfNone result (All (HasNoLink self.now.origin words.now self.now.objects.items own object) order.now) }
    {
        for next in 0..order.len() {
            if let Some(keeper) = self.link_at(order[next], words, own, object) {
                return Some((next, keeper));
            }
        }
        None
    }
}
