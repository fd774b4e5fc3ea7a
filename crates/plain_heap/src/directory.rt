//! Which object lies where: the objects in a row, and of each word of the heap which object has it, so that an object is found
//! without a search.
ghost use Rattle.std.specs.Prelude.{◌≡◌, ◌≤◌, ◌<◌, ◌%◌, ◌++◌, ◌∷◌, [], IfSome, IfNone, IfOk, IfErr, IsTrue, false, All, Contains, Some, length, slice_get};
ghost use Rattle.std.specs.List.{swap_remove};
ghost use Rattle.std.specs.Vec.{vec_capacity};
ghost use Rattle.words.specs.declared.limits.TheConstants.{WORD_BYTES};
ghost use Rattle.heap_spec.specs.Layout.{PointsInto};
ghost use Rattle.plain_heap.specs.Along.{holds_word, has_base};
ghost use Rattle.plain_heap.specs.Owners.{AreOwners};
ghost use Rattle.plain_heap.specs.Parting.{Parts};
ghost use Rattle.plain_heap.specs.Places.{IsFresh, IsNoBase};
ghost use Rattle.plain_heap.specs.Standing.{LiesIn};

use crate::extent::Extent;
use crate::owners::{word_index, write_owner, write_owners};
use crate::parting::keep_flagged;
use std::alloc::{AllocError, Global};
use words::Refusal;

/// The objects of a heap whose first word has the address `origin`. The order of the row says nothing.
#[derive(Drop)]
pub struct Directory {
    pub(crate) origin: u64,
    objects: Vec<Extent>,
    // For each word of the heap the place in the row of the object that has it. Those that no object has are open.
    owners: Vec<u64>,
    ghost starts: { origin % WORD_BYTES ≡ 0 },
    ghost lie: { All (LiesIn origin owners.items) objects.items },
    ghost owned: { AreOwners origin objects.items owners.items },
    ghost few: { length objects.items ≤ length owners.items },
    ghost room: { length owners.items ≤ vec_capacity objects },
}

impl Directory {
    // A directory of a heap of so many words, without objects, and with room for as many as there are words.
    pub(crate) fn new(alloc: Global, origin: u64, words: usize) -> Result<Directory, AllocError>
        requires { origin % WORD_BYTES ≡ 0 }
        ensures { IfOk result (λ d. (d.origin ≡ origin) × (d.objects.items ≡ []) × (length d.owners.items ≡ words)) }
    {
        let objects = Vec::with_capacity(alloc, words)?;
        let owners = vec![in alloc; 0u64; words]?;
        Ok(Directory {
            origin,
            objects,
            owners,
        })
    }

    // The objects, in the order of the row.
    pub(crate) fn objects(&self) -> &[Extent]
        ensures { result.now ≡ self.now.objects.items }
    {
        self.objects.as_slice()
    }

    // How many objects there are.
    pub(crate) fn len(&self) -> usize
        ensures { result ≡ length self.now.objects.items }
    {
        self.objects.len()
    }

    // The object at a place.
    pub(crate) fn object(&self, index: usize) -> Extent
        requires { index < length self.now.objects.items }
        ensures { slice_get self.now.objects.items index ≡ Some result }
    {
        self.objects[index]
    }

    // The place of the object that the address points into.
    pub(crate) fn index_at(&self, address: u64) -> Option<usize>
        ensures some { IfSome result (λ i. (e : Extent) × (slice_get self.now.objects.items i ≡ Some e) × PointsInto address e.base e.length) }
        ensures none { IfNone result (All (λ e. PointsInto address e.base e.length → ⊥) self.now.objects.items) }
    {
        if address < self.origin {
            return None;
        }
        let position = word_index(self.origin, address);
        if position >= self.owners.len() {
            return None;
        }
        let index = self.owners[position] as usize;
        if index >= self.len() {
            return None;
        }
        // A word of no object may have an owner that was there before.
        if !self.object(index).contains(address) {
            return None;
        }
        Some(index)
    }

    // The place of the object with this base.
    pub(crate) fn index_of(&self, base: u64) -> Option<usize>
        ensures some { IfSome result (λ i. (e : Extent) × (slice_get self.now.objects.items i ≡ Some e) × (e.base ≡ base)) }
        ensures none { IfNone result (All (λ e. e.base ≡ base → ⊥) self.now.objects.items) }
    {
        let index = self.index_at(base)?;
        if self.object(index).base != base {
            return None;
        }
        Some(index)
    }

    // The object that the address points into.
    pub(crate) fn object_at(&self, address: u64) -> Option<Extent>
        ensures some { IfSome result (λ e. Contains self.now.objects.items e × PointsInto address e.base e.length) }
        ensures none { IfNone result (All (λ e. PointsInto address e.base e.length → ⊥) self.now.objects.items) }
    {
        let index = self.index_at(address)?;
        Some(self.object(index))
    }

    // The object that the address points into, for a call that is refused where there is none.
    pub(crate) fn find(&self, address: u64) -> Result<Extent, Refusal>
        ensures ok { IfOk result (λ e. Contains self.now.objects.items e × PointsInto address e.base e.length) }
        ensures err { IfErr result (λ refusal. (refusal ≡ Refusal.NoObject) × All (λ e. PointsInto address e.base e.length → ⊥) self.now.objects.items) }
    {
        self.object_at(address).ok_or(Refusal::NoObject)
    }

    // Whether one of the objects has the word at the address.
    pub(crate) fn has_word(&self, address: u64) -> bool
        ensures test { result ≡ holds_word self.now.objects.items address }
        ensures yes { IsTrue result → All (λ e. PointsInto address e.base e.length → ⊥) self.now.objects.items → ⊥ }
        ensures no { result ≡ false → All (λ e. PointsInto address e.base e.length → ⊥) self.now.objects.items }
    {
        let Some(_) = self.index_at(address) else {
            return false;
        };
        true
    }

    // Whether one of the objects has this base.
    pub(crate) fn has_base(&self, base: u64) -> bool
        ensures test { result ≡ has_base self.now.objects.items base }
        ensures yes { IsTrue result → IsNoBase self.now.objects.items base → ⊥ }
        ensures no { result ≡ false → IsNoBase self.now.objects.items base }
    {
        let Some(_) = self.index_of(base) else {
            return false;
        };
        true
    }

    // An object more.
    pub(crate) fn insert(&mut self, object: Extent)
        requires inside { LiesIn self.old.origin self.old.owners.items object }
        requires fresh { IsFresh self.old.objects.items object }
        requires room { length self.old.objects.items < length self.old.owners.items }
        ensures objects { self.new.objects.items ≡ self.old.objects.items ++ object ∷ [] }
        ensures origin { self.new.origin ≡ self.old.origin }
        ensures words { length self.new.owners.items ≡ length self.old.owners.items }
    {
        let index = self.len();
        self.objects.push_reserved(object);
        write_owner(self.origin, &self.objects, &mut self.owners, index);
    }

    // Takes the object at a place out, and the last one comes to its place.
    pub(crate) fn remove(&mut self, index: usize) -> Extent
        requires { index < length self.old.objects.items }
        ensures removed { slice_get self.old.objects.items index ≡ Some result }
        ensures objects { self.new.objects.items ≡ swap_remove self.old.objects.items index result }
        ensures origin { self.new.origin ≡ self.old.origin }
        ensures words { length self.new.owners.items ≡ length self.old.owners.items }
    {
        let object = self.objects.swap_remove(index);
        write_owner(self.origin, &self.objects, &mut self.owners, index);
        object
    }

    // Keeps the objects whose flag is set, in their order, and answers how many others there were.
    pub(crate) fn keep_flagged(&mut self, flags: &[bool]) -> usize
        requires { length self.old.objects.items ≤ length flags.now }
        ensures parts { Parts self.old.objects.items flags.now self.new.objects.items result }
        ensures origin { self.new.origin ≡ self.old.origin }
        ensures words { length self.new.owners.items ≡ length self.old.owners.items }
    {
        let gone = keep_flagged(&mut self.objects, flags);
        write_owners(self.origin, &self.objects, &mut self.owners);
        gone
    }
}
