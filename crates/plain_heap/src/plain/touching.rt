//! Flags that a caller keeps of the objects that were touched since a cycle began: how they are set, and how they tell what has to
//! be forgotten.
ghost use Rattle.std.specs.Prelude.{◌≡◌, ◌↔◌, ℕ, IsTrue, IfSome, IfNone, false, length};
ghost use Rattle.heap_spec.specs.Heap.{Heap};
ghost use Rattle.heap_spec.specs.Laws.{IsNoAlloc};
ghost use Rattle.heap_spec.specs.Touching.{IsBrought, StandsIn};
ghost use Rattle.plain_heap.specs.Standing.{StandsFor};
ghost use Rattle.plain_heap.specs.Flags.{FlagsReached, FlagsLed, FlagsBrought, ForgetsUnflagged, CantForget};

use super::PlainHeap;
use crate::flags::has_no_links;
use heap_spec::Call;
use words::{Reg, Slot};

// The register whose word a call brings to where the collector reads it.
fn moved(call: &Call) -> Option<Reg>
    ensures some { IfSome result (λ r. (slot : ℕ) (s s' : Heap) (w : ℕ) → IsBrought s slot call.now s' w ↔ StandsIn s' slot r w) }
    ensures none { IfNone result (IsNoAlloc call.now → (slot : ℕ) (s s' : Heap) (w : ℕ) → IsBrought s slot call.now s' w → ⊥) }
{
    match call {
        // What a request brings is its new object.
        Call::Alloc(_, _, _) => None,
        _ => call.brought_register(),
    }
}

impl PlainHeap {
    /// Sets the flags of all objects that are reached, and of no other.
    pub fn flag_reached(&mut self, flags: &mut [bool])
        ensures flags { FlagsReached self.old flags.new }
        ensures size { length flags.new ≡ length flags.old }
        ensures same { self.new ≡ self.old }
    {
        self.reach
            .list(&self.roots, &[], &self.words, &self.directory);
        flags.fill(false);
        self.directory.flag_marked(&self.reach.listing.marks, flags);
    }

    /// Sets the flags of all objects that a word leads to, unless what it points into has its flag: then so have they.
    pub fn flag_led(&mut self, word: u64, flags: &mut [bool])
        ensures flags { FlagsLed self.old word flags.old flags.new }
        ensures same { self.new ≡ self.old }
    {
        let Some(object) = self.directory.object_at(word) else {
            return;
        };
        if self.directory.is_flagged(object.base, flags) {
            return;
        }
        // A new object needs no more.
        if has_no_links(object, self.directory.origin, &self.words) {
            self.directory.set_flag(object.base, true, flags);
            return;
        }
        let listing = &mut self.reach.listing;
        listing.list_closure(&[word], &[], &self.words, &self.directory);
        self.directory.flag_marked(&self.reach.listing.marks, flags);
    }

    /// Takes out the objects with these bases, if they are distinct objects none of which is reached, and every object without
    /// a flag is among them. Else nothing changes.
    pub fn forget(&mut self, bases: &[u64], flags: &[bool]) -> bool
        ensures yes { IsTrue result → ForgetsUnflagged self.old flags.now bases.now self.new }
        ensures no { result ≡ false → CantForget self.old flags.now bases.now }
        ensures same { result ≡ false → self.new ≡ self.old }
        ensures origin { self.new.origin ≡ self.old.origin }
    {
        let None = self.wrong_forgotten(bases, flags) else {
            return false;
        };
        self.take_out(bases);
        true
    }

    // The word of a register, if the slot has a mutator.
    fn register_word(&self, slot: Slot, reg: Reg) -> Option<u64>
        ensures some { IfSome result (λ w. (s : Heap) → StandsFor self.now s → StandsIn s slot reg w) }
        ensures none { IfNone result ((s : Heap) (w : ℕ) → StandsFor self.now s → StandsIn s slot reg w → ⊥) }
    {
        let mutator = self.mutator(slot)?;
        Some(mutator.word(reg))
    }

    /// Sets the flags of all objects that the word leads to which a call has brought to where a collector reads it. It was
    /// made, and is no granted request.
    pub fn flag_brought(&mut self, slot: Slot, call: &Call, flags: &mut [bool])
        ensures flags { FlagsBrought self.old slot call.now flags.old flags.new }
        ensures same { self.new ≡ self.old }
    {
        let Some(reg) = moved(call) else {
            return;
        };
        let Some(word) = self.register_word(slot, reg) else {
            return;
        };
        self.flag_led(word, flags);
    }
}
