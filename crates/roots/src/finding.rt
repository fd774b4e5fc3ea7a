//! Which root keeps an object: the first whose word points into it.
ghost use Rattle.std.specs.Prelude.{◌≡◌, ◌++◌, IfSome, IfNone, IsTrue, false, flat_map};
ghost use Rattle.heap_spec.specs.Heap.{words_of_slot};
ghost use Rattle.heap_spec.specs.Layout.{PointsInto};
ghost use Rattle.roots.specs.Finding.{IsInto, AreNotInto, MutatorHas, SlotHas, SlotsHave, RootsHave};
ghost use Rattle.roots.specs.Roots.{root_words_of};

use crate::mutator::Mutator;
use crate::mutator_slot::MutatorSlot;
use crate::roots::{Mutators, Roots};
use words::limits::{SLOTS, WORD_BYTES};

/// A root: where one of the root words stands.
#[derive(Clone, Copy, Debug, PartialEq, Eq)]
pub enum Root {
    /// A register of the mutator at a slot.
    Register(usize, usize),

    /// A word on the stack of the mutator at a slot, counted from the bottom.
    Stack(usize, usize),

    /// A global.
    Global(usize),
}

// Whether a word points into the object with this base and so many words.
fn points_into(word: u64, base: u64, length: u64) -> bool
    ensures yes { IsTrue result → PointsInto word base length }
    ensures no { result ≡ false → PointsInto word base length → ⊥ }
{
    base <= word && (word - base) / WORD_BYTES < length
}

/// The index of the first of some words that points into the object with this base and so many words.
pub fn first_into(words: &[u64], base: u64, length: u64) -> Option<usize>
    ensures some { IfSome result (λ index. IsInto words.now index base length) }
    ensures none { IfNone result (AreNotInto words.now base length) }
{
    for index in 0..words.len() {
        if points_into(words[index], base, length) {
            return Some(index);
        }
    }
    None
}

// The root of a mutator at this slot that points into an object.
fn mutator_into(mutator: &Mutator, number: usize, base: u64, length: u64) -> Option<Root>
    ensures some { IfSome result (λ root. MutatorHas number mutator.now root base length) }
    ensures none { IfNone result (AreNotInto (mutator.now.registers ++ mutator.now.stack) base length) }
{
    if let Some(index) = first_into(mutator.registers(), base, length) {
        return Some(Root::Register(number, index));
    }
    if let Some(index) = first_into(mutator.stack(), base, length) {
        return Some(Root::Stack(number, index));
    }
    None
}

// The root of a slot that points into an object.
fn slot_into(slot: &MutatorSlot, number: usize, base: u64, length: u64) -> Option<Root>
    ensures some { IfSome result (λ root. SlotHas slot.now number root base length) }
    ensures none { IfNone result (AreNotInto (words_of_slot slot.now) base length) }
{
    let Some(mutator) = slot.mutator() else {
        return None;
    };
    mutator_into(mutator, number, base, length)
}

// The first root of the mutators that points into an object.
fn slots_into(mutators: &Mutators, base: u64, length: u64) -> Option<Root>
    ensures some { IfSome result (λ root. SlotsHave mutators.now root base length) }
    ensures none { IfNone result (AreNotInto (flat_map words_of_slot mutators.now) base length) }
{
    for number in 0..SLOTS as usize {
        if let Some(root) = slot_into(&mutators[number], number, base, length) {
            return Some(root);
        }
    }
    None
}

impl Roots {
    /// The first root whose word points into the object with this base and so many words.
    pub fn root_into(&self, base: u64, length: u64) -> Option<Root>
        ensures some { IfSome result (λ root. RootsHave self.now root base length) }
        ensures none { IfNone result (AreNotInto (root_words_of self.now) base length) }
    {
        if let Some(root) = slots_into(&self.mutators, base, length) {
            return Some(root);
        }
        let Some(index) = first_into(&self.globals, base, length) else {
            return None;
        };
        Some(Root::Global(index))
    }
}
