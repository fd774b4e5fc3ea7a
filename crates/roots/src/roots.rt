//! The roots of a heap: how a slot's mutator is read, and how it changes.
ghost use Rattle.std.specs.Prelude.{◌≡◌, ◌<◌, ◌≤◌, Some, None, IfSome, IfNone, IfOk, IfErr, length, slice_get, slice_index};
ghost use Rattle.words.specs.declared.limits.TheConstants.{MOST_REQUEST_WORDS, STACK_WORDS};
ghost use Rattle.words.specs.Placing.{placement_of};
ghost use Rattle.heap_spec.specs.Heap.{Mutator as HeapMutator};
ghost use Rattle.roots.specs.Roots.{no_roots, HasMutator, HasNoMutator, with_word, with_pushed, PopsWord, ChangesSlot, SetsWord};

mod calls;

use crate::mutator::Mutator;
use crate::mutator_slot::MutatorSlot;
use std::alloc::AllocError;
use std::array::try_from_fn;
use std::marker::Model;
use words::limits::{GLOBALS, SLOTS};
use words::{Global, Placement, Refusal, Reg, Slot, class_within};

pub(crate) type Mutators = [MutatorSlot; SLOTS as usize];

/// The mutators of a heap by their slots, and its globals.
#[derive(Drop)]
pub struct Roots {
    pub(crate) mutators: Mutators,
    pub(crate) globals: [u64; GLOBALS as usize],
    request_words: u64,
}

impl Model for Roots {
    ghost use Rattle.std.specs.Prelude.{◌≤◌};
    ghost use Rattle.words.specs.declared.limits.TheConstants.{MOST_REQUEST_WORDS};
    ghost use Rattle.roots.specs.Roots.{RootSet};

    ghost Value = { RootSet };

    ghost view = { λ r. record { mutators = r.mutators; globals = r.globals; request_words = r.request_words } };

    ghost invariant = { λ r. r.request_words ≤ MOST_REQUEST_WORDS };
}

// Slots, all of them vacant.
fn vacant_slots(alloc: std::alloc::Global) -> Result<Mutators, AllocError>
    ensures { IfOk result (λ slots. slots ≡ (no_roots 0).mutators) }
{
    let slot = |_number: usize|
        ensures { IfOk result (λ s. s ≡ None) }
    { MutatorSlot::new(alloc) };
    try_from_fn(slot)
}

// Puts a word into a register of a mutator that is attached.
fn set_word_of(mutators: &mut Mutators, slot: Slot, reg: Reg, word: u64)
    requires { (m : HeapMutator) × (slice_get mutators.old slot ≡ Some (Some m)) }
    ensures { ChangesSlot mutators.old slot (λ before after. after ≡ with_word before reg word) mutators.new }
{
    mutators[slot.index()].set_word(reg, word);
}

// Puts the word of a register on the stack of a mutator that is attached.
fn push_of(mutators: &mut Mutators, slot: Slot, from: Reg)
    requires { (m : HeapMutator) × (slice_get mutators.old slot ≡ Some (Some m)) × (length m.stack < STACK_WORDS) }
    ensures { ChangesSlot mutators.old slot (λ before after. after ≡ with_pushed before from) mutators.new }
{
    mutators[slot.index()].push(from);
}

// Takes the top word off the stack of a mutator that is attached, into a register.
fn pop_of(mutators: &mut Mutators, slot: Slot, into: Reg) -> u64
    requires { (m : HeapMutator) × (slice_get mutators.old slot ≡ Some (Some m)) × (0 < length m.stack) }
    ensures { ChangesSlot mutators.old slot (λ before after. PopsWord before into result after) mutators.new }
{
    mutators[slot.index()].pop(into)
}

impl Roots {
    /// No mutator, and globals of 0, with this limit of requests. The memory of all stacks is taken here.
    pub fn new(alloc: std::alloc::Global, request_words: u64) -> Result<Roots, AllocError>
        requires { request_words ≤ MOST_REQUEST_WORDS }
        ensures { IfOk result (λ roots. roots ≡ no_roots request_words) }
    {
        Ok(Roots {
            mutators: vacant_slots(alloc)?,
            globals: [0; GLOBALS as usize],
            request_words,
        })
    }

    /// Where a request of so many words goes; `None` exactly for none or more than the limit.
    #[inline]
    pub fn placement(&self, words: u64) -> Option<Placement>
        ensures placement { result ≡ placement_of self.now.request_words words }
        ensures few { self.now.request_words ≤ MOST_REQUEST_WORDS }
    {
        class_within(self.request_words, words)
    }

    /// The mutator attached at a slot.
    #[inline]
    pub fn mutator(&self, slot: Slot) -> Option<&Mutator>
        ensures some { IfSome result (λ m. HasMutator self.now slot m.now) }
        ensures none { IfNone result (HasNoMutator self.now slot) }
    {
        self.mutators[slot.index()].mutator()
    }

    /// The mutator attached at a slot, for a call that is refused where none is.
    ///
    /// # Errors
    /// [`Refusal::NoSlot`] exactly if no mutator is attached.
    #[inline]
    pub fn attached(&self, slot: Slot) -> Result<&Mutator, Refusal>
        ensures ok { IfOk result (λ m. HasMutator self.now slot m.now) }
        ensures err { IfErr result (λ refusal. (refusal ≡ Refusal.NoSlot) × HasNoMutator self.now slot) }
    {
        self.mutator(slot).ok_or(Refusal::NoSlot)
    }

    /// The word of a global.
    #[inline]
    pub fn global(&self, global: Global) -> u64
        ensures { result ≡ slice_index self.now.globals global }
    {
        self.globals[global.index()]
    }

    /// Puts a word into a register of a mutator that is attached.
    #[inline]
    pub fn set_word(&mut self, slot: Slot, reg: Reg, word: u64)
        requires { (m : HeapMutator) × HasMutator self.old slot m }
        ensures { SetsWord self.old slot reg word self.new }
    {
        set_word_of(&mut self.mutators, slot, reg, word);
    }
}
