//! All root words in one row, as the collector reads them.
ghost use Rattle.std.specs.Prelude.{◌≡◌, ◌+◌, ◌≤◌, ◌++◌, [], IfOk, flat_map, vec_len};
ghost use Rattle.std.specs.Vec.{vec_capacity};
ghost use Rattle.words.specs.declared.limits.TheConstants.{GLOBALS, REGISTERS, STACK_WORDS};
ghost use Rattle.heap_spec.specs.Heap.{words_of_slot};
ghost use Rattle.roots.specs.declared.root_words.TheConstants.{ROOT_WORDS};
ghost use Rattle.roots.specs.Roots.{root_words_of};

use crate::mutator_slot::MutatorSlot;
use crate::roots::{Mutators, Roots};
use std::alloc::{AllocError, Global};
use std::marker::Model;
use words::limits::{GLOBALS, REGISTERS, SLOTS, STACK_WORDS};

// The most root words that there can be.
const ROOT_WORDS: usize = SLOTS as usize * (REGISTERS as usize + STACK_WORDS as usize)
    + GLOBALS as usize;

/// Root words in one row, with memory for all that there can be.
#[derive(Drop)]
pub struct RootWords {
    words: Vec<u64>,
}

impl Model for RootWords {
    ghost use Rattle.std.specs.Prelude.{ℕ, ◌≤◌, List};
    ghost use Rattle.std.specs.Vec.{vec_capacity};
    ghost use Rattle.roots.specs.declared.root_words.TheConstants.{ROOT_WORDS};

    ghost Value = { List ℕ };

    ghost view = { λ row. row.words.items };

    ghost invariant = { λ row. ROOT_WORDS ≤ vec_capacity row.words };
}

impl RootWords {
    /// A row with no word.
    pub fn new(alloc: Global) -> Result<RootWords, AllocError>
        ensures { IfOk result (λ row. row ≡ []) }
    {
        let words = Vec::with_capacity(alloc, ROOT_WORDS)?;
        Ok(RootWords { words })
    }

    /// The words.
    #[inline]
    pub fn as_slice(&self) -> &[u64]
        ensures value { result.now ≡ self.now }
    {
        self.words.as_slice()
    }
}

// The words of a slot, behind those that are there.
fn write_slot(slot: &MutatorSlot, into: &mut Vec<u64>)
    requires { vec_len into.old + (REGISTERS + STACK_WORDS) ≤ vec_capacity into.old }
    ensures items { into.new.items ≡ into.old.items ++ words_of_slot slot.now }
    ensures len { vec_len into.new ≤ vec_len into.old + (REGISTERS + STACK_WORDS) }
    ensures capacity { vec_capacity into.old ≤ vec_capacity into.new }
{
    if let Some(mutator) = slot.mutator() {
        mutator.write_words(into);
    }
}

// The words of all slots, in their order.
fn write_slots(mutators: &Mutators, into: &mut Vec<u64>)
    requires empty { into.old.items ≡ [] }
    requires room { ROOT_WORDS ≤ vec_capacity into.old }
    ensures items { into.new.items ≡ flat_map words_of_slot mutators.now }
    ensures room { vec_len into.new + GLOBALS ≤ ROOT_WORDS }
    ensures capacity { ROOT_WORDS ≤ vec_capacity into.new }
{
    for slot in mutators {
        write_slot(slot, into);
    }
}

// All root words, in their order.
fn write_roots(roots: &Roots, into: &mut Vec<u64>)
    requires { ROOT_WORDS ≤ vec_capacity into.old }
    ensures items { into.new.items ≡ root_words_of roots.now }
    ensures capacity { ROOT_WORDS ≤ vec_capacity into.new }
{
    into.clear();
    write_slots(&roots.mutators, into);
    let Ok(()) = into.extend_from_slice(&roots.globals) else {
        unreachable!();
    };
}

impl Roots {
    /// Writes all root words in their order.
    pub fn write_words(&self, into: &mut RootWords)
        ensures { into.new ≡ root_words_of self.now }
    {
        write_roots(self, &mut into.words);
    }
}
