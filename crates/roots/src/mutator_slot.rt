//! A slot, with the mutator that is attached there. A vacant one keeps the registers and the stack that stood there: so a mutator
//! goes without a write to them, and comes with writes to no more of the stack than was used. Contracts see no mutator there.
ghost use Rattle.std.specs.Prelude.{◌≡◌, ◌<◌, Some, None, IfOk, IfSome, IfNone, length};
ghost use Rattle.words.specs.declared.limits.TheConstants.{STACK_WORDS};
ghost use Rattle.heap_spec.specs.Heap.{Mutator as HeapMutator};
ghost use Rattle.heap_spec.specs.Steps.{newcomer};
ghost use Rattle.roots.specs.Roots.{with_word, with_pushed, PopsWord, Changes};

use crate::mutator::Mutator;
use std::alloc::{AllocError, Global};
use std::marker::Model;
use words::Reg;

// A mutator that is attached, or what one has left.
#[derive(Drop)]
pub(crate) struct MutatorSlot {
    is_attached: bool,
    mutator: Mutator,
}

impl Model for MutatorSlot {
    ghost use Rattle.std.specs.Prelude.{Option, Some, None, cond};
    ghost use Rattle.heap_spec.specs.Heap.{Mutator as HeapMutator};

    ghost Value = { Option HeapMutator };

    ghost view = { λ s. cond s.is_attached (Some s.mutator) None };
}

impl MutatorSlot {
    // A vacant slot.
    pub(crate) fn new(alloc: Global) -> Result<MutatorSlot, AllocError>
        ensures { IfOk result (λ s. s ≡ None) }
    {
        Ok(MutatorSlot {
            is_attached: false,
            mutator: Mutator::new(alloc)?,
        })
    }

    // The mutator, if one is attached.
    #[inline]
    pub(crate) fn mutator(&self) -> Option<&Mutator>
        ensures some { IfSome result (λ m. self.now ≡ Some m.now) }
        ensures none { IfNone result (self.now ≡ None) }
    {
        if !self.is_attached {
            return None;
        }
        Some(&self.mutator)
    }

    // A mutator comes.
    pub(crate) fn attach(&mut self)
        ensures { self.new ≡ Some newcomer }
    {
        self.mutator.renew();
        self.is_attached = true;
    }

    // The mutator goes.
    pub(crate) fn detach(&mut self)
        ensures { self.new ≡ None }
    {
        self.is_attached = false;
    }

    // Puts a word into a register of the mutator.
    #[inline]
    pub(crate) fn set_word(&mut self, reg: Reg, word: u64)
        requires { (m : HeapMutator) × (self.old ≡ Some m) }
        ensures { Changes self.old (λ before after. after ≡ with_word before reg word) self.new }
    {
        self.mutator.set_word(reg, word);
    }

    // Puts the word of a register on the mutator's stack.
    pub(crate) fn push(&mut self, from: Reg)
        requires { (m : HeapMutator) × (self.old ≡ Some m) × (length m.stack < STACK_WORDS) }
        ensures { Changes self.old (λ before after. after ≡ with_pushed before from) self.new }
    {
        self.mutator.push(from);
    }

    // Takes the top word off the mutator's stack into a register.
    pub(crate) fn pop(&mut self, into: Reg) -> u64
        requires { (m : HeapMutator) × (self.old ≡ Some m) × (0 < length m.stack) }
        ensures { Changes self.old (λ before after. PopsWord before into result after) self.new }
    {
        self.mutator.pop(into)
    }
}
