//! The registers and the stack of an attached mutator. Contracts see them as the heap has them.
ghost use Rattle.std.specs.Prelude.{◌≡◌, ℕ, ◌+◌, ◌<◌, ◌≤◌, List, ◌∷◌, ◌++◌, [], IfOk, MatchBool, MatchOption, length, vec_len};
ghost use Rattle.std.specs.Vec.{vec_capacity};
ghost use Rattle.words.specs.declared.limits.TheConstants.{REGISTERS};
ghost use Rattle.words.specs.declared.limits.TheConstants.{STACK_WORDS};
ghost use Rattle.heap_spec.specs.Steps.{newcomer, register, address};
ghost use Rattle.roots.specs.Roots.{with_word, with_pushed, PopsWord};

use arrayvec::ArrayVec;
use std::alloc::{AllocError, Global};
use std::marker::Model;
use words::Reg;
use words::limits::{REGISTERS, STACK_WORDS, WORD_BYTES};

const MOST: usize = STACK_WORDS as usize;

/// An attached mutator: the words of its registers, and its stack. The stack has memory of its own: so what holds mutators is
/// small, and can be moved over a small stack of the machine.
#[derive(Drop)]
pub struct Mutator {
    registers: [u64; REGISTERS as usize],
    stack: Box<ArrayVec<u64, MOST>>,
}

impl Model for Mutator {
    ghost use Rattle.std.specs.Prelude.{◌≤◌, length};
    ghost use Rattle.words.specs.declared.limits.TheConstants.{STACK_WORDS};
    ghost use Rattle.heap_spec.specs.Heap.{Mutator as HeapMutator};

    ghost Value = { HeapMutator };

    ghost view = { λ m. record { registers = m.registers; stack = m.stack.value.items } };

    ghost invariant = { λ m. length m.stack.value.items ≤ STACK_WORDS };
}

impl Mutator {
    // A mutator that comes.
    pub(crate) fn new(alloc: Global) -> Result<Mutator, AllocError>
        ensures { IfOk result (λ m. m ≡ newcomer) }
    {
        Ok(Mutator {
            registers: [0; REGISTERS as usize],
            stack: Box::new(alloc, ArrayVec::new())?,
        })
    }

    // It is as a mutator that comes. Of the stack only the words that it had are written.
    pub(crate) fn renew(&mut self)
        ensures { self.new ≡ newcomer }
    {
        self.registers = [0; REGISTERS as usize];
        self.stack.clear();
    }

    /// The word of a register.
    #[inline]
    pub fn word(&self, reg: Reg) -> u64
        ensures { result ≡ register self.now reg }
    {
        self.registers[reg.index()]
    }

    /// The address that a load or a store goes to, at an offset in words.
    #[inline]
    pub fn address(&self, at: Reg, offset: u64) -> u64
        ensures { result ≡ address self.now at offset }
    {
        self.word(at).wrapping_add(offset.wrapping_mul(WORD_BYTES))
    }

    /// Whether the stack has no room.
    pub fn is_full(&self) -> bool
        ensures { MatchBool result (length self.now.stack ≡ STACK_WORDS) (length self.now.stack < STACK_WORDS) }
    {
        self.stack.len() == MOST
    }

    /// Whether the stack has no word.
    pub fn is_empty(&self) -> bool
        ensures { MatchBool result (self.now.stack ≡ []) (0 < length self.now.stack) }
    {
        self.stack.is_empty()
    }

    /// The word on top of the stack.
    pub fn top(&self) -> Option<u64>
        ensures { MatchOption result (self.now.stack ≡ []) (λ word. (rest : List ℕ) × (self.now.stack ≡ rest ++ word ∷ [])) }
    {
        self.stack.as_slice().last().copied()
    }

    /// The words of the registers.
    pub fn registers(&self) -> &[u64]
        ensures { result.now ≡ self.now.registers }
    {
        &self.registers
    }

    /// The stack, its bottom first.
    pub fn stack(&self) -> &[u64]
        ensures { result.now ≡ self.now.stack }
    {
        self.stack.as_slice()
    }

    // Its words, registers first, behind those that are there.
    pub(crate) fn write_words(&self, into: &mut Vec<u64>)
        requires { vec_len into.old + (REGISTERS + STACK_WORDS) ≤ vec_capacity into.old }
        ensures items { into.new.items ≡ into.old.items ++ (self.now.registers ++ self.now.stack) }
        ensures len { vec_len into.new ≤ vec_len into.old + (REGISTERS + STACK_WORDS) }
        ensures capacity { vec_capacity into.old ≤ vec_capacity into.new }
    {
        let Ok(()) = into.extend_from_slice(&self.registers) else {
            unreachable!();
        };
        let Ok(()) = into.extend_from_slice(self.stack.as_slice()) else {
            unreachable!();
        };
    }

    // Puts a word into a register.
    #[inline]
    pub(crate) fn set_word(&mut self, reg: Reg, word: u64)
        ensures { self.new ≡ with_word self.old reg word }
    {
        self.registers[reg.index()] = word;
    }

    // Puts the word of a register on the stack.
    pub(crate) fn push(&mut self, from: Reg)
        requires { length self.old.stack < STACK_WORDS }
        ensures { self.new ≡ with_pushed self.old from }
    {
        self.stack.push(self.registers[from.index()]);
    }

    // Takes the top word off the stack into a register.
    pub(crate) fn pop(&mut self, into: Reg) -> u64
        requires { 0 < length self.old.stack }
        ensures { PopsWord self.old into result self.new }
    {
        let Some(word) = self.stack.pop() else {
            unreachable!();
        };
        self.registers[into.index()] = word;
        word
    }
}
