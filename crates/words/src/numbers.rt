//! The small numbers that name a mutator, a register and a global. Contracts see each as its number.
ghost use Rattle.std.specs.Prelude.{◌≡◌, ℕ, ◌<◌, ◌≤◌, MatchOption};
ghost use Rattle.words.specs.declared.limits.TheConstants.{SLOTS, REGISTERS, GLOBALS};

use crate::limits::{GLOBALS, REGISTERS, SLOTS};
use std::marker::Model;

/// The slot of a mutator, by its number below [`SLOTS`].
#[derive(Clone, Copy, Debug, PartialEq, Eq)]
pub struct Slot {
    slot: u8,
}

impl Model for Slot {
    ghost Value = { ℕ };

    ghost view = { λ s. s.slot };

    ghost invariant = { λ s. s.slot < SLOTS };

    ghost inverse = { λ n. record { slot = n } };
}

impl Slot {
    /// The slot of that number, and `None` exactly out of range.
    pub fn new(number: u8) -> Option<Slot>
        ensures { MatchOption result (SLOTS ≤ number) (λ slot. (slot ≡ number) × (number < SLOTS)) }
    {
        if number < SLOTS {
            Some(Slot { slot: number })
        } else {
            None
        }
    }

    /// Its number.
    pub fn number(self) -> u8
        ensures value { result ≡ self }
        ensures range { result < SLOTS }
    {
        self.slot
    }

    /// Its number, to index rows with.
    pub fn index(self) -> usize
        ensures value { result ≡ self }
        ensures range { result < SLOTS }
    {
        usize::from(self.slot)
    }
}

/// A register, by its number below [`REGISTERS`].
#[derive(Clone, Copy, Debug, PartialEq, Eq)]
pub struct Reg {
    register: u8,
}

impl Model for Reg {
    ghost Value = { ℕ };

    ghost view = { λ r. r.register };

    ghost invariant = { λ r. r.register < REGISTERS };

    ghost inverse = { λ n. record { register = n } };
}

impl Reg {
    /// The register of that number, and `None` exactly out of range.
    pub fn new(number: u8) -> Option<Reg>
        ensures { MatchOption result (REGISTERS ≤ number) (λ reg. (reg ≡ number) × (number < REGISTERS)) }
    {
        if number < REGISTERS {
            Some(Reg { register: number })
        } else {
            None
        }
    }

    /// Its number.
    pub fn number(self) -> u8
        ensures value { result ≡ self }
        ensures range { result < REGISTERS }
    {
        self.register
    }

    /// Its number, to index rows with.
    pub fn index(self) -> usize
        ensures value { result ≡ self }
        ensures range { result < REGISTERS }
    {
        usize::from(self.register)
    }
}

/// A global, by its number below [`GLOBALS`].
#[derive(Clone, Copy, Debug, PartialEq, Eq)]
pub struct Global {
    global: u8,
}

impl Model for Global {
    ghost Value = { ℕ };

    ghost view = { λ g. g.global };

    ghost invariant = { λ g. g.global < GLOBALS };

    ghost inverse = { λ n. record { global = n } };
}

impl Global {
    /// The global of that number, and `None` exactly out of range.
    pub fn new(number: u8) -> Option<Global>
        ensures { MatchOption result (GLOBALS ≤ number) (λ global. (global ≡ number) × (number < GLOBALS)) }
    {
        if number < GLOBALS {
            Some(Global { global: number })
        } else {
            None
        }
    }

    /// Its number.
    pub fn number(self) -> u8
        ensures value { result ≡ self }
        ensures range { result < GLOBALS }
    {
        self.global
    }

    /// Its number, to index rows with.
    pub fn index(self) -> usize
        ensures value { result ≡ self }
        ensures range { result < GLOBALS }
    {
        usize::from(self.global)
    }
}
