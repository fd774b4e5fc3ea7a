//! What the lines of a run told, one after another. They are lines to which the checker has said yes.
use crate::objects::{Birth, Leave, Put, Range};
use std::alloc::{AllocError, Global};
use words::limits::REGISTERS;
use words::{Reg, Slot};
use written_runs::{Behind, read_line};

/// What lines told, by their numbers.
#[derive(Drop)]
pub struct Journal {
    // Where the heap lies.
    pub(crate) range: Range,
    pub(crate) births: Vec<Birth>,
    pub(crate) leaves: Vec<Leave>,
    pub(crate) puts: Vec<Put>,
    // The last line that took objects which it doesn't name, 0 if none did.
    pub(crate) unnamed: u64,
    registers: Vec<u64>,
    // How many words the stack of each mutator has that is there.
    depths: Vec<Option<usize>>,
}

/// The line of a number in a text, from 1.
pub(crate) fn line_at(text: &str, wanted: u64) -> Option<&str> {
    let mut number = 0u64;
    for line in text.split('\n') {
        number = number.wrapping_add(1);
        if number == wanted {
            return Some(line);
        }
    }
    None
}

/// Where a granted request for so many words was placed, and how many words its object has.
pub(crate) fn placed(behind: &Behind, asked: u64) -> Option<(u64, u64)> {
    match *behind {
        Behind::Place(base) => Some((base, asked)),
        Behind::Object(base, words) => Some((base, words)),
        Behind::Nothing | Behind::Bases(_) => None,
    }
}

impl Journal {
    // A journal of a heap in this range, of which nothing was told yet.
    fn new(alloc: Global, range: Range) -> Result<Journal, AllocError> {
        Ok(Journal {
            range,
            births: Vec::new(alloc),
            leaves: Vec::new(alloc),
            puts: Vec::new(alloc),
            unnamed: 0,
            registers: vec![in alloc; 0u64; 256]?,
            depths: vec![in alloc; None; 16]?,
        })
    }

    /// What the lines of a run tell that stand before the one of this number. Its heap lies in this range.
    ///
    /// # Errors
    /// [`AllocError`] if memory was refused.
    pub fn of(alloc: Global, range: Range, text: &str, before: u64) -> Result<Journal, AllocError> {
        let mut journal = Journal::new(alloc, range)?;
        let mut number = 0u64;
        for line in text.split('\n') {
            number = number.wrapping_add(1);
            if number >= before {
                return Ok(journal);
            }
            if let Some(told) = read_line(alloc, range.places, line.as_bytes())? {
                journal.happen(number, &told)?;
            }
        }
        Ok(journal)
    }

    // Where a register stands in the row of all.
    fn index_of(slot: Slot, reg: Reg) -> usize {
        slot.index()
            .wrapping_mul(REGISTERS as usize)
            .wrapping_add(reg.index())
    }

    /// The word of a register.
    pub(crate) fn register(&self, slot: Slot, reg: Reg) -> u64 {
        match self.registers.get(Journal::index_of(slot, reg)) {
            Some(word) => *word,
            None => 0,
        }
    }

    /// Puts a word into a register.
    pub(crate) fn set_register(&mut self, slot: Slot, reg: Reg, to: u64) {
        if let Some(register) = self.registers.get_mut(Journal::index_of(slot, reg)) {
            *register = to;
        }
    }

    /// How many words a stack has, if its mutator is there.
    pub(crate) fn depth(&self, slot: Slot) -> Option<usize> {
        *self.depths.get(slot.index())?
    }

    /// Whether a slot has a mutator.
    pub(crate) fn is_attached(&self, slot: Slot) -> bool {
        self.depth(slot).is_some()
    }

    /// So many words has a stack now, if its mutator is there.
    pub(crate) fn set_depth(&mut self, slot: Slot, to: Option<usize>) {
        if let Some(depth) = self.depths.get_mut(slot.index()) {
            *depth = to;
        }
    }

    /// The address that a register has, so many words on.
    pub(crate) fn address(&self, slot: Slot, at: Reg, offset: u64) -> u64 {
        Journal::word_address(self.register(slot, at), offset)
    }
}
