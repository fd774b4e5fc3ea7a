//! Statuses. 0 says that a call was done, 1 to 99 are the codes of refusals, and what only the library refuses begins at 100.
ghost use Rattle.mpheap_c.specs.Crossing.{TellsDone, TellsSlot, TellsWord};

use words::{Refusal, Slot};

/// The code of the refusal that the word points into no object.
pub const NO_OBJECT: u32 = 3;

/// The code of the refusal in the wrong phase.
pub const WRONG_PHASE: u32 = 9;

/// A number names no slot, register or global, or no share that fits.
pub const BAD_NUMBER: u32 = 100;

/// No page, or more than the limit.
pub const BAD_PAGES: u32 = 101;

/// A growth of memory was refused.
pub const NO_MEMORY: u32 = 102;

/// The status of a call that answers no word.
#[inline(always)]
pub fn done(answer: Result<(), Refusal>) -> u32
    ensures { TellsDone result answer }
{
    match answer {
        Ok(()) => 0,
        Err(refusal) => u32::from(refusal.code()),
    }
}

/// The status of a call that answers a word, and the word.
#[inline(always)]
pub fn word_to(answer: Result<u64, Refusal>, word: &mut u64) -> u32
    ensures { TellsWord result word.old word.new answer }
{
    match answer {
        Ok(answered) => {
            *word = answered;
            0
        }
        Err(refusal) => u32::from(refusal.code()),
    }
}

/// The status of an attach, and the slot.
#[inline(always)]
pub fn slot_to(answer: Result<Slot, Refusal>, slot: &mut u8) -> u32
    ensures { TellsSlot result slot.old slot.new answer }
{
    match answer {
        Ok(attached) => {
            *slot = attached.number();
            0
        }
        Err(refusal) => u32::from(refusal.code()),
    }
}
