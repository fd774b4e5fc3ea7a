//! The first run: a word is stored into a new object, and loaded again.
ghost use Rattle.std.specs.Prelude.{◌≡◌, ◌≢◌, ◌<◌, ◌≤◌, ◌⊎◌, IfErr, IfOk};
ghost use Rattle.words.specs.declared.limits.TheConstants.{REGISTERS};
ghost use Rattle.words.specs.declared.refusal.Refusal.{Refusal};
ghost use Rattle.heap_core.specs.Following.{AreLines};
ghost use Rattle.uses_heap.specs.Lines.{stored_and_loaded};

use heap_core::Core;
use heap_core::laws::{calls_are_lines, held_words};
use words::{Kind, Refusal, Reg, Slot};

// There are these registers.
pub(crate) fn in_range(object: Reg, scratch: Reg)
    ensures object { object < REGISTERS }
    ensures scratch { scratch < REGISTERS }
{
    let _numbers = (object.number(), scratch.number());
}

/// Allocates an object of two words, stores a word into the first of them, and loads it again: what is loaded is what was
/// stored, whatever calls came before, and the heap afterwards is the one before with these four calls. To know that, nothing
/// has to be known of pages, cells or marks.
///
/// # Errors
/// [`Refusal::NoSlot`] where the slot has no mutator, [`Refusal::Full`] where no place of the heap has room, and no other if the
/// heap's limit of requests is two words or more.
pub fn store_and_load(
    core: &mut Core,
    slot: Slot,
    object: Reg,
    scratch: Reg,
    word: u64,
) -> Result<u64, Refusal>
    requires apart { object ≢ scratch }
    ensures lines { AreLines core.old (stored_and_loaded slot object scratch word result) core.new }
    ensures loaded { IfOk result (λ loaded. loaded ≡ word) }
    ensures refused { 2 ≤ core.old.roots.request_words → IfErr result (λ why. (why ≡ Refusal.NoSlot) ⊎ (why ≡ Refusal.Full)) }
{
    // Their clauses tell that a heap is there, what becomes of a word that a register's object has, and that calls are lines.
    core.stands();
    held_words();
    calls_are_lines();
    in_range(object, scratch);
    core.alloc(slot, object, 2, Kind::Normal)?;
    core.set(slot, scratch, word)?;
    core.store(slot, object, 0, scratch)?;
    core.load(slot, scratch, object, 0)
}
