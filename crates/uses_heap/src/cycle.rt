//! A cycle of the collector, by small steps: a word that was stored is there afterwards.
ghost use Rattle.std.specs.Prelude.{◌≡◌, ◌≢◌, IfOk};
ghost use Rattle.heap_core.specs.Following.{AreLines};
ghost use Rattle.uses_heap.specs.Lines.{Counts, kept_through_cycle};

use crate::first_run::in_range;
use heap_core::Core;
use heap_core::laws::{calls_are_lines, held_words};
use words::{Kind, Refusal, Reg, Slot};

/// Allocates an object of two words and stores a word in the first of them. A cycle begins, goes on by small steps, and ends;
/// then the word is loaded. It is what was stored: a register has the object. To know that, nothing has to be known of marks,
/// entries or dirty pages.
///
/// # Errors
/// As those of the core's calls, whichever is refused.
pub fn keep_through_cycle(
    core: &mut Core,
    slot: Slot,
    object: Reg,
    scratch: Reg,
    word: u64,
) -> Result<u64, Refusal>
    requires apart { object ≢ scratch }
    ensures lines { IfOk result (λ loaded. (counts : Counts) × AreLines core.old (kept_through_cycle slot object scratch word counts loaded) core.new) }
    ensures loaded { IfOk result (λ loaded. loaded ≡ word) }
{
    core.stands();
    held_words();
    calls_are_lines();
    in_range(object, scratch);
    core.alloc(slot, object, 2, Kind::Normal)?;
    core.set(slot, scratch, word)?;
    core.store(slot, object, 0, scratch)?;
    core.begin()?;
    core.roots()?;
    core.mark(1)?;
    core.retrace()?;
    core.finish()?;
    core.sweep()?;
    core.load(slot, scratch, object, 0)
}
