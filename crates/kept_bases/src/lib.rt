//! Which of some objects a heap still keeps: who saw them born asks of each base after a collection, by calls that are no events.
//!
//! # What is proved
//!
//! `sort_out` leaves exactly the bases of those objects that the heap keeps, and the others are those that are gone (`SortsOut`).
#![tactic(auto)]

ghost use Rattle.std.specs.Prelude.{◌≡◌, IsTrue, IfOk, false};
ghost use Rattle.kept_bases.specs.Sorting.{IsBase, SortsOne, SortsOut};

use heap_core::Core;
use std::alloc::{AllocError, Global};
use std::mem::replace;

// Whether the heap keeps an object with this base.
fn keeps(core: &Core, base: u64) -> bool
    ensures yes { IsTrue result → IsBase core.now base }
    ensures no { result ≡ false → IsBase core.now base → ⊥ }
{
    let Some(found) = core.kept_at(base) else {
        return false;
    };
    found.base == base
}

// Puts a base to those that stay, or to those that are gone.
fn sort(core: &Core, base: u64, stay: &mut Vec<u64>, gone: &mut Vec<u64>) -> Result<(), AllocError>
    ensures { IfOk result (λ done. SortsOne core.now base stay.old.items gone.old.items stay.new.items gone.new.items) }
{
    if keeps(core, base) {
        stay.push(base)?;
        return Ok(());
    }
    gone.push(base)?;
    Ok(())
}

/// Leaves the bases of those objects that the heap keeps, and says which ones are gone.
///
/// # Errors
/// If memory is refused; some bases may then be in neither.
pub fn sort_out(
    alloc: Global,
    core: &Core,
    bases: &mut Vec<u64>,
    gone: &mut Vec<u64>,
) -> Result<(), AllocError>
    ensures { IfOk result (λ done. SortsOut core.now bases.old.items bases.new.items gone.new.items) }
{
    let known = replace(bases, Vec::new(alloc));
    gone.clear();
    for base in known.iter() {
        sort(core, *base, bases, gone)?;
    }
    Ok(())
}
