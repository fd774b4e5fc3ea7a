//! What the holders of a shared heap hold. Contracts see each as its pass.
ghost use Rattle.std.specs.Prelude.{◌≡◌};
ghost use Rattle.heap_history.specs.Passes.{IsLegalPass, IsLegalPast};

use heap_core::Core;
use history::{Naming, Pass, Past};
use std::marker::Model;
use words::Slot;

/// A mutator's right to call. It has to be spent by `detach`.
pub struct Mutator<J: Naming> {
    pub(crate) slot: Slot,
    pub(crate) pass: Pass<Core, J>,
}

impl<J: Naming> Model for Mutator<J> {
    ghost use Rattle.heap_history.specs.Passes.{HeapPass, IsMutatorPass};

    ghost Value = { HeapPass };

    ghost view = { λ m. m.pass };

    ghost invariant = { λ m. IsMutatorPass m.slot m.pass };
}

/// The collector's right to call.
#[derive(Drop)]
pub struct Collector<J: Naming> {
    pub(crate) pass: Pass<Core, J>,
}

impl<J: Naming> Model for Collector<J> {
    ghost use Rattle.std.specs.Prelude.{◌≡◌};
    ghost use Rattle.words.specs.declared.limits.TheConstants.{SLOTS};
    ghost use Rattle.heap_history.specs.Passes.{HeapPass};

    ghost Value = { HeapPass };

    ghost view = { λ c. c.pass };

    ghost invariant = { λ c. c.pass.slot ≡ SLOTS };
}

impl<J: Naming> Mutator<J> {
    /// Its slot.
    pub fn slot(&self) -> Slot
        ensures slot { result ≡ self.now.slot }
        // At any time what a mutator has seen is legal, and its own events are exactly its slot's in it.
        ensures fine { IsLegalPass J.origin self.now }
    {
        let _slot = self.pass.slot();
        self.slot
    }
}

/// What a mutator had seen when it left. It can make no call.
#[derive(Drop)]
pub struct Departed<J: Naming> {
    pub(crate) slot: Slot,
    pub(crate) past: Past<Core, J>,
}

impl<J: Naming> Model for Departed<J> {
    ghost use Rattle.heap_history.specs.Passes.{HeapPass};
    ghost use Rattle.shared.specs.Leaving.{IsPastOf};

    ghost Value = { HeapPass };

    ghost view = { λ d. d.past };

    ghost invariant = { λ d. IsPastOf d.slot d.past };
}

impl<J: Naming> Departed<J> {
    /// The slot that it had.
    pub fn slot(&self) -> Slot
        ensures slot { result ≡ self.now.slot }
        // At any time what it had seen is legal, and its own events are exactly those of its slot in it, since its attach.
        ensures fine { IsLegalPast J.origin self.now }
    {
        let _slot = self.past.slot();
        self.slot
    }
}
