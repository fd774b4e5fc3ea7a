//! A core that is lent to a round of helpers: what is dealt of it, done by them, and put together.
ghost use Rattle.std.specs.Prelude.{◌≡◌, ℕ, ◌*◌, ◌<◌, ◌≤◌, true, IfOk, length, vec_len, slice_index_or};
ghost use Rattle.final_pause.specs.declared.helper.Helper.{Helper as HelperValue};
ghost use Rattle.final_pause.specs.Serving.{IsServing, HasServed};
ghost use Rattle.final_pause.specs.Helping.{place_of};
ghost use Rattle.final_pause.specs.Rounds.{helpers_of, IsRound, IsFresh, AreServing, AreServed};
ghost use Rattle.heap_core.specs.Sharing.{core_view, MarksTogether};

use super::Core;
use final_pause::{Helper, Helpers, Round};
use std::alloc::{AllocError, Global};

/// A core that is lent to the helpers of a round.
#[derive(Drop)]
pub(crate) struct Lent {
    pub(crate) core: Box<Core>,
    pub(crate) round: Round,
}

impl Core {
    // Deals all that waits to be read to so many helpers.
    pub(crate) fn deal(
        &self,
        alloc: Global,
        helpers: Helpers,
    ) -> Result<(Round, Vec<Helper>), AllocError>
        ensures size { IfOk result (λ d. vec_len d.1 ≡ helpers.number) }
        ensures number { IfOk result (λ d. helpers_of d.0 ≡ helpers.number) }
        ensures round { IfOk result (λ d. IsRound (core_view self.now d.0) d.0) }
        ensures crew { IfOk result (λ d. AreServing (core_view self.now d.0) 0 d.1.items) }
        ensures fresh { IfOk result (λ d. IsFresh (length self.now.store.states) d.0 d.1.items) }
    {
        let used = self.objects.used();
        self.objects.deal(alloc, &self.marker, used, helpers)
    }

    // Does a helper's share, and answers how many words it read.
    pub(crate) fn help(&self, round: &Round, most: u64, helper: &mut Helper) -> u64
        requires { IsServing (core_view self.now round.now) helper.old }
        ensures served { HasServed (core_view self.now round.now) (place_of helper.old) helper.new }
        ensures few { result ≤ most }
    {
        self.objects.help(round, &self.marker, most, helper)
    }

    // Puts together what the helpers won and left.
    pub(crate) fn gather(&mut self, round: Round, crew: Vec<Helper>)
        requires marking { self.old.cycle.is_marking ≡ true }
        requires round { IsRound (core_view self.old round) round }
        requires all { vec_len crew ≡ helpers_of round }
        requires served { AreServed (core_view self.old round) 0 crew.items }
        ensures { MarksTogether self.old self.new }
    {
        self.objects.gather(round, &mut self.marker, crew);
    }
}

// Does the shares of all these helpers, and answers how many words they read.
pub(crate) fn help_all(lent: &Lent, most: u64, crew: &mut [Helper]) -> u64
    requires { (i : ℕ) (d : HelperValue) → i < length crew.old → IsServing (core_view lent.now.core.value lent.now.round) (slice_index_or crew.old i d) }
    ensures len { length crew.new ≡ length crew.old }
    ensures few { result ≤ most * length crew.old }
    ensures served { (i : ℕ) (d : HelperValue) → i < length crew.old → HasServed (core_view lent.now.core.value lent.now.round) (place_of (slice_index_or crew.old i d)) (slice_index_or crew.new i d) }
{
    let mut read = 0u64;
    for helper in crew {
        read = read.saturating_add(lent.core.help(&lent.round, most, helper));
    }
    read
}
