//! The marking of a cycle by helpers whom the caller runs: the core is lent to a round of them, shares go to other threads and come back,
//! and the core is had again.
ghost use Rattle.std.specs.Prelude.{◌≡◌, ◌*◌, ◌<◌, ◌≤◌, ◌⊎◌, true, false, IfOk, IfErr, OnOk, MatchOption, length};
ghost use Rattle.heap_core.specs.Sharing.{IsSameRound, IsDealt, IsLastOut, AreNext, IsAppended, AreDone, AreAll, IsStillOut, MarksTogether};

use super::Core;
use super::lent::{Lent, help_all};
use final_pause::{Helper, Helpers};
use std::alloc::{AllocError, Global};
use std::marker::Model;
use std::sync::Arc;

/// Why a core is not lent.
#[derive(Clone, Copy, Debug, PartialEq, Eq)]
pub enum NotLent {
    /// No cycle is marking.
    WrongPhase,

    /// A growth of memory was refused.
    Memory,
}

/// Shares of a round over a core, of places in a row. Those of one round may go to several threads.
#[derive(Drop)]
pub struct Shares {
    lent: Arc<Lent>,
    crew: Vec<Helper>,
    from: usize,
    is_done: bool,
}

impl Model for Shares {
    ghost use Rattle.std.specs.Arc.{arc_value};
    ghost use Rattle.std.specs.Prelude.{vec_capacity};
    ghost use Rattle.heap_core.specs.Sharing.{Sharing, IsSharing};

    ghost Value = { Sharing };

    ghost view = { λ s. record { core = (arc_value s.lent).core.value; round = (arc_value s.lent).round; crew = s.crew.items; from = s.from; is_done = s.is_done } };

    ghost invariant = { λ s. IsSharing (record { core = (arc_value s.lent).core.value; round = (arc_value s.lent).round; crew = s.crew.items; from = s.from; is_done = s.is_done }) (vec_capacity s.crew) };
}

impl Shares {
    /// Lends a core: all that its marker has to read is dealt to so many helpers, and none of it is read yet.
    ///
    /// # Errors
    /// The core as it was, with [`NotLent::WrongPhase`] exactly while no cycle is marking, and else [`NotLent::Memory`].
    pub fn lend(
        alloc: Global,
        core: Box<Core>,
        helpers: Helpers,
    ) -> Result<Shares, (Box<Core>, NotLent)>
        ensures ok { IfOk result (λ s. (core.value.cycle.is_marking ≡ true) × IsDealt core.value helpers.number s) }
        ensures err { IfErr result (λ e. (e.0.value ≡ core.value) × ((e.1 ≡ NotLent.WrongPhase) × (core.value.cycle.is_marking ≡ false) ⊎ (e.1 ≡ NotLent.Memory) × (core.value.cycle.is_marking ≡ true))) }
    {
        if !core.is_marking {
            return Err((core, NotLent::WrongPhase));
        }
        let Ok((round, crew)) = core.deal(alloc, helpers) else {
            return Err((core, NotLent::Memory));
        };
        match Arc::new(alloc, Lent { core, round }) {
            Ok(lent) => Ok(Shares {
                lent,
                crew,
                from: 0,
                is_done: false,
            }),
            Err(refused) => {
                let Lent { core, round: _ } = refused.value;
                Err((core, NotLent::Memory))
            }
        }
    }

    // Whether the places of the others are the next behind these.
    fn come_before(&self, other: &Shares) -> bool
        ensures yes { result ≡ true → AreNext self.now other.now }
        ensures no { result ≡ false → AreNext self.now other.now → ⊥ }
    {
        if other.from < self.from {
            return false;
        }
        other.from - self.from == self.crew.len()
    }

    // Whether these are all shares of the round.
    fn are_all(&self) -> bool
        ensures yes { result ≡ true → AreAll self.now }
        ensures no { result ≡ false → AreAll self.now → ⊥ }
    {
        if self.from != 0 {
            return false;
        }
        self.crew.len() == usize::from(self.lent.round.helpers())
    }

    /// Takes the last share out as it is, for another thread, and `None` where there is none.
    ///
    /// # Errors
    /// [`AllocError`] where there is one and a growth of memory was refused. Then nothing has changed.
    pub fn hire(&mut self, alloc: Global) -> Result<Option<Shares>, AllocError>
        ensures ok { IfOk result (λ o. MatchOption o ((length self.old.crew ≡ 0) × (self.new ≡ self.old)) (λ one. IsLastOut self.old self.new one)) }
        ensures err { IfErr result (λ _. (0 < length self.old.crew) × (self.new ≡ self.old)) }
    {
        if self.crew.is_empty() {
            return Ok(None);
        }
        // All that may be joined behind it will have room.
        let room = usize::from(self.lent.round.helpers());
        let mut crew = Vec::with_capacity(alloc, room)?;
        let lent = Arc::try_clone(&self.lent)?;
        let Some(helper) = self.crew.pop() else {
            return Ok(None);
        };
        let from = helper.place();
        let Ok(()) = crew.push(helper) else {
            return Err(AllocError);
        };
        Ok(Some(Shares {
            lent,
            crew,
            from,
            is_done: self.is_done,
        }))
    }

    /// Does these shares: of each, what was dealt to it and what that leads to, until it has read so many words of objects that it was the
    /// first to mark; the others are left to their pages. Answers how many they read of these. Shares that are done aren't done again. It
    /// takes no memory.
    pub fn help(&mut self, most: u64) -> u64
        ensures done { AreDone self.old self.new }
        ensures few { result ≤ most * length self.old.crew }
        ensures again { self.old.is_done ≡ true → result ≡ 0 }
    {
        if self.is_done {
            return 0;
        }
        let read = help_all(&self.lent, most, self.crew.as_mut_slice());
        self.is_done = true;
        read
    }

    /// Takes shares of the same round back, as they are, behind these. It takes no memory.
    ///
    /// # Errors
    /// The others, exactly where their places aren't the next behind these. Then nothing has changed.
    pub fn join(&mut self, other: Shares) -> Result<(), Shares>
        requires same { IsSameRound self.old other }
        ensures ok { OnOk result (AreNext self.old other × IsAppended self.old other self.new) }
        ensures err { IfErr result (λ back. (AreNext self.old other → ⊥) × (back ≡ other) × (self.new ≡ self.old)) }
    {
        if !self.come_before(&other) {
            return Err(other);
        }
        let Shares {
            lent,
            mut crew,
            from,
            is_done,
        } = other;
        // There is room for all shares of the round.
        let Ok(()) = self.crew.append(&mut crew) else {
            return Err(Shares {
                lent,
                crew,
                from,
                is_done,
            });
        };
        self.is_done = self.is_done && is_done;
        Ok(())
    }

    /// Puts together what all helpers of the round won and left, and gives the core back. Shares that aren't done are done first.
    ///
    /// # Errors
    /// The shares: exactly as they were where one of the round is out, and done where shares of none hold the core still.
    pub fn gather(mut self) -> Result<Box<Core>, Shares>
        ensures ok { IfOk result (λ core. AreAll self × MarksTogether self.core core.value) }
        ensures err { IfErr result (λ back. IsStillOut self back) }
    {
        if !self.are_all() {
            return Err(self);
        }
        let _read = self.help(u64::MAX);
        let Shares {
            lent,
            crew,
            from,
            is_done,
        } = self;
        match Arc::try_unwrap(lent) {
            Ok(Lent { mut core, round }) => {
                core.gather(round, crew);
                Ok(core)
            }
            Err(lent) => Err(Shares {
                lent,
                crew,
                from,
                is_done,
            }),
        }
    }
}
