//! Gates that hold actors back until others have come, for a bounded time, and one that counts.

use final_pause::{COLLECTOR_ACTOR, FIRST_HELPER, Gate};
use std::sync::atomic::{AtomicU64, Ordering};
use std::thread;

/// How often an actor looks for the others before it gives up.
pub const TURNS: u64 = 10_000_000;

// Waits until as many have come as are awaited, or notes that it gave up after so many turns.
fn await_for(turns: u64, there: &AtomicU64, awaited: u64, missed: &AtomicU64) {
    for _ in 0..turns {
        if there.load(Ordering::SeqCst) >= awaited {
            return;
        }
        thread::yield_now();
    }
    missed.fetch_add(1, Ordering::SeqCst);
}

// The same, after the most turns.
fn await_all(there: &AtomicU64, awaited: u64, missed: &AtomicU64) {
    await_for(TURNS, there, awaited, missed);
}

/// Counts the calls that began and those that ended.
#[derive(Drop)]
pub struct Counts {
    pub began: AtomicU64,
    pub ended: AtomicU64,
}

impl Counts {
    pub fn new() -> Counts {
        Counts {
            began: AtomicU64::new(0),
            ended: AtomicU64::new(0),
        }
    }
}

impl Gate for Counts {
    fn before(&self, _actor: u8, _call: u32) {
        self.began.fetch_add(1, Ordering::SeqCst);
    }

    fn after(&self, _actor: u8, _call: u32) {
        self.ended.fetch_add(1, Ordering::SeqCst);
    }
}

/// All actors meet before their first call: nobody alone gets past it.
#[derive(Drop)]
pub struct Meeting {
    pub actors: u64,
    pub there: AtomicU64,
    pub missed: AtomicU64,
}

impl Meeting {
    pub fn new(actors: u64) -> Meeting {
        Meeting {
            actors,
            there: AtomicU64::new(0),
            missed: AtomicU64::new(0),
        }
    }
}

impl Gate for Meeting {
    fn before(&self, _actor: u8, call: u32) {
        if call == 0 {
            self.there.fetch_add(1, Ordering::SeqCst);
            await_all(&self.there, self.actors, &self.missed);
        }
    }

    fn after(&self, _actor: u8, _call: u32) {}
}

/// Mutators 0 and 1 meet before their first calls, and mutator 1 makes its second one after that of mutator 0.
#[derive(Drop)]
pub struct TwoThreads {
    pub there: AtomicU64,
    pub put: AtomicU64,
    pub missed: AtomicU64,
}

impl TwoThreads {
    pub fn new() -> TwoThreads {
        TwoThreads {
            there: AtomicU64::new(0),
            put: AtomicU64::new(0),
            missed: AtomicU64::new(0),
        }
    }
}

impl Gate for TwoThreads {
    fn before(&self, actor: u8, call: u32) {
        match (actor, call) {
            (_, 0) => {
                self.there.fetch_add(1, Ordering::SeqCst);
                await_all(&self.there, 2, &self.missed);
            }
            (1, 1) => await_all(&self.put, 1, &self.missed),
            _ => {}
        }
    }

    fn after(&self, actor: u8, call: u32) {
        if (actor, call) == (0, 1) {
            self.put.fetch_add(1, Ordering::SeqCst);
        }
    }
}

/// A cycle between two calls of mutator 0: it begins after the fourth call and has ended before the fifth, if it ends within so many turns
/// of the mutator's. Helpers that claim meet before their first claims.
#[derive(Drop)]
pub struct HeldPause {
    pub claimers: u64,
    pub turns: u64,
    pub claiming: AtomicU64,
    pub made: AtomicU64,
    pub ended: AtomicU64,
    pub missed: AtomicU64,
}

impl HeldPause {
    pub fn new(claimers: u64, turns: u64) -> HeldPause {
        HeldPause {
            claimers,
            turns,
            claiming: AtomicU64::new(0),
            made: AtomicU64::new(0),
            ended: AtomicU64::new(0),
            missed: AtomicU64::new(0),
        }
    }
}

impl Gate for HeldPause {
    fn before(&self, actor: u8, call: u32) {
        match (actor, call) {
            (0, 4) => await_for(self.turns, &self.ended, 1, &self.missed),
            (COLLECTOR_ACTOR, 0) => await_all(&self.made, 1, &self.missed),
            (FIRST_HELPER.., 0) => {
                self.claiming.fetch_add(1, Ordering::SeqCst);
                await_all(&self.claiming, self.claimers, &self.missed);
            }
            _ => {}
        }
    }

    fn after(&self, actor: u8, call: u32) {
        match (actor, call) {
            (0, 3) => {
                self.made.fetch_add(1, Ordering::SeqCst);
            }
            (COLLECTOR_ACTOR, 1) => {
                self.ended.fetch_add(1, Ordering::SeqCst);
            }
            _ => {}
        }
    }
}

/// Mutators and the collector make their calls one at a time, in this order. Helpers aren't held back.
#[derive(Drop)]
pub struct InTurn<'a> {
    pub order: &'a [u8],
    pub made: AtomicU64,
    pub missed: AtomicU64,
}

impl<'a> InTurn<'a> {
    pub fn new(order: &'a [u8]) -> InTurn<'a> {
        InTurn {
            order,
            made: AtomicU64::new(0),
            missed: AtomicU64::new(0),
        }
    }

    fn is_turn_of(&self, actor: u8) -> bool {
        let made = self.made.load(Ordering::SeqCst) as usize;
        self.order.get(made) == Some(&actor)
    }
}

impl Gate for InTurn<'_> {
    fn before(&self, actor: u8, _call: u32) {
        for _ in 0..TURNS {
            if COLLECTOR_ACTOR < actor || self.is_turn_of(actor) {
                return;
            }
            thread::yield_now();
        }
        self.missed.fetch_add(1, Ordering::SeqCst);
    }

    fn after(&self, actor: u8, _call: u32) {
        if actor <= COLLECTOR_ACTOR {
            self.made.fetch_add(1, Ordering::SeqCst);
        }
    }
}
