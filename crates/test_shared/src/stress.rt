//! Sixteen mutators and a collector in threads of their own, on a heap that is small for them. Each mutator keeps a list that only its
//! registers and its own objects reach, and reads it back: a lost object would show as another's word, or as none.
ghost use Rattle.std.specs.Prelude.{◌≡◌};

use crate::attached::{Attached, attach};
use crate::cycles::{CALLS_A_CYCLE, Cycles, cycle};
use crate::serve::reg;
use arrayvec::ArrayVec;
use each_law::{Law, run_each_beside};
use heap_core::Core;
use heap_spec::{Call, Reply};
use history::{Naming, Opened};
use shared::{Collector, SharedHeap, open};
use std::alloc::{AllocError, Global};
use std::marker::Brand;
use std::process::Abort;
use std::sync::Wait;
use std::test::Fail;
use std::thread;
use std::thread::Threads;
use words::Kind;

const MUTATORS: usize = 16;

const PAGES: u32 = 8;

/// Each actor makes at least so many calls.
pub(crate) const CALLS: u64 = 100_000;

// The most turns of a mutator: one in five may make no call, where the heap has no room and the list is empty.
const TURNS: u64 = 2 * CALLS;

// The longest list that a mutator keeps.
const LONGEST: usize = 24;

// How many nodes the heap has room for: whoever reads more has seen cells used again.
const NODES: u64 = 8 * 256;

// Calls, words that were read back, and words that were lost.
#[derive(Clone, Copy)]
struct Tally {
    calls: u64,
    read_back: u64,
    lost: u64,
}

// A mutator with its list: what it pushed is what it is to pop.
#[derive(Drop)]
struct Player<'a, J: Naming, R: Wait> {
    me: Attached<'a, J, R>,
    kept: ArrayVec<u64, LONGEST>,
    tally: Tally,
}

// What becomes of players is looked at by the test.
struct Plays;

impl<T> Law<T> for Plays {
    ghost does = { λ law job done. Unit {0} };
}

impl<'a, J: Naming, R: Wait> Player<'a, J, R> {
    fn call(&mut self, call: Call) -> Reply {
        self.tally.calls = self.tally.calls.wrapping_add(1);
        self.me.call(call)
    }

    // A node in front of the list, with its word and the rest. Nodes of several classes have pages cut again and again.
    fn push(&mut self, word: u64) {
        let words = 2 + 2 * (word % 3);
        if self.call(Call::Alloc(reg(2), words, Kind::Normal)) != Reply::Done {
            thread::yield_now();
            return;
        }
        self.call(Call::Set(reg(3), word));
        self.call(Call::Store(reg(2), 0, reg(3)));
        self.call(Call::Store(reg(2), 1, reg(1)));
        self.call(Call::Copy(reg(1), reg(2)));
        self.call(Call::Set(reg(2), 0));
        let _room = self.kept.try_push(word);
    }

    // The front node goes: nothing reaches it any more.
    fn pop(&mut self) {
        let Some(word) = self.kept.pop() else {
            return;
        };
        if self.call(Call::Load(reg(3), reg(1), 0)) == Reply::Word(word) {
            self.tally.read_back = self.tally.read_back.wrapping_add(1);
        } else {
            self.tally.lost = self.tally.lost.wrapping_add(1);
        }
        self.call(Call::Load(reg(1), reg(1), 1));
    }
}

// Pushes and pops, and at last reads the list back whole.
fn play<'a, J: Naming, R: Wait>(player: Player<'a, J, R>) -> Player<'a, J, R> {
    let mut player = player;
    for turn in 0..TURNS {
        if player.tally.calls >= CALLS {
            break;
        }
        if player.kept.is_full() || turn % 5 == 4 {
            player.pop();
        } else {
            player.push(turn);
        }
    }
    for _ in 0..LONGEST {
        player.pop();
    }
    player
}

// What the test looks at: calls of the mutator that made fewest, words of all that were read back or lost, and cycles that
// ended.
#[derive(Clone, Copy)]
struct Found {
    all: Tally,
    ended: u64,
}

// A mutator comes, whose list is empty.
fn make_player<'a, J: Naming, R: Wait + Abort>(
    rt: &'a R,
    heap: &'a SharedHeap<J>,
) -> Player<'a, J, R> {
    Player {
        me: attach(rt, heap),
        kept: ArrayVec::new(),
        tally: Tally {
            calls: 0,
            read_back: 0,
            lost: 0,
        },
    }
}

fn come<'a, J: Naming, R: Wait + Abort>(
    rt: &'a R,
    alloc: Global,
    heap: &'a SharedHeap<J>,
) -> Result<Vec<Player<'a, J, R>>, AllocError> {
    let mut players = Vec::new(alloc);
    for _ in 0..MUTATORS {
        players.push(make_player(rt, heap))?;
    }
    Ok(players)
}

impl Tally {
    // What one more mutator found.
    fn add(&mut self, more: Tally) {
        self.calls = self.calls.min(more.calls);
        self.read_back = self.read_back.wrapping_add(more.read_back);
        self.lost = self.lost.wrapping_add(more.lost);
    }
}

// What the players found.
fn sum_up<J: Naming, R: Wait>(players: &[Player<'_, J, R>]) -> Tally {
    let mut all = Tally {
        calls: u64::MAX,
        read_back: 0,
        lost: 0,
    };
    for player in players {
        all.add(player.tally);
    }
    all
}

fn play_beside<'a, J: Naming + Send + Sync, R: Threads + Wait + Sync>(
    rt: &R,
    alloc: Global,
    players: Vec<Player<'a, J, R>>,
    cycles: Cycles<'a, J, R>,
) -> Result<Found, AllocError> {
    let (players, cycles) = run_each_beside::<_, _, Plays, _, _, Plays, _>(
        rt, alloc, &Plays, &play, players, &Plays, &cycle, cycles,
    )?;
    Ok(Found {
        all: sum_up(players.as_slice()),
        ended: cycles.ended,
    })
}

fn play_all<J: Naming + Send + Sync, R: Threads + Wait + Abort + Sync>(
    rt: &R,
    alloc: Global,
    heap: &SharedHeap<J>,
    collector: Collector<J>,
) -> Result<Found, AllocError> {
    let players = come(rt, alloc, heap)?;
    let cycles = Cycles {
        rt,
        heap,
        collector,
        ended: 0,
    };
    play_beside(rt, alloc, players, cycles)
}

fn sixteen_mutators<J: Naming + Send + Sync, R: Threads + Wait + Abort + Sync>(
    rt: &R,
    alloc: Global,
    opened: Opened<Core>,
) -> Result<Found, AllocError>
    requires { (opened.table ≡ J.table) × (opened.origin ≡ J.origin) }
{
    let (heap, collector) = SharedHeap::<J>::named(opened);
    play_all(rt, alloc, &heap, collector)
}

#[test]
fn no_list_loses_a_node(rt: HostRuntime) -> Result<(), Fail> {
    let opened = open(rt.alloc(), PAGES).ok().ok_or("a heap")?;
    let found = sixteen_mutators::<Brand, _>(&rt, rt.alloc(), opened)?;
    assert_eq!(rt; found.all.lost, 0);
    assert!(rt; found.all.calls >= CALLS, "{} calls", found.all.calls);
    assert!(rt;
        found.all.read_back > NODES,
        "{} words",
        found.all.read_back
    );
    assert_eq!(rt; found.ended, CALLS / CALLS_A_CYCLE);
    Ok(())
}
