//! Two mutators and the collector, whose calls come in orders that random words draw. In each order every call is legal, an object
//! that moves is kept, and one that is dropped is forgotten once.
ghost use Rattle.std.specs.Prelude.{◌<◌, IfSome};

use crate::judged::{ask, recorded};
use heap_spec::Reply;
use rand_core::SeedableRng;
use rand_core::utils::NextWord;
use rand_pcg::Lcg64Xsh32;
use recording::Recorder;
use replayer::Replayer;
use std::alloc::Global;
use std::test::Fail;

const SEEDS: u64 = 500;

const PAGES: u32 = 1;

// The second object is reached through the first alone.
const OPENING: &[&str] = &[
    "attach",
    "attach",
    "0 alloc 1 2 normal",
    "0 alloc 2 2 normal",
    "0 store 1 0 2",
    "0 alloc 3 2 normal",
    "0 set 2 0",
];

// Mutator 0 moves the second object from the first to the third.
const MOVES: &[&str] = &["0 load 2 1 0", "0 store 3 0 2", "0 store 1 0 4"];

const CYCLE: &[&str] = &[
    "gc begin",
    "gc roots",
    "gc mark 64",
    "gc retrace",
    "gc finish",
];

// The calls of each actor.
type Lists = [&'static [&'static str]; 3];

// Mutator 1 has an object of its own, which a global keeps.
const KEEPS: Lists = [
    MOVES,
    &["1 alloc 1 2 normal", "1 gput 0 1", "1 set 1 0"],
    CYCLE,
];

// It drops it.
const DROPS: Lists = [
    MOVES,
    &["1 alloc 1 2 normal", "1 set 1 0", "1 gget 2 0"],
    CYCLE,
];

// How many calls the three have.
const TURNS: usize = 11;

// The object that was moved is read where it is now.
const ENDING: &[&str] = &["0 set 2 0", "0 load 2 3 0"];

// What came of an order: counts that were answered.
#[derive(Drop)]
struct Order {
    /// Whether mutator 1 had made two calls when the cycle began.
    begins_late: bool,
    finish: u64,
    size: u64,
    collect: u64,
}

// The count that a reply is, and no count that is waited for where it is none.
fn count_of(reply: Reply) -> u64 {
    match reply {
        Reply::Count(count) => count,
        _ => u64::MAX,
    }
}

// The actor that a word picks of those that have calls left.
fn pick(left: &[usize; 3], word: u32) -> Option<usize>
    ensures { IfSome result (λ actor. actor < 3) }
{
    let waiting = left.iter().filter(|calls| **calls > 0).count();
    let mut skipped = (word as usize).checked_rem(waiting)?;
    for actor in 0..3 {
        if left[actor] > 0 {
            if skipped == 0 {
                return Some(actor);
            }
            skipped -= 1;
        }
    }
    None
}

// The next call of the actor that a word picks.
fn next_call(lists: &Lists, left: &mut [usize; 3], word: u32) -> Option<&'static str> {
    let actor = pick(left, word)?;
    let calls = lists[actor];
    let made = calls.len().checked_sub(left[actor])?;
    left[actor] = left[actor].saturating_sub(1);
    calls.get(made).copied()
}

fn ask_all(recorder: &mut Recorder, replayer: &mut Replayer, lines: &[&str]) -> Result<(), Fail> {
    for line in lines {
        ask(recorder, replayer, line.as_bytes())?;
    }
    Ok(())
}

fn make_turns(
    recorder: &mut Recorder,
    replayer: &mut Replayer,
    lists: &Lists,
    seed: u64,
) -> Result<(bool, Reply), Fail> {
    let mut words = Lcg64Xsh32::seed_from_u64(seed);
    let mut left = [lists[0].len(), lists[1].len(), lists[2].len()];
    let mut begins_late = false;
    let mut finish = Reply::Done;
    for _turn in 0..TURNS {
        let call = next_call(lists, &mut left, words.next_word()).ok_or("a call")?;
        let reply = ask(recorder, replayer, call.as_bytes())?;
        if call == "gc begin" {
            begins_late = left[1] < 2;
        }
        if call == "gc finish" {
            finish = reply;
        }
    }
    Ok((begins_late, finish))
}

fn replies_of(
    recorder: &mut Recorder,
    replayer: &mut Replayer,
    lists: &Lists,
    seed: u64,
) -> Result<Order, Fail> {
    ask_all(recorder, replayer, OPENING)?;
    let (begins_late, finish) = make_turns(recorder, replayer, lists, seed)?;
    ask_all(recorder, replayer, ENDING)?;
    let size = ask(recorder, replayer, b"0 size 2")?;
    let collect = ask(recorder, replayer, b"gc collect")?;
    Ok(Order {
        begins_late,
        finish: count_of(finish),
        size: count_of(size),
        collect: count_of(collect),
    })
}

fn run_order(alloc: Global, lists: &Lists, seed: u64) -> Result<Order, Fail> {
    let mut recorder = recorded(alloc, PAGES)?;
    let mut replayer = Replayer::new(alloc, PAGES).ok().ok_or("a checker")?;
    replies_of(&mut recorder, &mut replayer, lists, seed)
}

// The object that was moved is whole, and so is the one in the global.
fn is_kept(order: &Order) -> bool {
    order.size == 2 && order.finish == 0 && order.collect == 0
}

// The object that was moved is whole. The one that was dropped went once, and with the cycle that began behind.
fn is_forgotten_once(order: &Order) -> bool {
    let by_cycle = order.finish == 1 && order.collect == 0;
    let later = order.finish == 0 && order.collect == 1;
    order.size == 2 && (by_cycle || (later && !order.begins_late))
}

#[test]
fn what_is_reached_is_kept(rt: HostRuntime) -> Result<(), Fail> {
    for seed in 1..=SEEDS {
        let order = run_order(rt.alloc(), &KEEPS, seed)?;
        assert!(rt; is_kept(&order), "seed {seed}");
    }
    Ok(())
}

#[test]
fn what_is_dropped_is_forgotten_once(rt: HostRuntime) -> Result<(), Fail> {
    for seed in 1..=SEEDS {
        let order = run_order(rt.alloc(), &DROPS, seed)?;
        assert!(rt; is_forgotten_once(&order), "seed {seed}");
    }
    Ok(())
}
