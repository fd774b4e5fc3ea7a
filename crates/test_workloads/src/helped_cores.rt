//! Cores that are marking: by each number of helpers the pause marks what the pause alone marks, and leaves nothing to read.
use crate::cores::{ask, close_with, drop_roots, run};
use final_pause::Helpers;
use heap_core::Core;
use heap_spec::{Event, Reply};
use std::alloc::Global;
use std::process::Abort;
use std::sync::Wait;
use std::test::Fail;
use std::thread::Threads;
use words::Refusal;
use words::limits::{FIRST_ADDRESS, GRANULE_BYTES, MAX_HELPERS, PAGE_GRANULES};
use workloads::make_stress;

const PAGES: u32 = 8;

const SEEDS: u64 = 20;

const MUTATORS: u8 = 3;

const STEPS: u32 = 500;

// A cycle that has read a little when the pause comes.
const MARKING: &str = "gc collect\ngc begin\ngc roots\ngc mark 10\n";

// Two cores to which the same calls are made. The cycles of one end with helpers, and those of the other alone.
#[derive(Drop)]
struct Cores {
    helped: Core,
    alone: Core,
}

impl Cores {
    fn new(alloc: Global) -> Result<Cores, Fail> {
        let helped = Core::new(alloc, PAGES).ok().ok_or("a core")?;
        let alone = Core::new(alloc, PAGES).ok().ok_or("a core")?;
        Ok(Cores { helped, alone })
    }
}

// Both make the calls of some lines.
fn run_both(cores: &mut Cores, text: &[u8]) -> Result<(), Fail> {
    run(&mut cores.helped, text)?;
    run(&mut cores.alone, text)
}

// Both end their cycles, and keep the same.
fn end_alike(rt: &impl Abort, cores: &mut Cores) {
    let helped = ask(&mut cores.helped, Event::Finish);
    let alone = ask(&mut cores.alone, Event::Finish);
    assert_eq!(rt; helped, alone);
    for granule in 0..PAGE_GRANULES * u64::from(PAGES) {
        let address = FIRST_ADDRESS + GRANULE_BYTES * granule;
        assert!(rt;
            cores.helped.kept_at(address) == cores.alone.kept_at(address),
            "at {address}"
        );
    }
}

// The helped core has nothing left to read, and its marks alone keep what the other one keeps.
fn compare(rt: &impl Abort, cores: &mut Cores) -> Result<(), Fail> {
    assert_eq!(rt;
        ask(&mut cores.helped, Event::Mark(u64::MAX)),
        Reply::Count(0)
    );
    assert_eq!(rt; ask(&mut cores.helped, Event::Retrace), Reply::Count(0));
    drop_roots(&mut cores.helped)?;
    end_alike(rt, cores);
    Ok(())
}

// A cycle that is marking ends with so many helpers.
fn check(
    rt: &(impl Abort + Threads + Wait + Sync),
    alloc: Global,
    cores: &mut Cores,
    text: &[u8],
    number: u8,
) -> Result<(), Fail> {
    run_both(cores, text)?;
    let helpers = Helpers::new(number).ok_or("a number of helpers")?;
    assert_eq!(rt; close_with(rt, alloc, &mut cores.helped, helpers), Ok(()));
    compare(rt, cores)
}

// The same on new cores.
fn check_new(
    rt: &(impl Abort + Threads + Wait + Sync),
    alloc: Global,
    text: &[u8],
    number: u8,
) -> Result<(), Fail> {
    let mut cores = Cores::new(alloc)?;
    check(rt, alloc, &mut cores, text, number)
}

// By each number of helpers.
fn check_all(
    rt: &(impl Abort + Threads + Wait + Sync),
    alloc: Global,
    text: &[u8],
) -> Result<(), Fail> {
    for number in 1..=MAX_HELPERS {
        check_new(rt, alloc, text, number)?;
    }
    Ok(())
}

// The lines of a random script, and a cycle that is marking.
fn draw(alloc: Global, seed: u64) -> Result<Vec<u8>, Fail> {
    let mut text = make_stress(alloc, seed, MUTATORS, STEPS)
        .ok()
        .ok_or("a script")?;
    text.extend_from_slice(MARKING.as_bytes())?;
    Ok(text)
}

// New objects to which old ones lead, and new ones to which nothing does.
const LATER: &str =
    "0 alloc 4 2 normal\n0 store 5 0 4\n0 alloc 6 4 normal\n0 store 4 1 6\n0 set 6 0\n0 set 4 0\n1 alloc 2 2 normal\n1 set 2 0\n1 alloc 3 8 normal\n1 store 1 0 3\n2 copy 1 2\n";

// A cycle begins with the marks that the last one left.
fn begin_partial(rt: &impl Abort, core: &mut Core) -> Result<(), Fail> {
    run(core, LATER.as_bytes())?;
    assert_eq!(rt; ask(core, Event::BeginPartial), Reply::Done);
    Ok(())
}

// Two cycles of one core end with so many helpers, and those of the other alone; the second is partial.
fn check_partial(
    rt: &(impl Abort + Threads + Wait + Sync),
    alloc: Global,
    cores: &mut Cores,
    text: &[u8],
    helpers: Helpers,
) -> Result<(), Fail> {
    run_both(cores, text)?;
    assert_eq!(rt; close_with(rt, alloc, &mut cores.helped, helpers), Ok(()));
    end_alike(rt, cores);
    begin_partial(rt, &mut cores.helped)?;
    begin_partial(rt, &mut cores.alone)?;
    assert_eq!(rt; close_with(rt, alloc, &mut cores.helped, helpers), Ok(()));
    end_alike(rt, cores);
    Ok(())
}

fn check_new_partial(
    rt: &(impl Abort + Threads + Wait + Sync),
    alloc: Global,
    text: &[u8],
    number: u8,
) -> Result<(), Fail> {
    let mut cores = Cores::new(alloc)?;
    let helpers = Helpers::new(number).ok_or("a number of helpers")?;
    check_partial(rt, alloc, &mut cores, text, helpers)
}

// By each number of helpers.
#[test]
fn partial_cycles_after_helpers_keep_the_same(rt: HostRuntime) -> Result<(), Fail> {
    for seed in 1..=SEEDS {
        let text = draw(rt.alloc(), seed)?;
        for number in 1..=MAX_HELPERS {
            check_new_partial(&rt, rt.alloc(), text.as_slice(), number)?;
        }
    }
    Ok(())
}

#[test]
fn random_cores_keep_the_same(rt: HostRuntime) -> Result<(), Fail> {
    for seed in 1..=SEEDS {
        let text = draw(rt.alloc(), seed)?;
        check_all(&rt, rt.alloc(), text.as_slice())?;
    }
    Ok(())
}

// An object with its number, to which a word of the first one points.
fn put_child(alloc: Global, text: &mut Vec<u8>, child: u32) -> Result<(), Fail> {
    let lines = format!(in alloc;
        "0 alloc 2 2 normal\n0 set 3 {child}\n0 store 2 0 3\n0 store 1 {child} 2\n"
    )?;
    text.extend_from_slice(lines.as_bytes())?;
    Ok(())
}

// An object of 300 words, each of which points to an object of its own.
fn widen(alloc: Global, text: &mut Vec<u8>) -> Result<(), Fail> {
    text.extend_from_slice(b"attach\n0 alloc 1 300 normal\n")?;
    for child in 0..300u32 {
        put_child(alloc, text, child)?;
    }
    text.extend_from_slice(b"0 set 2 0\ngc begin\ngc roots\n")?;
    Ok(())
}

#[test]
fn more_objects_than_entries_are_kept(rt: HostRuntime) -> Result<(), Fail> {
    let mut text = Vec::new(rt.alloc());
    widen(rt.alloc(), &mut text)?;
    check_all(&rt, rt.alloc(), text.as_slice())
}

#[test]
fn helpers_wait_for_a_cycle(rt: HostRuntime) -> Result<(), Fail> {
    let helpers = Helpers::new(2).ok_or("two helpers")?;
    let mut core = Core::new(rt.alloc(), 1).ok().ok_or("a core")?;
    let answer = close_with(&rt, rt.alloc(), &mut core, helpers);
    assert_eq!(&rt; answer, Err(Refusal::WrongPhase));
    Ok(())
}
