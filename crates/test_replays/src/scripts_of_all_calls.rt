//! Random scripts of four mutators and the collector.
use crate::judged::{ask, recorded};
use recording::Recorder;
use replayer::Replayer;
use std::alloc::Global;
use std::test::Fail;
use workloads::make_stress;

const SEEDS: u64 = 50;

const MUTATORS: u8 = 4;

const STEPS: u32 = 3_000;

const PAGES: u32 = 8;

// Each line of the script is answered by a reply to which the checker says yes.
fn ask_all(recorder: &mut Recorder, replayer: &mut Replayer, script: &[u8]) -> Result<(), Fail> {
    let text = script.strip_suffix(b"\n").unwrap_or(script);
    for line in text.split(|byte| *byte == b'\n') {
        ask(recorder, replayer, line)?;
    }
    Ok(())
}

fn check_seed(alloc: Global, seed: u64) -> Result<(), Fail> {
    let script = make_stress(alloc, seed, MUTATORS, STEPS)
        .ok()
        .ok_or("a script")?;
    let mut recorder = recorded(alloc, PAGES)?;
    let mut replayer = Replayer::new(alloc, PAGES).ok().ok_or("a checker")?;
    ask_all(&mut recorder, &mut replayer, script.as_slice())
}

#[test]
fn each_line_of_random_scripts_is_legal(rt: HostRuntime) -> Result<(), Fail> {
    for seed in 1..=SEEDS {
        check_seed(rt.alloc(), seed)?;
    }
    Ok(())
}
