//! Random scripts: each line is good, and each is a workload.

use crate::runs::mutators_of;
use scripts::run_script;
use std::alloc::Global;
use std::process::Abort;
use std::test::Fail;
use test_io::{Script, Taken};
use workloads::make_stress;

const SEEDS: u64 = 20;

const MUTATORS: u8 = 3;

const STEPS: u32 = 2_000;

// How many lines a script has: the attaches, and one for each step.
const LINES: usize = 2_003;

// The script has so many lines, all of which are answered, and as a workload so many mutators.
fn check_text(rt: &impl Abort, alloc: Global, text: &[u8], output: &mut Taken) {
    output.clear();
    assert_eq!(rt;
        run_script(alloc, &mut Script::new(text), output, 8),
        Ok(())
    );
    let replies = output.bytes.iter().filter(|byte| **byte == b'\n').count();
    assert_eq!(rt; replies, LINES);
    let mutators = mutators_of(alloc, &mut Script::new(text));
    assert_eq!(rt; mutators, Ok(usize::from(MUTATORS)));
}

fn check_seed(rt: &impl Abort, alloc: Global, seed: u64, output: &mut Taken) -> Result<(), Fail> {
    let text = make_stress(alloc, seed, MUTATORS, STEPS)
        .ok()
        .ok_or("a script")?;
    check_text(rt, alloc, text.as_slice(), output);
    Ok(())
}

#[test]
fn each_line_is_answered(rt: HostRuntime) -> Result<(), Fail> {
    let mut output = Taken::new(rt.alloc())?;
    for seed in 1..=SEEDS {
        check_seed(&rt, rt.alloc(), seed, &mut output)?;
    }
    Ok(())
}
