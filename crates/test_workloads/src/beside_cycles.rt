//! Four mutators, each with a word of its own, beside a hundred cycles: each load answers what was stored last.

use crate::runs::{run, setting};
use final_pause::Open;
use std::alloc::{AllocError, Global};
use std::process::Abort;
use std::sync::Wait;
use std::test::Fail;
use std::thread::Threads;
use test_io::Taken;

const MUTATORS: u8 = 4;

const STORES: u32 = 1_000;

const CYCLES: u32 = 100;

// The lines of a mutator, and what is printed for them.
fn put_mutator(lines: &mut String, printed: &mut String, slot: u8) -> Result<(), AllocError> {
    writeln!(lines, "{slot} alloc 1 2 normal")?;
    writeln!(printed, "mutator {slot}\nok")?;
    for number in 1..=STORES {
        writeln!(
            lines,
            "{slot} set 2 {number}\n{slot} store 1 0 2\n{slot} load 3 1 0"
        )?;
        writeln!(printed, "ok\nok\n{number}")?;
    }
    Ok(())
}

// The workload, and what is printed for its mutators.
fn put_all(lines: &mut String, printed: &mut String) -> Result<(), AllocError> {
    for _ in 0..MUTATORS {
        lines.push_str("attach\n")?;
    }
    for slot in 0..MUTATORS {
        put_mutator(lines, printed, slot)?;
    }
    for _ in 0..CYCLES {
        lines.push_str("gc begin\ngc roots\ngc mark 8\ngc retrace\ngc finish\n")?;
    }
    printed.push_str("collector\n")
}

fn check<R: Threads + Wait + Abort + Sync>(
    rt: &R,
    alloc: Global,
    lines: &str,
    printed: &str,
    output: &mut Taken,
) {
    for helpers in [1u8, 4] {
        let answer = run(&setting(rt, alloc, &Open, 8, helpers), lines, output);
        assert_eq!(rt; answer, Ok(()));
        let text = output.text().unwrap_or("");
        assert!(rt; text.starts_with(printed), "{helpers} helpers");
    }
}

#[test]
fn each_load_answers_the_last_store(rt: HostRuntime) -> Result<(), Fail> {
    let mut lines = String::new(rt.alloc());
    let mut printed = String::new(rt.alloc());
    put_all(&mut lines, &mut printed)?;
    let mut output = Taken::new(rt.alloc())?;
    check(
        &rt,
        rt.alloc(),
        lines.as_str(),
        printed.as_str(),
        &mut output,
    );
    Ok(())
}
