//! Lines of a script, of each kind, with those of the collector. Plain Rust has none beside them.
use crate::figures::{report, since};
use scripts::run_bytes;
use std::alloc::{AllocError, Global};
use std::io;
use std::rt::Clock;
use std::time::Instant;

// A cycle with a mutator's calls before and within it. What it allocates goes in a later turn, so each has a page to sweep.
const TURN: &str = "0 alloc 1 4 normal
0 alloc 2 300 atomic
0 alloc 12 4 normal
0 store 1 0 1
0 load 3 1 0
0 base 4 1
0 size 2
0 set 5 7
0 copy 6 5
0 add 7 1 8
0 sub 8 7 1
0 get 8
0 push 7
0 pop 9
0 gput 3 1
gc begin
gc roots
0 store 1 1 1
gc mark 100
gc retrace
0 alloc 10 2 normal
0 free 10
0 gget 11 3
gc finish
gc sweep
gc no
gc collect
";

const TURN_LINES: u64 = 27;

const TURNS: u64 = 2_000;

const ROUNDS: u8 = 5;

const PAGES: u32 = 64;

// A mutator comes, and makes the turns.
fn write_script(alloc: Global) -> Result<String, AllocError> {
    let mut script = String::new(alloc);
    script.push_str("attach\n")?;
    for _ in 0..TURNS {
        script.push_str(TURN)?;
    }
    Ok(script)
}

/// Runs of the script, the fastest of some: a line's reading, its call, and its reply. It tells the bytes of the replies.
pub(crate) fn measure<R: Eprint + Clock>(rt: &R, alloc: Global) -> io::Result<()> {
    let script = write_script(alloc)?;
    let mut least = u128::MAX;
    let mut written = 0;
    for _ in 0..ROUNDS {
        let start = Instant::now(rt)?;
        let (replies, _answer) = run_bytes(alloc, script.as_bytes(), PAGES);
        least = least.min(since(rt, start)?);
        written = replies.len() as u64;
    }
    report(rt, "script_line", least, TURNS * TURN_LINES, written)
}
