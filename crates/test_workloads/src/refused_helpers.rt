//! A pause with helpers where memory or a thread is refused. By itself this runs with ample memory and threads enough; `rt try
//! --test --fail-alloc N` refuses the N-th request, and `tests/refused_threads.sh` refuses each thread in turn.
use crate::cores::{ask, close_with, drop_roots, run};
use final_pause::Helpers;
use heap_core::Core;
use heap_spec::{Event, Reply};
use std::alloc::Global;
use std::process::Abort;
use std::sync::Wait;
use std::test::Fail;
use std::thread::Threads;
use words::limits::{FIRST_ADDRESS, MAX_HELPERS};

const PAGES: u32 = 4;

// Two of three objects are reached when the pause comes.
const MARKING: &str =
    "attach\n0 alloc 1 2 normal\n0 alloc 2 2 normal\n0 alloc 3 2 normal\n0 set 3 0\ngc begin\n";

fn is_kept(core: &Core, address: u64) -> bool {
    core.kept_at(address).is_some()
}

// Nothing is left to read, and the third object alone isn't marked.
fn ends(rt: &impl Abort, core: &mut Core) -> Result<(), Fail> {
    assert_eq!(rt; ask(core, Event::Mark(1)), Reply::Count(0));
    drop_roots(core)?;
    assert_eq!(rt; ask(core, Event::Finish), Reply::Count(1));
    assert!(rt; is_kept(core, FIRST_ADDRESS));
    assert!(rt; is_kept(core, FIRST_ADDRESS + 16));
    assert!(rt; !is_kept(core, FIRST_ADDRESS + 32));
    Ok(())
}

fn close(
    rt: &(impl Abort + Threads + Wait + Sync),
    alloc: Global,
    core: &mut Core,
) -> Result<(), Fail> {
    run(core, MARKING.as_bytes())?;
    let helpers = Helpers::new(MAX_HELPERS).ok_or("eight helpers")?;
    assert_eq!(rt; close_with(rt, alloc, core, helpers), Ok(()));
    ends(rt, core)
}

// What is refused once the core is there, memory or a thread, changes no reply.
#[test]
fn refused_thread(rt: HostRuntime) -> Result<(), Fail> {
    let Ok(mut core) = Core::new(rt.alloc(), PAGES) else {
        return Ok(());
    };
    close(&rt, rt.alloc(), &mut core)
}
