//! Calls of a core, as its tests make them.
use final_pause::{Helpers, Open};
use heap_core::Core;
use heap_spec::{Call, Event, Reply};
use scripts::command;
use scripts::limits::LINE_BYTES;
use std::alloc::Global;
use std::sync::Wait;
use std::test::Fail;
use std::thread::Threads;
use words::limits::GLOBALS;
use words::{Refusal, Reg, Slot};

/// Makes the calls of some lines.
pub(crate) fn run(core: &mut Core, text: &[u8]) -> Result<(), Fail> {
    for line in text.split(|byte| *byte == b'\n') {
        if !line.is_empty() && line.len() <= LINE_BYTES {
            let event = command(line).ok_or("a command")?;
            let _reply = ask(core, event);
        }
    }
    Ok(())
}

/// Each call has a function of its own: what a call promises isn't carried on to the next.
pub(crate) fn ask(core: &mut Core, event: Event) -> Reply {
    core.act(event)
}

/// Ends the marking with helpers, none of which is held back.
pub(crate) fn close_with(
    rt: &(impl Threads + Wait + Sync),
    alloc: Global,
    core: &mut Core,
    helpers: Helpers,
) -> Result<(), Refusal> {
    core.close_with(rt, alloc, helpers, &Open)
}

// No global points into an object any more.
fn clear_globals(core: &mut Core) -> Result<(), Fail> {
    let slot = Slot::new(0).ok_or("a slot")?;
    let zero = Reg::new(1).ok_or("a register")?;
    run(core, b"0 set 1 0\n")?;
    for number in 0..GLOBALS {
        let global = words::Global::new(number).ok_or("a global")?;
        let _reply = ask(core, Event::Mutator(slot, Call::GlobalPut(global, zero)));
    }
    Ok(())
}

/// Lets go of every root, after which the end of a cycle keeps what is marked and no more.
pub(crate) fn drop_roots(core: &mut Core) -> Result<(), Fail> {
    clear_globals(core)?;
    run(core, b"0 detach\n1 detach\n2 detach\n")
}
