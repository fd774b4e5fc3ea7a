//! A heap whose lines are judged as they are run.
use heap_core::Core;
use heap_spec::Reply;
use recording::Recorder;
use replayer::Replayer;
use scripts::command;
use scripts::limits::LINE_BYTES;
use std::alloc::Global;
use std::test::Fail;

/// A new heap of so many pages, and what it is written down by.
pub(crate) fn recorded(alloc: Global, pages: u32) -> Result<Recorder, Fail> {
    let core = Core::new(alloc, pages).ok().ok_or("a heap")?;
    Ok(Recorder::new(alloc, core))
}

/// Runs a line. The checker has to say yes to what the heap answers.
pub(crate) fn ask(
    recorder: &mut Recorder,
    replayer: &mut Replayer,
    line: &[u8],
) -> Result<Reply, Fail> {
    if line.len() > LINE_BYTES {
        return Err("a short line".into());
    }
    let event = command(line).ok_or("a good line")?;
    let reply = recorder.act(&event).ok().ok_or("memory")?;
    if replayer.step(&event, &reply, recorder.hint()) {
        Ok(reply)
    } else {
        Err("a yes".into())
    }
}
