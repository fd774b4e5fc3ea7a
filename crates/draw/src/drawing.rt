//! A run that is drawn: what is written of each line of its script.
ghost use Rattle.std.specs.Prelude.{◌≡◌, ◌⊎◌, IfErr, IfOk, string_bytes};
ghost use Rattle.draw.specs.Drawn.{IsDrawn, NamesBadLine};
ghost use Rattle.programs.specs.Faults.{IsRefusal};

use crate::reply::shown_reply;
use programs::Fault;
use recording::Recorder;
use scripts::command;
use scripts::limits::LINE_BYTES;
use std::alloc::Global;
use trace_lines::record_line;
use tracing::Tracer;

/// A heap of so many pages, and what is told of its run.
#[derive(Drop)]
pub(crate) struct Run {
    pub(crate) pages: u32,
    pub(crate) recorder: Recorder,
    pub(crate) tracer: Tracer,
}

/// The record of a command, which is the line of this number in its script.
pub(crate) fn written(
    alloc: Global,
    run: &mut Run,
    number: u64,
    line: &str,
) -> Result<String, Fault>
    ensures drawn { IfOk result (λ text. IsDrawn run.old.pages run.old.recorder run.old.tracer line.now run.new.recorder run.new.tracer (string_bytes text)) }
    ensures fault { IfErr result (λ fault. NamesBadLine number line.now fault ⊎ IsRefusal fault) }
    ensures pages { run.new.pages ≡ run.old.pages }
{
    if line.len() > LINE_BYTES {
        return Err(Fault::BadLine(number));
    }
    let Some(event) = command(line.as_bytes()) else {
        return Err(Fault::BadLine(number));
    };
    let Ok(reply) = run.recorder.act(&event) else {
        return Err(Fault::Memory);
    };
    // What the recorder noted is what a yes of the checker means, so a no can come only where births can't be counted
    // any more.
    let core = Some(run.recorder.core());
    let Ok(Some(changes)) = run.tracer.tell(core, &event, &reply, run.recorder.hint()) else {
        return Err(Fault::Memory);
    };
    let Ok(text) = shown_reply(alloc, run.pages, &reply) else {
        return Err(Fault::Memory);
    };
    match record_line(alloc, line, text.as_str(), &changes) {
        Ok(record) => Ok(record),
        Err(_) => Err(Fault::Memory),
    }
}
