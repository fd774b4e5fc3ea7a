//! The program, from what it is asked to do to its status.
ghost use Rattle.std.specs.Prelude.{IfOk, Result};
ghost use Rattle.programs.specs.declared.fault.Fault.{Fault};
ghost use Rattle.command_line.specs.declared.request.Request.{Request};
ghost use Rattle.command_line.specs.Requests.{CanBeDone, MayBeRead};
ghost use Rattle.command_line.specs.Obeying.{IsAnswered, ProgramEnds};

use crate::obeying::obey;
use crate::request::{Request, read_words};
use crate::streams::Streams;
use programs::{Fault, end};
use scripts::{Sink, Source};
use std::alloc::Global;
use std::convert::AsStr;
use std::rt::Files;
use std::sync::Wait;
use std::thread::Threads;

// Does what is asked for. Faults are looked for in this order: the words, the opening of the file, memory, the lines.
fn perform<R: Files + Threads + Wait + Sync, I: Source, O: Sink>(
    alloc: Global,
    rt: &R,
    request: &Result<Request<'_>, Fault>,
    input: &mut I,
    output: &mut O,
) -> Result<(), Fault>
    requires { IfOk request.now CanBeDone }
    ensures { IsAnswered I.remaining R.File.remaining O.written I.faults O.faults request.now input.old input.new output.old output.new result }
{
    match request {
        Ok(request) => obey(alloc, rt, request, input, output),
        Err(fault) => Err(*fault),
    }
}

/// Does what words ask for, as [`read_words`] reads them, and answers the status. A file that is named is opened here.
pub fn answer<R: Files + Threads + Wait + Sync, I: Source, O: Sink, E: Sink>(
    alloc: Global,
    rt: &R,
    request: &Result<Request<'_>, Fault>,
    streams: &mut Streams<I, O, E>,
) -> u8
    requires { IfOk request.now CanBeDone }
    ensures { ProgramEnds
        (IsAnswered I.remaining R.File.remaining O.written I.faults O.faults request.now
        streams.old.input streams.new.input streams.old.output streams.new.output)
        result (E.written streams.old.errors) (E.written streams.new.errors) (E.faults streams.old.errors) (E.faults streams.new.errors) }
{
    let ended = perform(alloc, rt, request, &mut streams.input, &mut streams.output);
    end(ended, &mut streams.errors)
}

/// The program: does what its words ask for, without its own name among them, and answers the status.
pub fn program<R: Files + Threads + Wait + Sync, S: AsStr, I: Source, O: Sink, E: Sink>(
    alloc: Global,
    rt: &R,
    words: &[S],
    streams: &mut Streams<I, O, E>,
) -> u8
    ensures { (request : Result Request Fault) × MayBeRead request × ProgramEnds
        (IsAnswered I.remaining R.File.remaining O.written I.faults O.faults request
        streams.old.input streams.new.input streams.old.output streams.new.output)
        result (E.written streams.old.errors) (E.written streams.new.errors) (E.faults streams.old.errors) (E.faults streams.new.errors) }
{
    answer(alloc, rt, &read_words(alloc, words), streams)
}
