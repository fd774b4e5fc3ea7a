//! A workload on threads: each mutator in a thread of its own, and the collector in one more.
ghost use Rattle.std.specs.Prelude.{◌≡◌, ◌≤◌, [], All, IfSome, IfOk, length, map, vec_len};
ghost use Rattle.std.specs.Vec.{vec_capacity};
ghost use Rattle.words.specs.declared.limits.TheConstants.{MAX_PAGES, SLOTS};
ghost use Rattle.each_law.specs.Jobs.{HaveRun};
ghost use Rattle.shared.specs.Journals.{made_of, IsOf};
ghost use Rattle.shared.specs.WhileAttached.{IsNoDetach};
ghost use Rattle.workloads.specs.Actors.{CanCall, HasCalled, IsAttachedJob, AreAttached, AreReplies, CanCommand, HasCommanded};
ghost use Rattle.workloads.specs.OneHistory.{Explains, HaveOneHistory};
ghost use Rattle.workloads.specs.Recorded.{IsRun};

use crate::collector_job::{CollectorJob, GatedHeap, GivesCommands};
use crate::lines::Lines;
use crate::mutator_job::{Attached, MakesCalls, MutatorJob, run_mutator};
use crate::replies::Replies;
use crate::setting::Setting;
use crate::settling::settle;
use crate::workload::Workload;
use each_law::run_each_beside;
use final_pause::{Gate, Helpers};
use heap_core::Core;
use heap_spec::{Call, Reply};
use history::{Naming, Opened};
use shared::{Collector, Entries, Journal, SharedHeap, open};
use std::alloc::{AllocError, Global};
use std::marker::Brand;
use std::sync::Wait;
use std::thread::Threads;
use words::RunError;

// A mutator comes, which has to get this slot.
fn attach_one<'a, J: Naming, R: Wait>(
    rt: &'a R,
    heap: &'a SharedHeap<J>,
    slot: usize,
    calls: &'a [Call],
    replies: Vec<Reply>,
) -> Option<MutatorJob<'a, J, R>>
    requires plain { All IsNoDetach calls.now }
    requires room { length replies.items ≡ length calls.now }
    ensures { IfSome result (λ job. IsAttachedJob J.origin calls.now slot job) }
{
    let Ok(me) = heap.attach(rt) else {
        return None;
    };
    let attached = Attached { rt, heap, me };
    if attached.slot().index() != slot {
        return None;
    }
    Some(MutatorJob {
        attached,
        calls,
        replies,
    })
}

// The workload's mutators come in their order, and memory for their replies is taken.
fn attach_all<'a, J: Naming, R: Wait>(
    rt: &'a R,
    alloc: Global,
    heap: &'a SharedHeap<J>,
    workload: &'a Workload,
) -> Result<Vec<MutatorJob<'a, J, R>>, AllocError>
    ensures attached { IfOk result (λ jobs. AreAttached J.origin workload.now.mutators jobs.items) }
    ensures can { IfOk result (λ jobs. All (λ job. CanCall job) jobs.items) }
{
    let mut jobs = Vec::with_capacity(alloc, workload.mutators())?;
    for slot in 0..workload.mutators() {
        let calls = workload.calls(slot);
        let replies = vec![in alloc; Reply::Done; calls.len()]?;
        let Some(job) = attach_one(rt, heap, slot, calls, replies) else {
            return Err(AllocError);
        };
        jobs.push(job)?;
    }
    Ok(jobs)
}

// Takes the replies, and detaches the mutators.
fn take_replies<'a, J: Naming, R: Wait>(
    jobs: Vec<MutatorJob<'a, J, R>>,
    replies: &mut Vec<Lines<Reply>>,
)
    requires none { vec_len replies.old ≡ 0 }
    requires room { vec_len jobs ≤ vec_capacity replies.old }
    ensures { AreReplies jobs.entry.items replies.new.items }
{
    for job in jobs {
        let Ok(()) = replies.push(Lines::of(job.into_replies())) else {
            unreachable!()
        };
    }
}

// Runs each mutator's job in a thread of its own, and the collector's in one more.
fn run_jobs<'a, J: Naming + Send + Sync, R: Threads + Wait + Sync, G: Gate>(
    on: &GatedHeap<'_, J, R, G>,
    jobs: Vec<MutatorJob<'a, J, R>>,
    other: CollectorJob<'a, J>,
) -> Result<(Vec<MutatorJob<'a, J, R>>, CollectorJob<'a, J>), AllocError>
    requires can { All (λ job. CanCall job) jobs.items }
    requires other { CanCommand other }
    ensures jobs { IfOk result (λ done. HaveRun (λ job run. HasCalled job run) jobs.entry.items done.0.items) }
    ensures other { IfOk result (λ done. HasCommanded J.origin other.entry done.1) }
{
    let work = |job|
        requires { CanCall job }
        ensures { HasCalled job.entry result }
    { run_mutator(on.gate, job) };
    let collect = |job|
        requires { CanCommand job }
        ensures { HasCommanded J.origin job.entry result }
    { on.run(job) };
    run_each_beside::<_, _, MakesCalls, _, _, GivesCommands, _>(
        on.rt,
        on.alloc,
        &MakesCalls,
        &work,
        jobs,
        &GivesCommands,
        &collect,
        other,
    )
}

// Runs the workload on this heap, of which nobody has seen anything. All memory is taken before the first thread starts.
fn run_on<J: Naming + Send + Sync, R: Threads + Wait + Sync, G: Gate>(
    on: &GatedHeap<'_, J, R, G>,
    collector: Collector<J>,
    workload: &Workload,
) -> Result<(Replies, Journal), AllocError>
    requires { collector ≡ record { slot = SLOTS; seen = []; mine = [] } }
    ensures { IfOk result (λ run. IsRun J.origin workload.now run.0 run.1) }
{
    let commands = workload.commands();
    let answers = vec![in on.alloc; Reply::Done; commands.len()]?;
    let mut replies = Vec::with_capacity(on.alloc, workload.mutators())?;
    let jobs = attach_all(on.rt, on.alloc, on.heap, workload)?;
    let other = CollectorJob {
        collector,
        commands,
        replies: answers,
    };
    let (mut jobs, other) = run_jobs(on, jobs, other)?;
    let CollectorJob {
        mut collector,
        commands: _,
        replies: answers,
    } = other;
    // A look, by which the collector's pass is known to agree with what it has seen, also where it gave no command.
    let _collections = on.heap.gc_no_of(&mut collector);
    let (came, journal) = settle(on.rt, on.heap, &mut collector, jobs.as_mut_slice());
    if came != workload.mutators() as u64 {
        // Another mutator came, and went or stayed: what was answered may be owed to it.
        return Err(AllocError);
    }
    take_replies(jobs, &mut replies);
    Ok((Replies::new(replies, Lines::of(answers)), journal))
}

// Runs the workload on a heap that has a name, with this journal.
fn run_named<J: Naming + Send + Sync, R: Threads + Wait + Sync, G: Gate>(
    setting: &Setting<'_, R, G>,
    opened: Opened<Core>,
    journal: Journal,
    workload: &Workload,
) -> Result<(Replies, Journal), AllocError>
    requires table { opened.table ≡ J.table }
    requires pages { opened.origin ≡ J.origin }
    requires journal { IsOf journal [] }
    ensures { IfOk result (λ run. IsRun J.origin workload.now run.0 run.1) }
{
    let (heap, collector) = SharedHeap::<J>::with_journal(opened, journal);
    let on = GatedHeap {
        rt: setting.rt,
        alloc: setting.alloc,
        heap: &heap,
        helpers: setting.helpers,
        gate: setting.gate,
    };
    run_on(&on, collector, workload)
}

// Runs the workload on a heap of its own, with this journal.
fn run_with<R: Threads + Wait + Sync, G: Gate>(
    setting: &Setting<'_, R, G>,
    journal: Journal,
    workload: &Workload,
) -> Result<(Replies, Journal), RunError>
    requires some { 1 ≤ setting.now.pages }
    requires most { setting.now.pages ≤ MAX_PAGES }
    requires journal { IsOf journal [] }
    ensures { IfOk result (λ run. IsRun setting.now.pages workload.now run.0 run.1) }
{
    let Ok(opened) = open(setting.alloc, setting.pages) else {
        return Err(RunError::Memory);
    };
    Ok(run_named::<Brand, _, _>(setting, opened, journal, workload)?)
}

/// Runs a workload on a heap of its own of so many pages: each mutator makes its calls in a thread of its own, and the collector gives
/// its commands in one more, each in its order, between two calls of the gate. A cycle ends with so many helpers, each in a thread of its
/// own for as long as that takes. At the end every mutator is detached.
///
/// All memory is taken before the first thread starts, but for what the end of a cycle takes, which goes on without helpers where that is
/// refused. Where a thread can't be started, those that run go to their end. So a gate that
/// waits for an actor without a bound waits for good where that actor was refused its thread.
///
/// # Errors
/// [`RunError::Memory`]: memory, a mutator's slot or a thread could not be had, or a mutator came that isn't the workload's.
pub fn run_threads<R: Threads + Wait + Sync, G: Gate>(
    rt: &R,
    alloc: Global,
    workload: &Workload,
    pages: u32,
    helpers: Helpers,
    gate: &G,
) -> Result<Replies, RunError>
    requires some { 1 ≤ pages }
    requires most { pages ≤ MAX_PAGES }
    ensures { IfOk result (λ replies. HaveOneHistory pages workload.now replies) }
{
    let setting = Setting {
        rt,
        alloc,
        pages,
        helpers,
        gate,
    };
    let (replies, _journal) = run_with(&setting, Journal::Off, workload)?;
    Ok(replies)
}

/// Runs a workload as [`run_threads`] does, and answers besides the one history that explains all replies: each event as it joined the
/// history, in its order. The mutators' last calls, after which nobody asks for anything, are not in it.
///
/// # Errors
/// [`RunError::Memory`]: as there, and where memory for an entry was refused.
pub fn run_recorded<R: Threads + Wait + Sync, G: Gate>(
    setting: &Setting<'_, R, G>,
    workload: &Workload,
) -> Result<(Replies, Entries), RunError>
    requires some { 1 ≤ setting.now.pages }
    requires most { setting.now.pages ≤ MAX_PAGES }
    ensures { IfOk result (λ run. Explains setting.now.pages (map made_of run.1) workload.now run.0) }
{
    let journal = Journal::new(setting.alloc);
    let (replies, journal) = run_with(setting, journal, workload)?;
    let Journal::On(entries) = journal else {
        return Err(RunError::Memory);
    };
    Ok((replies, entries))
}
