//! Mutators in threads, each with its own calls, and the one history that they leave.
ghost use Rattle.std.specs.Prelude.{◌≡◌, All, length};
ghost use mathlib.Core.List.{IsPrefix};
ghost use Rattle.shared_register.specs.LockedCalls.{IsPlainCall, IsLegalPass, Ran, Keeps};
ghost use Rattle.shared_register.specs.Jobs.{CanRun, AllRan, AllSettled, AllStandIn};

use crate::register::{Call, Reply};
use crate::shared::{Collector, Mutator, SharedRegister};
use history::Naming;
use std::sync::Wait;
use std::thread;
use std::thread::Threads;

/// A mutator with its calls, and room for their replies.
pub struct Job<J: Naming> {
    pub me: Mutator<J>,
    pub calls: Vec<Call>,
    pub replies: Vec<Reply>,
}

/// Makes the calls in order.
pub fn make_calls<J: Naming>(
    rt: &impl Wait,
    shared: &SharedRegister<J>,
    me: &mut Mutator<J>,
    calls: &[Call],
    replies: &mut [Reply],
)
    requires plain { All IsPlainCall calls.now }
    requires room { length replies.old ≡ length calls.now }
    ensures room { length replies.new ≡ length calls.now }
    ensures ran { Ran me.old calls.now replies.new me.new }
{
    for i in 0..calls.len() {
        replies[i] = shared.call(rt, me, &calls[i]);
    }
}

fn run_job<J: Naming>(rt: &impl Wait, shared: &SharedRegister<J>, job: &mut Job<J>)
    requires { CanRun job.old }
    ensures calls { job.new.calls ≡ job.old.calls }
    ensures ran { Ran job.old.me job.old.calls.items job.new.replies.items job.new.me }
{
    make_calls(
        rt,
        shared,
        &mut job.me,
        job.calls.as_slice(),
        job.replies.as_mut_slice(),
    );
}

/// Runs each job in a thread of its own.
pub fn run_all<J: Naming + Send + Sync, R: Threads + Wait + Sync>(
    rt: &R,
    shared: &SharedRegister<J>,
    jobs: &mut [Job<J>],
)
    requires { All CanRun jobs.old }
    ensures { AllRan jobs.old jobs.new }
{
    if jobs.is_empty() {
        return;
    }
    let threads = jobs.len();
    thread::for_each_mut(
        rt,
        jobs,
        threads,
        &|_, job: &mut Job<J>|
            requires { CanRun job.now }
            ensures { Ran job.entry.now.me job.entry.now.calls.items job.exit.now.replies.items job.exit.now.me }
        { run_job(rt, shared, job) },
    );
}

// The job's mutator and the collector have then seen one history.
fn meet_one<J: Naming>(shared: &SharedRegister<J>, collector: &mut Collector<J>, job: &mut Job<J>)
    ensures same { Keeps job.old.me job.new.me × (job.new.calls ≡ job.old.calls) × (job.new.replies ≡ job.old.replies) }
    ensures both { job.new.me.seen ≡ collector.new.seen }
    ensures grows { IsPrefix collector.old.seen collector.new.seen }
    ensures stays { IsPrefix job.old.me.seen collector.old.seen → collector.new.seen ≡ collector.old.seen }
    ensures fine { IsLegalPass J.origin job.new.me }
{
    shared.meet_collector(&mut job.me, collector);
}

/// After two rounds of meetings all mutators and the collector have seen one history: in the first round the collector learns what
/// each has seen, and in the second each learns what the collector has.
pub fn settle<J: Naming>(
    shared: &SharedRegister<J>,
    collector: &mut Collector<J>,
    jobs: &mut [Job<J>],
)
    ensures { AllSettled J.origin jobs.old jobs.new collector.new.seen }
{
    for i in 0..jobs.len() {
        meet_one(shared, collector, &mut jobs[i]);
    }
    for k in 0..jobs.len() {
        meet_one(shared, collector, &mut jobs[k]);
    }
}

/// Runs each job in a thread of its own. They leave one history, which all have then seen, and in which each one's calls stand, once
/// and in order, with the replies that they were given.
pub fn run_to_one_history<J: Naming + Send + Sync, R: Threads + Wait + Sync>(
    rt: &R,
    shared: &SharedRegister<J>,
    collector: &mut Collector<J>,
    jobs: &mut [Job<J>],
)
    requires { All CanRun jobs.old }
    ensures { AllStandIn J.origin collector.new.seen jobs.old jobs.new }
{
    run_all(rt, shared, jobs);
    settle(shared, collector, jobs);
}
