//! Jobs of one kind, the last of them on the calling thread.
ghost use Rattle.std.specs.Prelude.{◌≡◌, All, IfOk, MatchOption, true, false};
ghost use Rattle.each_law.specs.Jobs.{HaveRun};

use crate::law::Law;
use crate::starting::{join_all, start_all};
use std::alloc::{AllocError, Global};
use std::sync::Wait;
use std::thread;
use std::thread::{Scope, Threads};

// Does the job, or drops it at once.
fn do_or_drop<T: Drop, F: Fn(T) -> T>(work: &F, job: T, is_done: bool) -> Option<T>
    requires can { F.pre work.now job }
    ensures { MatchOption result (is_done ≡ false) (λ r. (is_done ≡ true) × F.post work.now job r) }
{
    if is_done { Some(work(job)) } else { None }
}

// Starts all jobs but the last, does that one, and joins them. Where one had no thread, the last isn't done, and those that run
// go to their end.
fn start_and_join<
    's,
    'w: 's,
    E,
    R: Threads,
    T: Send + Drop + 's,
    L: Law<T>,
    F: Fn(T) -> T + Sync + 'w,
>(
    scope: &Scope<'s, E>,
    rt: &R,
    alloc: Global,
    law: &L,
    work: &'w F,
    mut jobs: Vec<T>,
) -> Result<Vec<T>, AllocError>
    requires can { All (λ j. F.pre work.now j) jobs.items }
    requires lawful { (j : T) (r : T) → F.post work.now j r → L.does law.now j r }
    ensures { IfOk result (λ v. HaveRun (L.does law.now) jobs.items v.items) }
{
    let mut running = Vec::with_capacity(alloc, jobs.len())?;
    let mut done = Vec::with_capacity(alloc, jobs.len())?;
    let Some(last) = jobs.pop() else {
        return Ok(done);
    };
    let each = start_all::<_, _, L, _>(scope, law, work, jobs, &mut running);
    let last = do_or_drop(work, last, each);
    join_all(rt, running, &mut done);
    let Some(last) = last else {
        return Err(AllocError);
    };
    done.push(last)?;
    Ok(done)
}

/// Runs all jobs at the same time, the last on the calling thread and each other in a thread of its own, and gives them back in
/// their order; so a single job starts no thread. The error is that memory or a thread could not be had: each job that had a thread
/// was then run to its end, the last wasn't run, and all are dropped.
pub fn run_each<R: Threads + Wait + Sync, T: Send + Drop, L: Law<T>, F: Fn(T) -> T + Sync>(
    rt: &R,
    alloc: Global,
    law: &L,
    work: &F,
    jobs: Vec<T>,
) -> Result<Vec<T>, AllocError>
    requires can { All (λ j. F.pre work.now j) jobs.items }
    requires lawful { (j : T) (r : T) → F.post work.now j r → L.does law.now j r }
    ensures { IfOk result (λ v. HaveRun (L.does law.now) jobs.items v.items) }
{
    thread::scope(
        thread::scope_env(),
        rt,
        move |scope| -> Result<Vec<T>, AllocError>
            requires { All (λ j. F.pre work.now j) jobs.items × ((j : T) (r : T) → F.post work.now j r → L.does law.now j r) }
            ensures { IfOk result (λ v. HaveRun (L.does law.entry.now) jobs.items v.items) }
        { start_and_join::<_, _, _, L, _>(scope, rt, alloc, law, work, jobs) },
    )
}
