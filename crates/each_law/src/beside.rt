//! Jobs of one kind, and beside them one of another.
ghost use Rattle.std.specs.Prelude.{All, IfOk};
ghost use Rattle.each_law.specs.Jobs.{HaveRun};

use crate::law::Law;
use crate::starting::{join_all, start, start_all};
use std::alloc::{AllocError, Global};
use std::sync::Wait;
use std::thread;
use std::thread::{Scope, Threads};

// Starts all jobs and the other, and joins them. Where one had no thread, those that run go to their end first.
fn start_and_join_beside<
    's,
    'w: 's,
    E,
    R: Threads,
    T: Send + Drop + 's,
    L: Law<T>,
    F: Fn(T) -> T + Sync + 'w,
    U: Send + Drop + 's,
    M: Law<U>,
    H: Fn(U) -> U + Sync + 'w,
>(
    scope: &Scope<'s, E>,
    rt: &R,
    alloc: Global,
    law: &L,
    work: &'w F,
    jobs: Vec<T>,
    other_law: &M,
    other_work: &'w H,
    other: U,
) -> Result<(Vec<T>, U), AllocError>
    requires can { All (λ j. F.pre work.now j) jobs.items }
    requires lawful { (j : T) (r : T) → F.post work.now j r → L.does law.now j r }
    requires other_can { H.pre other_work.now other }
    requires other_lawful { (r : U) → H.post other_work.now other r → M.does other_law.now other r }
    ensures { IfOk result (λ v. HaveRun (L.does law.now) jobs.items v.0.items × M.does other_law.now other v.1) }
{
    let mut running = Vec::with_capacity(alloc, jobs.len())?;
    let mut done = Vec::with_capacity(alloc, jobs.len())?;
    let each = start_all::<_, _, L, _>(scope, law, work, jobs, &mut running);
    let beside = start::<_, _, M, _>(scope, other_law, other_work, other);
    join_all(rt, running, &mut done);
    let Some(beside) = beside else {
        return Err(AllocError);
    };
    let other = beside.join(rt);
    if each {
        Ok((done, other))
    } else {
        Err(AllocError)
    }
}

/// Runs each job in a thread of its own, and one job of another kind in one more, all at the same time. The error is that memory or
/// a thread could not be had: each job that had a thread was then run to its end, and all are dropped.
pub fn run_each_beside<
    R: Threads + Wait + Sync,
    T: Send + Drop,
    L: Law<T>,
    F: Fn(T) -> T + Sync,
    U: Send + Drop,
    M: Law<U>,
    H: Fn(U) -> U + Sync,
>(
    rt: &R,
    alloc: Global,
    law: &L,
    work: &F,
    jobs: Vec<T>,
    other_law: &M,
    other_work: &H,
    other: U,
) -> Result<(Vec<T>, U), AllocError>
    requires can { All (λ j. F.pre work.now j) jobs.items }
    requires lawful { (j : T) (r : T) → F.post work.now j r → L.does law.now j r }
    requires other_can { H.pre other_work.now other }
    requires other_lawful { (r : U) → H.post other_work.now other r → M.does other_law.now other r }
    ensures { IfOk result (λ v. HaveRun (L.does law.now) jobs.items v.0.items × M.does other_law.now other v.1) }
{
    thread::scope(
        thread::scope_env(),
        rt,
        move |scope| -> Result<(Vec<T>, U), AllocError>
            requires { All (λ j. F.pre work.now j) jobs.items
                × ((j : T) (r : T) → F.post work.now j r → L.does law.now j r)
                × H.pre other_work.now other
                × ((r : U) → H.post other_work.now other r → M.does other_law.now other r) }
            ensures { IfOk result (λ v. HaveRun (L.does law.entry.now) jobs.items v.0.items × M.does other_law.entry.now other v.1) }
        {
            start_and_join_beside::<_, _, _, L, _, _, M, _>(
                scope, rt, alloc, law, work, jobs, other_law, other_work, other,
            )
        },
    )
}
