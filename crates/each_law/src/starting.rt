//! How threads are started for jobs, and joined.
ghost use Rattle.std.specs.Prelude.{◌≡◌, ◌≤◌, All, true, IfSome, vec_len};
ghost use Rattle.std.specs.Vec.{vec_capacity};
ghost use Rattle.each_law.specs.Jobs.{AreStarted, AreJoined};

use crate::law::{Done, Law};
use std::snapshot::Snapshot;
use std::thread::{PromisedHandle, Scope, Threads};

// Starts a thread for the job. Where none can be had the job is dropped.
pub(crate) fn start<'s, 'w: 's, E, T: Send + Drop + 's, L: Law<T>, F: Fn(T) -> T + Sync + 'w>(
    scope: &Scope<'s, E>,
    law: &L,
    work: &'w F,
    job: T,
) -> Option<PromisedHandle<T, Done<T, L>>>
    requires can { F.pre work.now job }
    requires lawful { (r : T) → F.post work.now job r → L.does law.now job r }
    ensures { IfSome result (λ h. (h.promise.job.value ≡ job) × (h.promise.law.value ≡ law.now)) }
{
    let done = Done {
        job: Snapshot::of(&job),
        law: Snapshot::of(law),
    };
    let run = move || -> T
        requires { F.pre work.now job }
        ensures { F.post work.entry.now job result }
    { work(job) };
    match scope.spawn_with(done, run) {
        Ok(running) => Some(running),
        Err(_) => None,
    }
}

// Starts a thread for each job, up to the first that is refused one. Answers whether each has a thread.
pub(crate) fn start_all<'s, 'w: 's, E, T: Send + Drop + 's, L: Law<T>, F: Fn(T) -> T + Sync + 'w>(
    scope: &Scope<'s, E>,
    law: &L,
    work: &'w F,
    jobs: Vec<T>,
    running: &mut Vec<PromisedHandle<T, Done<T, L>>>,
) -> bool
    requires can { All (λ j. F.pre work.now j) jobs.items }
    requires lawful { (j : T) (r : T) → F.post work.now j r → L.does law.now j r }
    requires none { vec_len running.old ≡ 0 }
    requires room { vec_len jobs ≤ vec_capacity running.old }
    ensures started { result ≡ true → AreStarted law.now jobs.items running.new.items }
    ensures few { vec_len running.new ≤ vec_len jobs }
{
    for job in jobs {
        let Some(one) = start::<_, _, L, _>(scope, law, work, job) else {
            return false;
        };
        let Ok(()) = running.push(one) else {
            unreachable!()
        };
    }
    true
}

// Joins each thread, in order.
pub(crate) fn join_all<R: Threads, T: Drop, L: Law<T>>(
    rt: &R,
    running: Vec<PromisedHandle<T, Done<T, L>>>,
    done: &mut Vec<T>,
)
    requires none { vec_len done.old ≡ 0 }
    requires room { vec_len running ≤ vec_capacity done.old }
    ensures { AreJoined L.does running.items done.new.items }
{
    for one in running {
        let job = one.join(rt);
        let Ok(()) = done.push(job) else {
            unreachable!()
        };
    }
}
