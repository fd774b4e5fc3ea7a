//! What is to become of jobs.
use std::snapshot::Snapshot;
use std::thread::Promise;

/// What is to become of jobs of a type. A value of the law has what that depends on.
pub trait Law<T> {
    // Of a job before and after.
    ghost does: { Self → T → T → Type 0 };
}

/// A thread's promise that what it gives back is what was to become of its job.
#[derive(Drop)]
pub struct Done<T, L: Law<T>> {
    pub(crate) job: Snapshot<T>,
    pub(crate) law: Snapshot<L>,
}

impl<T, L: Law<T>> Promise<T> for Done<T, L> {
    ghost kept_by = { λ p r. L.does p.law.value p.job.value r };
}
