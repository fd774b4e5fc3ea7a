//! A mutator that is detached where it is dropped, so that it can go to a thread and come back.
use crate::serve::serve_call;
use heap_spec::{Call, Reply};
use history::Naming;
use shared::{Mutator, SharedHeap};
use std::process::Abort;
use std::sync::Wait;

/// A mutator with its heap.
pub struct Attached<'a, J: Naming, R: Wait> {
    rt: &'a R,
    heap: &'a SharedHeap<J>,
    me: Mutator<J>,
}

impl<'a, J: Naming, R: Wait> Drop for Attached<'a, J, R> {
    fn drop(self) {
        let Self { rt, heap, me } = self;
        heap.detach(rt, me);
    }
}

impl<'a, J: Naming, R: Wait> Attached<'a, J, R> {
    /// Makes a call.
    pub fn call(&mut self, call: Call) -> Reply {
        serve_call(self.rt, self.heap, &mut self.me, call)
    }

    /// The number of its slot.
    pub fn slot(&self) -> u8 {
        self.me.slot().number()
    }
}

/// A mutator comes.
pub fn attach<'a, J: Naming, R: Wait + Abort>(
    rt: &'a R,
    heap: &'a SharedHeap<J>,
) -> Attached<'a, J, R> {
    let me = heap.attach(rt).ok().expect(rt, "a slot");
    Attached { rt, heap, me }
}
