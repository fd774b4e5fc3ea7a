//! Many objects by one call. Where a page is ready for them its cells are taken together, and each counts as a call of its own.
ghost use Rattle.std.specs.Prelude.{◌≡◌, ℕ, ◌<◌, ◌≤◌, IfErr, IfOk, length, slice_index_or, take};
ghost use Rattle.heap_core.specs.MutatorCalls.{IsCall};
ghost use Rattle.heap_core.specs.Many.{AreWritten, Grants};

use super::Core;
use heap_spec::{Call, Event, Reply};
use words::{Kind, Refusal, Reg, Slot};

/// What many objects are asked for with: where the base of the last one goes, how many words each has at least, and of which kind it is.
#[derive(Clone, Copy, Debug, PartialEq, Eq)]
pub struct Request {
    pub into: Reg,
    pub words: u64,
    pub kind: Kind,
}

impl Core {
    // Objects for a request, of one page that is ready for them. None where the request is no small one or would be refused, and none
    // while a cycle marks, since then each has to be marked.
    fn alloc_ready(&mut self, slot: Slot, request: &Request, bases: &mut [u64]) -> usize
        ensures size { length bases.new ≡ length bases.old }
        ensures few { result ≤ length bases.new }
        ensures rest { (k : ℕ) → result ≤ k → slice_index_or bases.new k 0 ≡ slice_index_or bases.old k 0 }
        ensures grants { Grants slot request.now.into request.now.words request.now.kind self.old (take result bases.new) self.new }
        ensures same { result ≡ 0 → self.new ≡ self.old }
    {
        let Ok(_) = self.roots.attached(slot) else {
            return 0;
        };
        let Some(placement) = self.roots.placement(request.words) else {
            return 0;
        };
        if self.is_marking {
            return 0;
        }
        // Its clauses tell that the register is one.
        let _index = request.into.index();
        let count = self.objects.allocate_many(&placement, request.kind, bases);
        if count > 0 {
            self.roots.set_word(slot, request.into, bases[count - 1]);
        }
        count
    }

    // One object for a request, or more.
    fn alloc_some(
        &mut self,
        slot: Slot,
        request: &Request,
        bases: &mut [u64],
    ) -> Result<usize, Refusal>
        requires room { 0 < length bases.old }
        ensures size { length bases.new ≡ length bases.old }
        ensures some { IfOk result (λ count. 0 < count) }
        ensures few { IfOk result (λ count. count ≤ length bases.new) }
        ensures rest { IfOk result (λ count. (k : ℕ) → count ≤ k → slice_index_or bases.new k 0 ≡ slice_index_or bases.old k 0) }
        ensures grants { IfOk result (λ count. Grants slot request.now.into request.now.words request.now.kind self.old (take count bases.new) self.new) }
        ensures same { IfErr result (λ _. (k : ℕ) → slice_index_or bases.new k 0 ≡ slice_index_or bases.old k 0) }
        ensures refused { IfErr result (λ refusal. IsCall self.old (Event.Mutator slot (Call.Alloc request.now.into request.now.words request.now.kind)) (Reply.Refused refusal) self.new) }
    {
        let count = self.alloc_ready(slot, request, bases);
        if count > 0 {
            return Ok(count);
        }
        let base = self.alloc_base(slot, request.into, request.words, request.kind)?;
        bases[0] = base;
        Ok(1)
    }

    /// Allocates the objects that are asked for, all 0, one after the other, as many as there is room for bases, and puts the base of the
    /// last one into the register. The bases are written in their order, and how many came.
    ///
    /// # Errors
    /// As [`Core::alloc`], for the first request that is refused. Those before it were granted.
    pub fn alloc_many(
        &mut self,
        slot: Slot,
        request: &Request,
        bases: &mut [u64],
        count: &mut u64,
    ) -> Result<(), Refusal>
        ensures { AreWritten slot request.now.into request.now.words request.now.kind self.old bases.old bases.new count.new result self.new }
    {
        let mut done = 0;
        *count = 0;
        while done < bases.len() {
            let (_, rest) = bases.split_at_mut(done);
            done += self.alloc_some(slot, request, rest)?;
            *count = done as u64;
        }
        Ok(())
    }
}
