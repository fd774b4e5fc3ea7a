//! The end of the marking by several threads.
ghost use Rattle.std.specs.Prelude.{true};
ghost use Rattle.heap_core.specs.Collections.{ClosesMarks, IsGrantedInPhase};

use super::Core;
use final_pause::{Gate, Helpers};
use std::alloc::Global;
use std::sync::Wait;
use std::thread::Threads;
use words::Refusal;

impl Core {
    /// Marks on until nothing is left to read, with helpers at the same time, the last of them on the calling thread. It marks
    /// what [`Core::finish`] would mark, so a `finish` right after it finds nothing to read. Where memory or a thread is refused, the calling thread
    /// marks alone, and leaves the same. The gate stands round each claim of a helper.
    ///
    /// # Errors
    /// [`Refusal::WrongPhase`] exactly while no cycle is marking.
    pub fn close_with<R: Threads + Wait + Sync, G: Gate>(
        &mut self,
        rt: &R,
        alloc: Global,
        helpers: Helpers,
        gate: &G,
    ) -> Result<(), Refusal>
        ensures { IsGrantedInPhase true self.old result self.new (λ _. ClosesMarks self.old self.new) }
    {
        if !self.is_marking {
            return Err(Refusal::WrongPhase);
        }
        self.roots.write_words(&mut self.root_words);
        self.objects.close_with(
            rt,
            alloc,
            &mut self.marker,
            self.root_words.as_slice(),
            helpers,
            gate,
        );
        Ok(())
    }
}
