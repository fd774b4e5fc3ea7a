//! Cycles that begin with the marks of the last one.
ghost use Rattle.std.specs.Prelude.{◌≡◌};
ghost use Rattle.heap_core.specs.Collections.{BeginsPartialCycle, IsGrantedPartial};

use super::Core;
use words::Refusal;

impl Core {
    /// Whether a full cycle is needed before one may begin with the marks of the last.
    pub fn needs_full(&self) -> bool
        ensures needs { result ≡ self.now.cycle.needs_full }
    {
        self.needs_full
    }

    /// Begins a cycle with the marks of the last one: what was allocated since is what it may forget.
    ///
    /// # Errors
    /// [`Refusal::WrongPhase`] exactly while a cycle is marking, and else [`Refusal::NeedsFull`] exactly where a full cycle
    /// is needed: none has ended yet, or an object was freed of which the marks don't know.
    pub fn begin_partial(&mut self) -> Result<(), Refusal>
        ensures { IsGrantedPartial self.old result self.new (BeginsPartialCycle self.old self.new) }
    {
        if self.is_marking {
            return Err(Refusal::WrongPhase);
        }
        if self.needs_full {
            return Err(Refusal::NeedsFull);
        }
        self.objects.sweep_all(&self.marker);
        // Its clauses tell that no word outside of the heap points into an object.
        self.objects.laws();
        self.marker.begin_partial();
        self.is_marking = true;
        Ok(())
    }
}
