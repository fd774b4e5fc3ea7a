//! Sweeping: the unmarked objects of a page go, and what is kept stays.
ghost use Rattle.std.specs.Prelude.{◌≡◌, ◌+◌, true, false, count_by, length};
ghost use Rattle.object_space.specs.Store.{IsSwept};
ghost use Rattle.object_space.specs.Sweeps.{Sweeps, SweepsAny};

use super::ObjectSpace;
use marker::Marker;

impl ObjectSpace {
    /// Sweeps one page, if one is pending. Answers whether one was.
    pub fn sweep(&mut self, marker: &Marker) -> bool
        requires pages { length marker.now.dirty ≡ length self.old.states }
        ensures sweeps { Sweeps self.old marker.now.marks self.new }
        ensures none { result ≡ false → IsSwept self.old × (self.new ≡ self.old) }
        ensures page { result ≡ true → SweepsAny self.old marker.now.marks self.new }
        ensures fewer { result ≡ true → count_by (λ b. b) self.new.pending + 1 ≡ count_by (λ b. b) self.old.pending }
    {
        self.table.step(marker)
    }

    /// Sweeps all pending pages.
    pub fn sweep_all(&mut self, marker: &Marker)
        requires pages { length marker.now.dirty ≡ length self.old.states }
        ensures sweeps { Sweeps self.old marker.now.marks self.new }
        ensures swept { IsSwept self.new }
    {
        self.table.sweep_all(marker);
    }
}
