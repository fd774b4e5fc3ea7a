//! What a word points into, asked without a call of a mutator.
ghost use Rattle.std.specs.Prelude.{◌≡◌, IfSome, IfNone};
ghost use Rattle.heap_core.specs.KeptAt.{IsKeptAt, KeepsNothingAt};
ghost use Rattle.heap_core.specs.Standing.{objects_of};

use super::Core;
use block_map::Found;

impl Core {
    /// The kept object that a word points into. This is no event: nothing changes.
    pub fn kept_at(&self, word: u64) -> Option<Found>
        ensures found { result ≡ objects_of self.now word }
        ensures some { IfSome result (λ found. IsKeptAt self.now word found) }
        ensures none { IfNone result (KeepsNothingAt self.now word) }
    {
        self.objects.find(&self.marker, word)
    }
}
