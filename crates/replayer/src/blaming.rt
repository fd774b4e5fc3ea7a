//! What is wrong about the objects that a collection is said to have forgotten, and what keeps one of them. The run stays where it was.
ghost use Rattle.std.specs.Prelude.{◌≡◌, IfOk};
ghost use Rattle.heap_spec.specs.Runs.{Start, Run, heap_after};
ghost use Rattle.plain_heap.specs.Keepers.{TellsKeeper};
ghost use Rattle.plain_heap.specs.Paths.{TellsPath};
ghost use Rattle.plain_heap.specs.Wrongs.{TellsLowest};
ghost use Rattle.replayer.specs.ReplayerContents.{Follows};
ghost use Rattle.replayer.specs.Wrongs.{IsWrongFinish, IsWrongCollect, TellsWrong};

use crate::flags::wrong_forgotten;
use crate::hint::Hint;
use crate::replayer::Replayer;
use heap_spec::Event;
use plain_heap::{Keeper, PathStep, Wrong};
use std::alloc::{AllocError, Global};

impl Replayer {
    // What is wrong about the bases that the end of a cycle is said to have forgotten.
    fn wrong_finish(&mut self, bases: &[u64]) -> Option<Wrong>
        ensures wrong { (start : Start) (run : Run) → Follows self.old start run → TellsLowest (IsWrongFinish start run bases.now) result }
        ensures same { self.new ≡ self.old }
    {
        if !self.is_marking() {
            return None;
        }
        wrong_forgotten(&mut self.heap, bases, &self.touched)
    }

    // What is wrong about the bases that a full collection is said to have forgotten.
    fn wrong_collect(&mut self, bases: &[u64]) -> Option<Wrong>
        ensures wrong { (start : Start) (run : Run) → Follows self.old start run → TellsLowest (IsWrongCollect start run bases.now) result }
        ensures same { self.new ≡ self.old }
    {
        self.heap.wrong_collected(bases)
    }

    // What is wrong about an event and its hint, by the kind of the event.
    fn wrong_by_kind(&mut self, event: Event, hint: Hint) -> Option<Wrong>
        ensures wrong { TellsWrong self.old event hint.entry result }
        ensures same { self.new ≡ self.old }
    {
        let Hint::Forgot(bases) = hint else {
            return None;
        };
        match event {
            Event::Attach => None,
            Event::Mutator(_, _) => None,
            Event::Begin => None,
            Event::BeginPartial => None,
            Event::Roots => None,
            Event::Mark(_) => None,
            Event::Retrace => None,
            Event::Finish => self.wrong_finish(bases),
            Event::Sweep => None,
            Event::Collect => self.wrong_collect(bases),
            Event::Number => None,
        }
    }

    /// The lowest of what is wrong about the bases that a `finish` or a `collect` is said to have forgotten: which of them is no
    /// object, stands twice or has to stay, and which object that isn't named had to go. `None` exactly if nothing is.
    pub fn wrong_with(&mut self, event: &Event, hint: Hint) -> Option<Wrong>
        ensures wrong { TellsWrong self.old event.now hint.entry result }
        ensures same { self.new ≡ self.old }
    {
        self.wrong_by_kind(*event, hint)
    }

    /// What keeps the object with this base reached: a root that points into it, or else a word of another reached object.
    /// `None` only if it isn't reached.
    pub fn keeper(&mut self, base: u64) -> Option<Keeper>
        ensures keeper { (start : Start) (run : Run) → Follows self.old start run → TellsKeeper (heap_after start run) base result }
        ensures same { self.new ≡ self.old }
    {
        self.heap.keeper(base)
    }

    /// A path from a root to the object with this base, its first step first. `None` exactly if the object isn't reached.
    #[tactic(auto, using(crate::proofs::Blamed::path_after))]
    pub fn path_to(&mut self, alloc: Global, base: u64) -> Result<Option<Vec<PathStep>>, AllocError>
        ensures path { IfOk result (λ path. (start : Start) (run : Run) → Follows self.old start run → TellsPath (heap_after start run) base path) }
        ensures same { self.new ≡ self.old }
    {
        self.heap.path_to(alloc, base)
    }
}
