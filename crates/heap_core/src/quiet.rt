//! The collector's small steps as work that is no event of a history. Each is that one call of the core.
use crate::heap::Core;
use history::Quiet;
use words::Refusal;

/// [`Core::roots`]: marks what root words point into.
#[derive(Drop)]
pub struct Roots;

impl Quiet<Core> for Roots {
    type Answer = Result<(), Refusal>;

    ghost use Rattle.std.specs.Prelude.{true};
    ghost use Rattle.heap_core.specs.Collections.{IsGrantedInPhase, ReadsRoots};

    ghost gives = { λ work old answer after new. IsGrantedInPhase true old answer new (λ _. ReadsRoots old new) };

    fn run(&mut self, object: &mut Core) -> Result<(), Refusal> {
        object.roots()
    }
}

/// [`Core::mark`]: reads words of entries, at most so many, and answers how many.
#[derive(Drop)]
pub struct Mark(pub u64);

impl Quiet<Core> for Mark {
    type Answer = Result<u64, Refusal>;

    ghost use Rattle.std.specs.Prelude.{◌≡◌, true};
    ghost use Rattle.heap_core.specs.Collections.{IsGrantedInPhase, TakesWords};

    ghost gives = { λ work old answer after new. (after ≡ work) × IsGrantedInPhase true old answer new (λ n. TakesWords work.0 old n new) };

    fn run(&mut self, object: &mut Core) -> Result<u64, Refusal> {
        object.mark(self.0)
    }
}

/// [`Core::retrace`]: reads the lowest dirty page again. Answers 1, or 0 where no page is dirty.
#[derive(Drop)]
pub struct Retrace;

impl Quiet<Core> for Retrace {
    type Answer = Result<u64, Refusal>;

    ghost use Rattle.std.specs.Prelude.{true};
    ghost use Rattle.heap_core.specs.Collections.{IsGrantedInPhase, RetracesPage};

    ghost gives = { λ work old answer after new. IsGrantedInPhase true old answer new (λ n. RetracesPage old n new) };

    fn run(&mut self, object: &mut Core) -> Result<u64, Refusal> {
        object.retrace()
    }
}

/// [`Core::sweep`]: sweeps one page, if one is pending. Answers 1 if one was, and else 0.
#[derive(Drop)]
pub struct Sweep;

impl Quiet<Core> for Sweep {
    type Answer = Result<u64, Refusal>;

    ghost use Rattle.heap_core.specs.Collections.{IsAlwaysGranted, SweepsOne};

    ghost gives = { λ work old answer after new. IsAlwaysGranted answer (λ n. SweepsOne old n new) };

    fn run(&mut self, object: &mut Core) -> Result<u64, Refusal> {
        object.sweep()
    }
}

/// [`Core::written`]: tells an address of a word that is written past the calls.
#[derive(Drop)]
pub struct Written(pub u64);

impl Quiet<Core> for Written {
    type Answer = ();

    ghost use Rattle.std.specs.Prelude.{◌≡◌};
    ghost use Rattle.heap_core.specs.DirectWrites.{TellsWritten};

    ghost gives = { λ work old answer after new. (after ≡ work) × TellsWritten work.0 old new };

    fn run(&mut self, object: &mut Core) {
        object.written(self.0)
    }
}
