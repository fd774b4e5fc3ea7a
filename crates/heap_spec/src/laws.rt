//! The laws of the sequential heap. Each is a function that does nothing, and its contract is the law: what the
//! definitions in `specs/` say must be right if these hold.
ghost use Rattle.heap_spec.specs.Laws.{ClosureIsLeast, ClosureIsMonotone, ClosureIsIdempotent, RunsAreSound, HappensKeepsSound, ObjectsLieInHeap, PointsIntoAtMostOne, TouchedIsClosed, TouchedHoldsReached, FinishKeepsReached, CollectKeepsReached, StepBirths, LoadAnswersStored, RefusedChangesNothing, CallsLeaveRegisters, CallsLeaveGlobals, CallsHaveOneOutcome};
ghost use Rattle.heap_spec.specs.PartialCycles.{UntouchedAreYoung};
ghost use Rattle.heap_spec.specs.Touching.{CallTouches, AttachTouches, RootTouchesNothing, StoreTouchesNothing, SoundObjectsAreApart};

/// The closure of some births is the least set of objects that its rules keep.
pub fn closure_is_least()
    ensures { ClosureIsLeast }
{}

/// More births have a larger closure.
pub fn closure_is_monotone()
    ensures { ClosureIsMonotone }
{}

/// The closure of a closure is that closure.
pub fn closure_is_idempotent()
    ensures { ClosureIsIdempotent }
{}

/// Every run of a new heap leads to a sound one.
pub fn runs_are_sound()
    ensures { RunsAreSound }
{}

/// Whatever happens next leaves a sound heap sound.
pub fn happens_keeps_sound()
    ensures { HappensKeepsSound }
{}

/// Objects have words, lie in the heap, and begin at a granule.
pub fn objects_lie_in_heap()
    ensures { ObjectsLieInHeap }
{}

/// A word points into at most one object.
pub fn points_into_at_most_one()
    ensures { PointsIntoAtMostOne }
{}

/// What is touched is closed.
pub fn touched_is_closed()
    ensures { TouchedIsClosed }
{}

/// What is reached is touched.
pub fn touched_holds_reached()
    ensures { TouchedHoldsReached }
{}

/// In a cycle that began with the marks of the last one, what isn't touched was allocated since the last collection.
pub fn untouched_are_young()
    ensures { UntouchedAreYoung }
{}

/// The end of a cycle keeps each reached object.
pub fn finish_keeps_reached()
    ensures { FinishKeepsReached }
{}

/// A full collection keeps each reached object, and no other.
pub fn collect_keeps_reached()
    ensures { CollectKeepsReached }
{}

/// After a step each object is an old one, or was born in it.
pub fn step_births()
    ensures { StepBirths }
{}

/// A load answers what was stored last.
pub fn load_answers_stored()
    ensures { LoadAnswersStored }
{}

/// A refused call changes nothing.
pub fn refused_changes_nothing()
    ensures { RefusedChangesNothing }
{}

/// A call leaves each register of its mutator but the one that it writes.
pub fn calls_leave_registers()
    ensures { CallsLeaveRegisters }
{}

/// A call leaves each global but the one that it writes.
pub fn calls_leave_globals()
    ensures { CallsLeaveGlobals }
{}

/// A call has one reply, and one heap after it but for the place of an allocation.
pub fn calls_have_one_outcome()
    ensures { CallsHaveOneOutcome }
{}

/// A call touches what was touched, and what the one word leads to that it brought.
pub fn call_touches()
    ensures { CallTouches }
{}

/// A mutator that comes touches nothing.
pub fn attach_touches()
    ensures { AttachTouches }
{}

/// A word that was a root word touches nothing but what is new.
pub fn root_touches_nothing()
    ensures { RootTouchesNothing }
{}

/// A store touches nothing.
pub fn store_touches_nothing()
    ensures { StoreTouchesNothing }
{}

/// The objects of a sound heap are apart.
pub fn sound_objects_are_apart()
    ensures { SoundObjectsAreApart }
{}
