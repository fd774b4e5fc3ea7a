//! The law of replays: a function that does nothing, and its contract is the law.
ghost use Rattle.replayer.specs.Laws.{ReplaysHaveOneNext};

/// An event with its reply and a hint leads from a run to one run, and from a sound heap to a sound one.
pub fn replays_have_one_next()
    ensures { ReplaysHaveOneNext }
{}
