//! What follows from the headline for a caller, whatever others do. Each law is a function that does nothing, and its contract is the law.
ghost use Rattle.heap_history.specs.Laws.{SeenIsLegal, OwnLoadAnswers, OwnRegisterAnswers, OwnObjectStays, OwnWordStays, OwnObjectsApart, MineBegins, CountGrows, NobodyElseCame, LooksThenMakes, OthersLeaveWords, OwnWordsAsKnown};
ghost use Rattle.heap_history.specs.InTurn.{LeftBefore, NobodyElseCameInTurn, OthersLeaveWordsInTurn, OwnWordsAsKnownInTurn};

/// What a pass has seen is a legal history of the sequential heap.
pub fn seen_is_legal()
    ensures { SeenIsLegal }
{}

/// A mutator loads the word that it stored, whatever others do, unless somebody stores, frees or collects anything
/// between.
pub fn own_load_answers()
    ensures { OwnLoadAnswers }
{}

/// A mutator is told the word that it put into a register, whatever others do.
pub fn own_register_answers()
    ensures { OwnRegisterAnswers }
{}

/// The register of a mutator that allocated an object still has the base of an object, while its calls leave the
/// register and nobody frees any object.
pub fn own_object_stays()
    ensures { OwnObjectStays }
{}

/// What a mutator stored in an object that it allocated stays there while a register has the object, whatever cycles
/// run, unless somebody stores or frees anything.
pub fn own_word_stays()
    ensures { OwnWordStays }
{}

/// Two objects that a mutator allocated, the second while a register has the first, don't overlap, if nobody frees any
/// object between.
pub fn own_objects_apart()
    ensures { OwnObjectsApart }
{}

/// The own events of a mutator begin with its attach.
pub fn mine_begins()
    ensures { MineBegins }
{}

/// The count of collections never goes back along one pass.
pub fn count_grows()
    ensures { CountGrows }
{}

/// Where no more mutators came in a history than are known, nobody else had a part in it.
pub fn nobody_else_came()
    ensures { NobodyElseCame }
{}

/// A call after a look is a call.
pub fn looks_then_makes()
    ensures { LooksThenMakes }
{}

/// Where all that had a part in a history are known, and the others stored and freed nothing, no call of a mutator has a
/// store or a free between it and what the mutator had seen.
pub fn others_leave_words()
    ensures { OthersLeaveWords }
{}

/// Where all that had a part in a history are known, and each stored in its own Normal objects alone and freed none, each
/// loads from these what it last stored there itself.
pub fn own_words_as_known()
    ensures { OwnWordsAsKnown }
{}

/// A mutator that left was there before one that has seen all that it had.
pub fn left_before()
    ensures { LeftBefore }
{}

/// Where no more mutators came in a history than are known, which had their slots in turn, nobody else had a part in it,
/// and what a slot did is what they did there, one after another.
pub fn nobody_else_came_in_turn()
    ensures { NobodyElseCameInTurn }
{}

/// Where all that had a part in a history are known, in turn, and those of other slots stored and freed nothing, no call
/// has a store or a free between it and what its mutator had seen.
pub fn others_leave_words_in_turn()
    ensures { OthersLeaveWordsInTurn }
{}

/// Where all that had a part in a history are known, in turn, and each stored in its own Normal objects alone and freed
/// none, each loads from these what it last stored there itself.
pub fn own_words_as_known_in_turn()
    ensures { OwnWordsAsKnownInTurn }
{}
