//! Laws of cores: of a word in an object that a register holds, of calls that are made one after another, and of words that are
//! written past the calls, as by a program in C that has the heap's memory in its own address space. Each is a function that does
//! nothing, and its contract is the law.
ghost use Rattle.heap_core.specs.Held.{NewIsSound, ActsKeepSound, FewAllocationsAreRefused, GrantedWordsAreHeld, HoldersSet, HoldersStore, StoredWordIsHeld, HeldWordStays, HeldWordIsLoaded};
ghost use Rattle.heap_core.specs.Straight.{NoCallIsNoLine, CallsAreLines};
ghost use Rattle.heap_core.specs.BesideSteps.{BesideIsLines, WrittenBesideIsWrittenAfter};
ghost use Rattle.heap_core.specs.BesideCalls.{WrittenBesideCallsIsWrittenAfter};
ghost use Rattle.heap_core.specs.Unreached.{UnmarkedIsUnreached};
ghost use Rattle.heap_core.specs.FreedWords.{FreedWordsKeepCores, FreedWordsKeepHeaps, FreedWordsKeepRuns};
ghost use Rattle.heap_core.specs.DirectWrites.{WritesKeepCores, WritesAreStores, WritesAreLines, WritesAreVisits, ToldMayBeWritten};

/// A new core stands for a sound heap.
pub fn new_is_sound()
    ensures { NewIsSound }
{}

/// Whatever is called, it stands for a sound heap still.
pub fn acts_keep_sound()
    ensures { ActsKeepSound }
{}

/// A word of a `Normal` object is held while a register has the object's base: from the allocation on, which is refused only
/// where the slot has no mutator or nowhere is room; stores to its place are granted, and what was stored is held then; it stays through
/// every call of the collector, and through calls that store and free nothing and leave the register; a load answers it.
pub fn held_words()
    ensures few_refused { FewAllocationsAreRefused }
    ensures granted { GrantedWordsAreHeld }
    ensures sets { HoldersSet }
    ensures stores { HoldersStore }
    ensures stored { StoredWordIsHeld }
    ensures stays { HeldWordStays }
    ensures loaded { HeldWordIsLoaded }
{}

/// Calls that a client makes one after another are lines to the runs that the core followed.
pub fn calls_are_lines()
    ensures none { NoCallIsNoLine }
    ensures more { CallsAreLines }
{}

/// Whatever is true of every core stays true, where words are written past its calls.
pub fn writes_keep_cores()
    ensures { WritesKeepCores }
{}

/// To the heap they are stores of words.
pub fn writes_are_stores()
    ensures { WritesAreStores }
{}

/// To the runs that the core followed they are lines of any mutator that is attached.
pub fn writes_are_lines()
    ensures { WritesAreLines }
{}

/// They are also lines of a mutator that comes to write and goes.
pub fn writes_are_visits()
    ensures { WritesAreVisits }
{}

/// Once an address was told, any word may be written there.
pub fn told_may_be_written()
    ensures { ToldMayBeWritten }
{}

/// To the runs that the core followed, marking beside writers is lines of any mutator that is attached: it has in a register the
/// words that were written meanwhile.
pub fn beside_is_lines()
    ensures { BesideIsLines }
{}

/// What is written beside the marker is written after it.
pub fn written_beside_is_written_after()
    ensures { WrittenBesideIsWrittenAfter }
{}

/// What is written beside a call of a mutator, a sweep or a telling is written after it.
pub fn written_beside_calls_is_written_after()
    ensures { WrittenBesideCallsIsWrittenAfter }
{}

/// Where all is marked that roots lead to, an object that isn't marked is one to which no root leads.
pub fn unmarked_is_unreached()
    ensures { UnmarkedIsUnreached }
{}

/// Words of free pages may change past the calls, as where their memory is given back to the system: whatever is true of every
/// core stays true, and it stands for what it stood for and follows what it followed. What is allocated there is 0 none the less.
pub fn freed_words_may_change()
    ensures cores { FreedWordsKeepCores }
    ensures heaps { FreedWordsKeepHeaps }
    ensures runs { FreedWordsKeepRuns }
{}
