//! What a line of a run changed. Objects, entries and links are named by places, pages by their numbers.

/// An object that comes.
#[derive(Clone, Copy)]
pub struct NewObject {
    /// The place of its base.
    pub place: u64,

    /// The number of the allocation that made it, from 1.
    pub birth: u64,

    /// All words of its cell or pages.
    pub words: u64,

    /// Whether its words are never read.
    pub is_atomic: bool,
}

/// How a set changes.
#[derive(Drop)]
pub enum SetChange {
    /// These come.
    Comes(Vec<u64>),

    /// These go.
    Goes(Vec<u64>),

    /// The first come, and the second go.
    Differs(Vec<u64>, Vec<u64>),

    /// The set as it is now.
    Whole(Vec<u64>),
}

/// A word, and the number of where it stands: a word of the heap by its place, a global by its number.
#[derive(Clone, Copy)]
pub struct Numbered {
    pub number: u64,
    pub word: u64,
}

/// The word of a register.
#[derive(Clone, Copy)]
pub struct RegisterWord {
    pub slot: u64,
    pub register: u64,
    pub word: u64,
}

/// Of a stack so many of the lowest words stay, and these are pushed upon them.
#[derive(Drop)]
pub struct StackChange {
    pub slot: u64,
    pub keep: u64,
    pub pushed: Vec<u64>,
}

/// The link at a place names this base, or there is none any more.
#[derive(Clone, Copy)]
pub struct LinkChange {
    pub place: u64,
    pub base: Option<u64>,
}

/// An entry of the mark stack: an object, and its word that is read next.
#[derive(Clone, Copy)]
pub struct EntryAt {
    pub place: u64,
    pub next: u64,
}

/// Of the mark stack so many of the lowest entries stay, and these are pushed upon them.
#[derive(Drop)]
pub struct EntriesChange {
    pub keep: u64,
    pub pushed: Vec<EntryAt>,
}

/// The entry that is begun and no longer on the mark stack.
#[derive(Clone, Copy)]
pub enum Current {
    Begun(EntryAt),
    Nothing,
}

/// What a line looked at: root words, words of marked objects, dirty pages.
#[derive(Clone, Copy)]
pub struct Reads {
    pub roots: u64,
    pub words: u64,
    pub pages: u64,
}

/// So many words of the heap from a place on.
#[derive(Clone, Copy)]
pub struct WordRun {
    pub place: u64,
    pub words: u64,
}

/// Which mutators and objects come and go: slots, and objects by their places.
#[derive(Drop)]
pub struct ObjectChanges {
    pub attached: Vec<u64>,
    pub detached: Vec<u64>,

    /// What is no object any more and still to be swept, and whose cells or pages are free.
    pub forgotten: Vec<u64>,
    pub freed: Vec<u64>,

    /// The objects that come.
    pub born: Vec<NewObject>,
}

/// How sets change: three of objects, by their places, and three of pages.
#[derive(Drop)]
pub struct SetChanges {
    pub marked: Option<SetChange>,
    pub reached: Option<SetChange>,
    pub touched: Option<SetChange>,
    pub dirty: Option<SetChange>,
    pub carried: Option<SetChange>,
    pub pending: Option<SetChange>,
}

/// Which words change, and which links.
#[derive(Drop)]
pub struct WordChanges {
    pub wrote: Vec<Numbered>,
    pub registers: Vec<RegisterWord>,
    pub stacks: Vec<StackChange>,
    pub globals: Vec<Numbered>,
    pub links: Vec<LinkChange>,
}

/// What the collector has to read, its phase, how many collections there were, and what this line looked at.
#[derive(Drop)]
pub struct CycleChanges {
    pub entries: Option<EntriesChange>,
    pub current: Option<Current>,
    pub is_marking: Option<bool>,
    pub count: Option<u64>,
    pub read: Option<Reads>,

    /// Which words of marked objects it looked at.
    pub looked: Vec<WordRun>,
}

/// What is different after a line from before it. What is empty or `None` stayed.
#[derive(Drop)]
pub struct Record {
    pub objects: ObjectChanges,
    pub sets: SetChanges,
    pub words: WordChanges,
    pub cycle: CycleChanges,
}

/// What a checker has against a line of a run.
#[derive(Drop)]
pub struct Objection {
    /// The number of the line in its file, from 1.
    pub line: u64,

    /// What it says: sentences without a character that JSON would write otherwise.
    pub says: Vec<String>,

    /// The place that it speaks of, if it speaks of one.
    pub about: Option<u64>,
}
