//! What is written down of a history while it grows: each event, as it joins the history, with what its reply leaves open.
ghost use Rattle.std.specs.Prelude.{◌++◌, ◌∷◌, [], ◌≡◌, true, IfOk, map};
ghost use Rattle.history.specs.Histories.{event};
ghost use Rattle.shared.specs.Journals.{made_of, is_kept, IsOf, TakesDown};

use crate::noting::note_of;
use heap_core::Core;
use heap_spec::{Event, Reply};
use std::alloc::{AllocError, Global};
use std::marker::Model;
use std::mem::replace;

/// What the reply to an event leaves open.
#[derive(Drop)]
pub enum Note {
    /// Nothing.
    Nothing,

    /// Where the object of a granted request is.
    Place(u64),

    /// The bases of the objects that a collection forgot.
    Gone(Vec<u64>),
}

/// An event of the history.
#[derive(Drop)]
pub struct Entry {
    /// The slot that made it.
    pub who: u8,
    /// What was asked.
    pub call: Event,
    /// What was answered.
    pub reply: Reply,
    /// What the answer leaves open, as the heap was asked. No contract speaks of it: a checker can say whether it is right.
    pub note: Note,
}

/// The entries of a journal. Contracts see them as a list, oldest first.
#[derive(Drop)]
pub struct Entries {
    alloc: Global,
    bases: Vec<u64>,
    list: Vec<Entry>,
}

impl Model for Entries {
    ghost use Rattle.std.specs.Prelude.{List};
    ghost use Rattle.shared.specs.declared.journal.Entry.{Entry};

    ghost Value = { List Entry };

    ghost view = { λ e. e.list.items };
}

/// What is written down of a history.
#[derive(Drop)]
pub enum Journal {
    /// Nothing: no journal is kept.
    Off,

    /// Its events, each once, in their order.
    On(Entries),

    /// Nothing any more, since memory was refused for an entry.
    Lost,
}

impl Entries {
    // Those of a history with no events.
    fn new(alloc: Global) -> Entries
        ensures { result ≡ [] }
    {
        Entries {
            alloc,
            bases: Vec::new(alloc),
            list: Vec::new(alloc),
        }
    }

    /// The entries, oldest first.
    pub fn as_slice(&self) -> &[Entry]
        ensures { result.now ≡ self.now }
    {
        self.list.as_slice()
    }

    // These, and one more.
    fn with(self, core: &Core, who: u8, call: &Event, reply: &Reply) -> Result<Entries, AllocError>
        ensures { IfOk result (λ more. map made_of more ≡ map made_of self ++ event who call.now reply.now ∷ []) }
    {
        let Entries {
            alloc,
            mut bases,
            mut list,
        } = self;
        let note = note_of(alloc, core, &mut bases, call, reply)?;
        let entry = Entry {
            who,
            call: *call,
            reply: *reply,
            note,
        };
        list.push(entry)?;
        Ok(Entries { alloc, bases, list })
    }
}

impl Journal {
    /// A journal of a history with no events, which is kept from then on.
    pub fn new(alloc: Global) -> Journal
        ensures events { IsOf result [] }
        ensures kept { is_kept result ≡ true }
    {
        Journal::On(Entries::new(alloc))
    }

    // Whether it is kept.
    #[inline(always)]
    fn is_on(&self) -> bool
        ensures { result ≡ is_kept self.now }
    {
        match self {
            Journal::On(_) => true,
            Journal::Off | Journal::Lost => false,
        }
    }
}

// Takes an event down in a journal that is kept. It has the event and the reply as values of its own, so that those of a call need
// no place in memory where no journal is kept.
#[inline(never)]
fn take_down(journal: &mut Journal, core: &Core, who: u8, call: Event, reply: Reply)
    ensures { TakesDown journal.old (event who call reply) journal.new }
{
    let Journal::On(entries) = replace(journal, Journal::Lost) else {
        return;
    };
    let Ok(more) = entries.with(core, who, &call, &reply) else {
        return;
    };
    *journal = Journal::On(more);
}

/// Takes an event down that joins the history, if the journal is kept. The core is as the event left it.
#[inline(always)]
pub(crate) fn write_down(journal: &mut Journal, core: &Core, who: u8, call: &Event, reply: &Reply)
    ensures { TakesDown journal.old (event who call.now reply.now) journal.new }
{
    if journal.is_on() {
        take_down(journal, core, who, *call, *reply);
    }
}
