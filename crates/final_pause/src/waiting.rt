//! The objects that a helper won and still has to read.
//!
//! They wait on a stack. The next ones are taken off it some at a time, and of each a word is looked at before the first of
//! them is read: so the processor fetches all of them at once, where it would wait for one after the other. Nothing else may stand between
//! these looks: no claim, since an atomic step waits for each of them, and little that the processor has to keep in mind.
ghost use Rattle.std.specs.Prelude.{◌≡◌, [], true, false, Contains, MatchOption};
ghost use Rattle.pages.specs.Memory.{IsWordAddress};
ghost use Rattle.final_pause.specs.declared.waiting.Unread.{Unread};
ghost use Rattle.final_pause.specs.Waiting.{IsPut, IsTaken, IsMoved};

use arrayvec::ArrayVec;
use pages::Memory;
use std::marker::Model;
use words::limits::MARK_STACK_ENTRIES;

// The entries of a helper's stack.
const ENTRIES: usize = MARK_STACK_ENTRIES as usize;

// So many are looked at together.
const AHEAD: usize = 16;

/// An object that waits to be read: its base, and how many words it has.
#[derive(Clone, Copy, Debug, Default)]
pub struct Unread {
    pub base: u64,
    pub len: u32,
}

/// Objects that wait to be read. Contracts see them as one list, whose order says nothing.
#[derive(Drop)]
pub(crate) struct Waiting {
    stack: ArrayVec<Unread, ENTRIES>,
    ahead: ArrayVec<Unread, AHEAD>,
    seen: u64,
}

impl Model for Waiting {
    ghost use Rattle.std.specs.Prelude.{List, ◌++◌};
    ghost use Rattle.final_pause.specs.declared.waiting.Unread.{Unread};

    ghost Value = { List Unread };

    ghost view = { λ w. w.ahead.items ++ w.stack.items };
}

impl Waiting {
    /// None waits.
    pub(crate) fn new() -> Waiting
        ensures { result ≡ [] }
    {
        Waiting {
            stack: ArrayVec::new(),
            ahead: ArrayVec::new(),
            seen: 0,
        }
    }

    /// Whether so many wait that there may soon be no room: half of the stack is taken.
    pub(crate) fn is_crowded(&self) -> bool {
        self.stack.len() >= ENTRIES / 2
    }

    /// Lets another one wait, and answers whether it has room.
    pub(crate) fn put(&mut self, unread: Unread) -> bool
        ensures full { result ≡ false → self.new ≡ self.old }
        ensures put { result ≡ true → IsPut self.old unread self.new }
    {
        if self.stack.is_full() {
            return false;
        }
        self.stack.push(unread);
        true
    }

    // Looks at the first words of the next ones. What was seen is kept, so that no compiler leaves the looks out.
    fn look(&mut self, memory: &Memory)
        requires { (o : Unread) → Contains self.old o → IsWordAddress memory.now o.base }
        ensures { self.new ≡ self.old }
    {
        let waiting = self.stack.as_slice();
        let first = waiting.len().saturating_sub(AHEAD);
        let mut seen = 0;
        for i in first..waiting.len() {
            seen ^= memory.read(waiting[i].base);
        }
        self.seen ^= seen;
    }

    // Takes one off the stack, to be read soon.
    #[inline]
    fn move_one(&mut self)
        ensures { IsMoved self.old self.new }
    {
        if self.ahead.is_full() {
            return;
        }
        if let Some(unread) = self.stack.pop() {
            self.ahead.push(unread);
        }
    }

    // Takes some off the stack, to be read soon, and looks at their first words.
    fn look_ahead(&mut self, memory: &Memory)
        requires { (o : Unread) → Contains self.old o → IsWordAddress memory.now o.base }
        ensures { IsMoved self.old self.new }
    {
        self.look(memory);
        let count = self.stack.len().min(AHEAD);
        for _ in 0..count {
            self.move_one();
        }
    }

    /// Takes the next one, and `None` where none waits.
    pub(crate) fn take(&mut self, memory: &Memory) -> Option<Unread>
        requires { (o : Unread) → Contains self.old o → IsWordAddress memory.now o.base }
        ensures { MatchOption result ((self.old ≡ []) × (self.new ≡ [])) (λ o. IsTaken self.old o self.new) }
    {
        if let Some(unread) = self.ahead.pop() {
            return Some(unread);
        }
        let unread = self.stack.pop()?;
        self.look_ahead(memory);
        Some(unread)
    }
}
