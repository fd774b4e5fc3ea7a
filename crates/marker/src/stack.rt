//! The mark stack. It is no `ArrayVec`, since that writes a blank over each entry that it gives back.
ghost use Rattle.std.specs.Prelude.{◌≡◌, ◌==◌, ◌↔◌, ◌+◌, ◌<◌, ◌≤◌, ◌++◌, ◌∷◌, [], List, length, option_to_list, true, false, IsSome};
ghost use Rattle.words.specs.declared.limits.TheConstants.{MARK_STACK_ENTRIES};
ghost use Rattle.marker.specs.declared.entry.Entry.{Entry};
ghost use Rattle.marker.specs.Entries.{AreSwapped};

use crate::entry::Entry;
use std::marker::Model;
use words::limits::MARK_STACK_ENTRIES;

// The entries that the stack has room for.
pub(crate) const ENTRIES: usize = MARK_STACK_ENTRIES as usize;

/// Entries that wait, the next one last.
#[derive(Drop)]
pub(crate) struct MarkStack {
    entries: [Entry; ENTRIES],
    len: usize,
}

impl Model for MarkStack {
    ghost use Rattle.std.specs.Prelude.{◌≡◌, ◌≤◌, List, length, take};
    ghost use Rattle.words.specs.declared.limits.TheConstants.{MARK_STACK_ENTRIES};
    ghost use Rattle.marker.specs.declared.entry.Entry.{Entry};

    ghost Value = { List Entry };

    ghost view = { λ s. take s.len s.entries };

    ghost invariant = { λ s. (s.len ≤ MARK_STACK_ENTRIES) × (length s.entries ≡ MARK_STACK_ENTRIES) };
}

#[tactic(auto, using(crate::proofs::Stacks::stacks))]
impl MarkStack {
    /// A stack with no entry.
    pub(crate) fn new() -> MarkStack
        ensures { result ≡ [] }
    {
        MarkStack {
            entries: [Entry::default(); ENTRIES],
            len: 0,
        }
    }

    /// How many entries it has.
    #[inline]
    pub(crate) fn len(&self) -> usize
        ensures count { result ≡ length self.now }
        ensures few { result ≤ MARK_STACK_ENTRIES }
    {
        self.len
    }

    /// Whether there is room for no other.
    #[inline]
    pub(crate) fn is_full(&self) -> bool
        ensures value { result ≡ (length self.now == MARK_STACK_ENTRIES) }
        ensures fits { length self.now ≤ MARK_STACK_ENTRIES }
    {
        self.len == ENTRIES
    }

    /// The entries.
    #[inline]
    pub(crate) fn as_slice(&self) -> &[Entry]
        ensures { result.now ≡ self.now }
    {
        &self.entries[..self.len]
    }

    /// Puts an entry on top.
    #[inline]
    pub(crate) fn push(&mut self, entry: Entry)
        requires { length self.old < MARK_STACK_ENTRIES }
        ensures items { self.new ≡ self.old ++ entry ∷ [] }
    {
        self.entries[self.len] = entry;
        self.len += 1;
    }

    /// Takes the entry on top off, if there is one.
    #[inline]
    pub(crate) fn pop(&mut self) -> Option<Entry>
        ensures items { self.old ≡ self.new ++ option_to_list result }
        ensures variant { IsSome result ↔ (0 < length self.old) }
    {
        if self.len == 0 {
            return None;
        }
        self.len -= 1;
        let Entry { base, next, len } = self.entries[self.len];
        Some(Entry { base, next, len })
    }

    /// Takes all entries off.
    pub(crate) fn clear(&mut self)
        ensures { self.new ≡ [] }
    {
        self.len = 0;
    }

    /// Has the two entries on top change places.
    #[inline]
    pub(crate) fn swap_two(&mut self)
        requires { 2 ≤ length self.old }
        ensures { AreSwapped self.old self.new }
    {
        let below = self.len - 2;
        let (second, top) = (self.entries[below], self.entries[below + 1]);
        self.entries[below].base = top.base;
        self.entries[below].next = top.next;
        self.entries[below].len = top.len;
        self.entries[below + 1].base = second.base;
        self.entries[below + 1].next = second.next;
        self.entries[below + 1].len = second.len;
    }
}
