//! What is wrong where the objects with some bases are said to be gone: the lowest base at which something is.
ghost use Rattle.std.specs.Prelude.{◌≡◌, ◌<◌, ◌≤◌, [], length, take};
ghost use Rattle.plain_heap.specs.Claims.{AreUnset};
ghost use Rattle.plain_heap.specs.Wrongs.{base_of, IsLowerThan, IsLowerOf, TellsLowest, IsBelow, IsNamedAt, IsLeftAt};

use crate::directory::Directory;

/// What is wrong about one object where some are said to be gone, by its base.
#[derive(Clone, Copy, Debug, PartialEq, Eq)]
pub enum Wrong {
    /// It is named, and isn't there.
    IsMissing(u64),

    /// It is named twice.
    StandsTwice(u64),

    /// It is named, and has to stay.
    HasToStay(u64),

    /// It isn't named, and has to go.
    HasToGo(u64),
}

impl Wrong {
    /// The base of the object.
    pub fn base(&self) -> u64
        ensures { result ≡ base_of self.now }
    {
        match *self {
            Wrong::IsMissing(base) => base,
            Wrong::StandsTwice(base) => base,
            Wrong::HasToStay(base) => base,
            Wrong::HasToGo(base) => base,
        }
    }
}

// The one with the lower base.
fn lower_than(first: Wrong, other: Option<Wrong>) -> Wrong
    ensures { IsLowerThan first other result }
{
    let Some(second) = other else {
        return first;
    };
    if second.base() < first.base() {
        return second;
    }
    first
}

// The one with the lower base, if there is one.
pub(crate) fn lower(one: Option<Wrong>, other: Option<Wrong>) -> Option<Wrong>
    ensures { IsLowerOf one other result }
{
    let Some(first) = one else {
        return other;
    };
    Some(lower_than(first, other))
}

impl Directory {
    // What is wrong about the base of one index in a list. The flags of those before it are unset.
    fn named_at(&self, bases: &[u64], index: usize, marks: &[bool], stays: &[bool]) -> Option<Wrong>
        requires within { index < length bases.now }
        requires marks { length self.now.objects.items ≤ length marks.now }
        requires flags { AreUnset self.now.objects.items (take index bases.now) stays.now }
        ensures { TellsLowest (IsNamedAt self.now.objects.items marks.now bases.now index) result }
    {
        let base = bases[index];
        let Some(position) = self.index_of(base) else {
            return Some(Wrong::IsMissing(base));
        };
        if !stays[position] {
            return Some(Wrong::StandsTwice(base));
        }
        if marks[position] {
            return Some(Wrong::HasToStay(base));
        }
        None
    }

    // The lowest of what is wrong about the bases of a list, where marked objects have to stay. The flags of those that it names
    // are unset.
    pub(crate) fn lowest_named(
        &self,
        bases: &[u64],
        marks: &[bool],
        stays: &mut Vec<bool>,
    ) -> Option<Wrong>
        requires marks { length self.now.objects.items ≤ length marks.now }
        requires flags { AreUnset self.now.objects.items [] stays.old.items }
        ensures wrong { TellsLowest (IsBelow (IsNamedAt self.now.objects.items marks.now bases.now) (length bases.now)) result }
        ensures unset { AreUnset self.now.objects.items bases.now stays.new.items }
        ensures size { length stays.new.items ≡ length stays.old.items }
    {
        let mut lowest = None;
        for index in 0..bases.len() {
            lowest = lower(lowest, self.named_at(bases, index, marks, stays));
            self.unset_one(bases[index], stays);
        }
        lowest
    }

    // What is wrong about the object of one index, where its flag is set and only marked objects may be left.
    fn left_at(&self, index: usize, marks: &[bool], stays: &[bool]) -> Option<Wrong>
        requires within { index < length self.now.objects.items }
        requires marks { length self.now.objects.items ≤ length marks.now }
        requires stays { length self.now.objects.items ≤ length stays.now }
        ensures { TellsLowest (IsLeftAt self.now.objects.items marks.now stays.now index) result }
    {
        if marks[index] {
            return None;
        }
        if !stays[index] {
            return None;
        }
        Some(Wrong::HasToGo(self.object(index).base))
    }

    // The lowest object whose flag is set and that isn't marked.
    pub(crate) fn lowest_left(&self, marks: &[bool], stays: &[bool]) -> Option<Wrong>
        requires marks { length self.now.objects.items ≤ length marks.now }
        requires stays { length self.now.objects.items ≤ length stays.now }
        ensures { TellsLowest (IsBelow (IsLeftAt self.now.objects.items marks.now stays.now) (length self.now.objects.items)) result }
    {
        let mut lowest = None;
        for index in 0..self.len() {
            lowest = lower(lowest, self.left_at(index, marks, stays));
        }
        lowest
    }
}
