//! One helper of a pause: what it holds, and what it does with an object.
ghost use Rattle.std.specs.Prelude.{◌≡◌, ◌<◌, ◌≤◌, true, false, ◌∷◌, length, slice_set, if◌then◌else◌};
ghost use Rattle.words.specs.declared.limits.TheConstants.{MOST_PAGES};
ghost use Rattle.mark_bits.specs.Tables.{view, granules_of, IsOf};
ghost use Rattle.mark_bits.specs.Claims.{knows, LearnsMore};
ghost use Rattle.block_map.specs.Objects.{IsPlaced};
ghost use Rattle.final_pause.specs.Helping.{place_of, QueuesObject};

use crate::gate::Gate;
use crate::waiting::{Unread, Waiting};
use block_map::Found;
use dirty_pages::DirtyPages;
use mark_bits::{Claimer, MarkTable};
use marker::dirty_object;
use words::{Kind, PageNo};

/// What one helper marks with: its claimer, the objects that it won and still has to read, the pages of those that
/// found no room, the pages that it carries, its place, how many words of objects that it won it may still read, its number for the
/// gate, and how many claims it has made.
#[derive(Drop)]
pub struct Helper {
    pub(crate) claimer: Claimer,
    pub(crate) waiting: Waiting,
    pub(crate) dirty: DirtyPages,
    pub(crate) carried: DirtyPages,
    pub(crate) place: usize,
    pub(crate) left: u64,
    pub(crate) actor: u8,
    pub(crate) call: u32,
}

impl Helper {
    /// Its place among the helpers of its round.
    pub fn place(&self) -> usize
        ensures { result ≡ place_of self.now }
    {
        self.place
    }
}

// A claim between two calls of the gate.
pub(crate) fn claim<G: Gate>(
    table: &MarkTable,
    gate: &G,
    helper: &mut Helper,
    granule: usize,
) -> bool
    requires of { IsOf table.now helper.old.claimer }
    requires inside { granule < granules_of table.now }
    ensures of { IsOf table.now helper.new.claimer }
    ensures waiting { helper.new.waiting ≡ helper.old.waiting }
    ensures dirty { helper.new.dirty ≡ helper.old.dirty }
    ensures carried { helper.new.carried ≡ helper.old.carried }
    ensures place { helper.new.place ≡ helper.old.place }
    ensures learns { LearnsMore (view helper.old.claimer) (view helper.new.claimer) }
    ensures known { knows (view helper.new.claimer) granule ≡ true }
    ensures won { (view helper.new.claimer).won ≡ (if result then granule ∷ (view helper.old.claimer).won else (view helper.old.claimer).won) }
    ensures unknown { result ≡ true → knows (view helper.old.claimer) granule ≡ false }
{
    gate.before(helper.actor, helper.call);
    let won = table.claim(&mut helper.claimer, granule);
    gate.after(helper.actor, helper.call);
    helper.call = helper.call.wrapping_add(1);
    won
}

// Sees to it that the words of an object that the helper won are read: it waits, or where it isn't to or there is no room, the
// pages that it covers become dirty.
pub(crate) fn queue(helper: &mut Helper, found: Found, may_wait: bool)
    requires placed { IsPlaced (length helper.old.dirty) found }
    requires small { length helper.old.dirty ≤ MOST_PAGES }
    ensures { QueuesObject found helper.old helper.new }
{
    if found.kind == Kind::PointerFree {
        return;
    }
    let unread = Unread {
        base: found.base,
        len: found.len,
    };
    if may_wait && helper.waiting.put(unread) {
        return;
    }
    put_off(helper, found);
}

// Leaves the words of an object that the helper won to the pages that it covers, which become dirty.
pub(crate) fn put_off(helper: &mut Helper, found: Found)
    requires placed { IsPlaced (length helper.old.dirty) found }
    requires small { length helper.old.dirty ≤ MOST_PAGES }
    ensures queued { QueuesObject found helper.old helper.new }
    ensures waiting { helper.new.waiting ≡ helper.old.waiting }
{
    dirty_object(&mut helper.dirty, found);
}

// Makes the page carried.
#[cold]
pub(crate) fn carry(helper: &mut Helper, page: PageNo)
    requires { page < length helper.old.carried }
    ensures claimer { helper.new.claimer ≡ helper.old.claimer }
    ensures waiting { helper.new.waiting ≡ helper.old.waiting }
    ensures dirty { helper.new.dirty ≡ helper.old.dirty }
    ensures carried { helper.new.carried ≡ slice_set helper.old.carried page true }
    ensures place { helper.new.place ≡ helper.old.place }
{
    helper.carried.set(page);
}
