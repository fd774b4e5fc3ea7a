//! All helpers of a pause: how they are made ready, and how they are joined.
ghost use Rattle.std.specs.Prelude.{◌≡◌, ℕ, ◌+◌, ◌<◌, ◌≤◌, ◌⊎◌, All, IfOk, length, vec_len, slice_index_or};
ghost use Rattle.words.specs.Bits.{Has};
ghost use Rattle.words.specs.declared.limits.TheConstants.{MAX_HELPERS, MOST_PAGES};
ghost use Rattle.mark_bits.specs.Tables.{view, IsOf};
ghost use Rattle.mark_bits.specs.Claims.{joined, HasAll, HasPart};
ghost use Rattle.final_pause.specs.declared.helper.Helper.{Helper as HelperValue};
ghost use Rattle.final_pause.specs.Serving.{IsHired, HasServed};
ghost use Rattle.final_pause.specs.Pauses.{pause_view};
ghost use Rattle.final_pause.specs.Gathering.{AreNumbered, HasGathered};

use crate::gate::FIRST_HELPER;
use crate::helper::Helper;
use crate::share::Pause;
use crate::waiting::Waiting;
use dirty_pages::DirtyPages;
use mark_bits::{Claimer, MarkTable};
use std::alloc::{AllocError, Global};
use words::limits::{MAX_HELPERS, MOST_PAGES};

// The helper of one place, which has read nothing yet.
fn new_helper(
    alloc: Global,
    table: &MarkTable,
    pages: u32,
    first: &mut Claimer,
    place: u8,
) -> Result<Helper, AllocError>
    requires of { IsOf table.now first.old }
    requires part { HasPart (view first.old) place }
    requires small { pages ≤ MOST_PAGES }
    requires few { place < MAX_HELPERS }
    ensures of { IsOf table.now first.new }
    ensures place { IfOk result (λ h. h.place ≡ place) }
    ensures part { IfOk result (λ h. HasPart (view first.new) (place + 1)) }
    ensures won { (view first.new).won ≡ (view first.old).won }
    ensures hired { IfOk result (λ h. IsHired table.now pages h) }
{
    let dirty = DirtyPages::new(alloc, pages)?;
    let carried = DirtyPages::new(alloc, pages)?;
    let claimer = table.split(first);
    Ok(Helper {
        claimer,
        waiting: Waiting::new(),
        dirty,
        carried,
        place: usize::from(place),
        left: u64::MAX,
        actor: FIRST_HELPER + place,
        call: 0,
    })
}

/// Makes so many helpers of a heap of so many pages: cuts off a claimer for each, and takes all their memory.
pub(crate) fn hire(
    alloc: Global,
    table: &MarkTable,
    pages: u32,
    first: &mut Claimer,
    helpers: u8,
) -> Result<Vec<Helper>, AllocError>
    requires of { IsOf table.now first.old }
    requires all { HasAll (view first.old) }
    requires small { pages ≤ MOST_PAGES }
    requires few { helpers ≤ MAX_HELPERS }
    ensures of { IfOk result (λ v. IsOf table.now first.new) }
    ensures won { (view first.new).won ≡ (view first.old).won }
    ensures size { IfOk result (λ v. vec_len v ≡ helpers) }
    ensures part { IfOk result (λ v. HasPart (view first.new) helpers) }
    ensures hired { IfOk result (λ v. All (λ h. IsHired table.now pages h) v.items) }
    ensures numbered { IfOk result (λ v. AreNumbered v.items) }
{
    let mut crew = Vec::with_capacity(alloc, helpers as usize)?;
    for place in 0..helpers {
        crew.push(new_helper(alloc, table, pages, first, place)?)?;
    }
    Ok(crew)
}

// Joins one helper.
fn take_in(
    table: &MarkTable,
    first: &mut Claimer,
    dirty: &mut DirtyPages,
    carried: &mut DirtyPages,
    helper: Helper,
)
    requires of { IsOf table.now first.old }
    requires helper { IsOf table.now helper.claimer }
    requires size { length helper.dirty ≡ length dirty.old }
    requires carried_size { length helper.carried ≡ length carried.old }
    ensures of { IsOf table.now first.new }
    ensures joined { view first.new ≡ joined (view first.old) (view helper.claimer) }
    ensures size { length dirty.new ≡ length dirty.old }
    ensures each { (q : ℕ) → Has dirty.new q → Has dirty.old q ⊎ Has helper.dirty q }
    ensures old { (q : ℕ) → Has dirty.old q → Has dirty.new q }
    ensures more { (q : ℕ) → Has helper.dirty q → Has dirty.new q }
    ensures carried_size { length carried.new ≡ length carried.old }
    ensures each_carried { (q : ℕ) → Has carried.new q → Has carried.old q ⊎ Has helper.carried q }
    ensures old_carried { (q : ℕ) → Has carried.old q → Has carried.new q }
    ensures more_carried { (q : ℕ) → Has helper.carried q → Has carried.new q }
{
    let Helper {
        claimer,
        waiting: _,
        dirty: more,
        carried: carried_more,
        place: _,
        left: _,
        actor: _,
        call: _,
    } = helper;
    table.join(first, claimer);
    dirty.add(&more);
    carried.add(&carried_more);
}

/// Joins all helpers.
pub(crate) fn gather(
    pause: &Pause,
    first: &mut Claimer,
    dirty: &mut DirtyPages,
    carried: &mut DirtyPages,
    mut crew: Vec<Helper>,
)
    requires all { vec_len crew ≡ pause.now.helpers }
    requires first { HasGathered (pause_view pause.now) (vec_len crew) first.old dirty.old carried.old }
    requires done { (i : ℕ) (d : HelperValue) → i < vec_len crew → HasServed (pause_view pause.now) i (slice_index_or crew.items i d) }
    ensures { HasGathered (pause_view pause.now) 0 first.new dirty.new carried.new }
{
    while let Some(helper) = crew.pop() {
        take_in(pause.table, first, dirty, carried, helper);
    }
}
