//! Threads that claim all marks of a table side by side.
ghost use Rattle.std.specs.Prelude.{◌≡◌, ℕ, ◌*◌, ◌<◌, ◌≤◌, true, length, OnOk, OnErr, IfOk, vec_len};
ghost use Rattle.words.specs.Bits.{IsFullRow};
ghost use Rattle.words.specs.declared.limits.TheConstants.{MAX_HELPERS, PAGE_GRANULES};
ghost use Rattle.mark_bits.specs.Claims.{joined, knows, HasAll, HasPart, LearnsMore};
ghost use Rattle.mark_bits.specs.Tables.{view, granules_of, IsOf};
ghost use Rattle.test_marking.specs.declared.claims.TheConstants.{PAGES};
ghost use Rattle.test_marking.specs.Crew.{Each, IsReady, IsDoneClaiming};

use mark_bits::{Claimer, MarkTable, Marks};
use std::alloc::{AllocError, Global};
use std::marker::Sync;
use std::process::Abort;
use std::test::Fail;
use std::thread;
use std::thread::Threads;
use words::limits::MAX_HELPERS;
use words::{OpenError, PageNo};

// The pages of each heap here.
const PAGES: PageNo = 4;

// What one thread claims with, and how many of its claims were the first.
#[derive(Drop)]
struct Helper {
    claimer: Claimer,
    wins: usize,
}

// The helper claims each bit.
fn claim_each(table: &MarkTable, granules: usize, helper: &mut Helper)
    requires granules { granules ≡ granules_of table.now }
    requires of { IsOf table.now helper.old.claimer }
    ensures of { IsOf table.now helper.new.claimer }
    ensures learns { LearnsMore (view helper.old.claimer) (view helper.new.claimer) }
    ensures all { (k : ℕ) → k < granules → knows (view helper.new.claimer) k ≡ true }
{
    for bit in 0..granules {
        if table.claim(&mut helper.claimer, bit) {
            helper.wins = helper.wins.saturating_add(1);
        }
    }
}

// All helpers claim each bit, each in a thread of its own.
fn claim_side_by_side<R: Threads + Sync>(
    rt: &R,
    table: &MarkTable,
    granules: usize,
    crew: &mut [Helper],
)
    requires granules { granules ≡ granules_of table.now }
    requires crew { Each (λ place h. IsReady table.now place h.claimer) crew.old }
    ensures done { Each (λ place h. IsDoneClaiming table.now granules place h.claimer) crew.new }
    ensures len { length crew.new ≡ length crew.old }
{
    let work = |place: usize, helper: &mut Helper|
        requires { (granules ≡ granules_of table.now) × IsReady table.now place helper.now.claimer }
        ensures { IsDoneClaiming table.entry.now granules place helper.exit.now.claimer }
    {
        claim_each(table, granules, helper);
    };
    thread::for_each_mut(rt, crew, MAX_HELPERS as usize, &work);
}

// Cuts off a claimer for each helper.
fn hire(
    alloc: Global,
    table: &MarkTable,
    first: &mut Claimer,
    helpers: u8,
) -> Result<Vec<Helper>, AllocError>
    requires of { IsOf table.now first.old }
    requires all { HasAll (view first.old) }
    ensures of { IsOf table.now first.new }
    ensures crew { IfOk result (λ v. Each (λ place h. IsReady table.now place h.claimer) v.items × HasPart (view first.new) (vec_len v) × (vec_len v ≡ helpers)) }
{
    let mut crew = Vec::new(alloc);
    for _ in 0..helpers {
        let claimer = table.split(first);
        crew.push(Helper { claimer, wins: 0 })?;
    }
    Ok(crew)
}

// Joins one helper, and answers how many of its claims were the first.
fn take_in(table: &MarkTable, first: &mut Claimer, helper: Helper) -> usize
    requires of { IsOf table.now first.old }
    requires helper { IsOf table.now helper.claimer }
    requires all { (k : ℕ) → k < granules_of table.now → knows (view helper.claimer) k ≡ true }
    ensures of { IsOf table.now first.new }
    ensures joined { view first.new ≡ joined (view first.old) (view helper.claimer) }
    ensures known { (k : ℕ) → k < granules_of table.now → knows (view first.new) k ≡ true }
{
    let Helper { claimer, wins } = helper;
    table.join(first, claimer);
    wins
}

// Joins all helpers, and answers how many claims were the first.
fn gather(table: &MarkTable, first: &mut Claimer, mut crew: Vec<Helper>) -> usize
    requires of { IsOf table.now first.old }
    requires part { HasPart (view first.old) (vec_len crew) }
    requires crew { Each (λ place h. IsDoneClaiming table.now (granules_of table.now) place h.claimer) crew.items }
    ensures of { IsOf table.now first.new }
    ensures all { HasAll (view first.new) }
    ensures known { 0 < vec_len crew → (k : ℕ) → k < granules_of table.now → knows (view first.new) k ≡ true }
{
    let mut wins = 0usize;
    while let Some(helper) = crew.pop() {
        wins = wins.saturating_add(take_in(table, first, helper));
    }
    wins
}

// Marks all granules, by as many threads as there are helpers, and answers how many claims were the first.
fn claim_all<R: Threads + Sync>(
    rt: &R,
    alloc: Global,
    marks: &mut Marks,
    helpers: u8,
) -> Result<usize, OpenError>
    requires size { length marks.old ≡ PAGE_GRANULES * PAGES }
    requires helpers { (0 < helpers) × (helpers ≤ MAX_HELPERS) }
    ensures ok { OnOk result (IsFullRow marks.new) }
    ensures err { OnErr result (marks.new ≡ marks.old) }
{
    let (table, mut first) = MarkTable::new(alloc, marks)?;
    let Ok(mut crew) = hire(alloc, &table, &mut first, helpers) else {
        return Err(OpenError::Memory);
    };
    claim_side_by_side(rt, &table, marks.granules(), crew.as_mut_slice());
    let wins = gather(&table, &mut first, crew);
    table.finish(first, marks);
    Ok(wins)
}

// So many claims are the first, where so many helpers claim each bit of a table that begins with these marks.
fn wins<R: Threads + Sync + Abort>(
    rt: &R,
    alloc: Global,
    marks: &mut Marks,
    helpers: u8,
    wanted: usize,
)
    requires size { length marks.old ≡ PAGE_GRANULES * PAGES }
    requires helpers { (0 < helpers) × (helpers ≤ MAX_HELPERS) }
{
    let wins = claim_all(rt, alloc, marks, helpers);
    assert_eq!(rt; wins, Ok(wanted));
}

#[test]
fn four_threads_win_each_of_1_024_bits_once(rt: HostRuntime) -> Result<(), Fail> {
    let mut marks = Marks::new(rt.alloc(), PAGES)?;
    wins(&rt, rt.alloc(), &mut marks, 4, 1_024);
    Ok(())
}

#[test]
fn nobody_wins_a_bit_that_was_set_at_the_start(rt: HostRuntime) -> Result<(), Fail> {
    let mut marks = Marks::new(rt.alloc(), PAGES)?;
    marks.set(100);
    marks.set(1_023);
    wins(&rt, rt.alloc(), &mut marks, 3, 1_022);
    Ok(())
}
