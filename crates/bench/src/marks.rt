//! A claim and a look on a table of marks: each thread claims, then looks at, each bit of one table.
ghost use Rattle.std.specs.Prelude.{All, IfOk};
ghost use Rattle.mark_bits.specs.Tables.{IsOf};

use crate::figures::{report, since};
use mark_bits::{Claimer, MarkTable, Marks};
use std::alloc::{AllocError, Global};
use std::marker::Sync;
use std::rt::Clock;
use std::thread::Threads;
use std::time::Instant;
use std::{io, thread};
use words::limits::{MAX_HELPERS, MAX_PAGES, PAGE_GRANULES};

const ROUNDS: u8 = 10;

const BITS: u64 = PAGE_GRANULES * MAX_PAGES as u64;

fn claim_each(table: &MarkTable, granules: usize, me: &mut Claimer)
    requires ready { IsOf table.now me.old }
    ensures { IsOf table.now me.new }
{
    for bit in 0..granules {
        let _won = table.claim(me, bit);
    }
}

fn look_each(table: &MarkTable, granules: usize, me: &mut Claimer)
    requires ready { IsOf table.now me.old }
    ensures { IsOf table.now me.new }
{
    for bit in 0..granules {
        let _set = table.is_set(me, bit);
    }
}

// Each bit is claimed, or looked at.
fn go_over(table: &MarkTable, granules: usize, me: &mut Claimer, is_claim: bool)
    requires ready { IsOf table.now me.old }
    ensures { IsOf table.now me.new }
{
    if is_claim {
        claim_each(table, granules, me);
    } else {
        look_each(table, granules, me);
    }
}

fn go_side_by_side<R: Threads + Sync>(
    rt: &R,
    table: &MarkTable,
    granules: usize,
    crew: &mut [Claimer],
    is_claim: bool,
)
    requires crew { All (λ c. IsOf table.now c) crew.old }
    ensures { All (λ c. IsOf table.now c) crew.new }
{
    let work = |_: usize, me: &mut Claimer|
        requires { IsOf table.now me.now }
        ensures { IsOf table.entry.now me.exit.now }
    {
        go_over(table, granules, me, is_claim);
    };
    thread::for_each_mut(rt, crew, MAX_HELPERS as usize, &work);
}

fn hire(
    alloc: Global,
    table: &MarkTable,
    first: &mut Claimer,
    helpers: u8,
) -> Result<Vec<Claimer>, AllocError>
    requires of { IsOf table.now first.old }
    ensures { IfOk result (λ v. All (λ c. IsOf table.now c) v.items) }
{
    let mut crew = Vec::new(alloc);
    for _ in 0..helpers {
        crew.push(table.split(first))?;
    }
    Ok(crew)
}

// Nanoseconds of a claim of all bits by each of a crew, or of a look at all bits.
fn time_side_by_side<R: Threads + Sync + Clock>(
    rt: &R,
    table: &MarkTable,
    granules: usize,
    crew: &mut [Claimer],
    is_claim: bool,
) -> io::Result<u128>
    requires crew { All (λ c. IsOf table.now c) crew.old }
    ensures { All (λ c. IsOf table.now c) crew.new }
{
    let start = Instant::now(rt)?;
    go_side_by_side(rt, table, granules, crew, is_claim);
    since(rt, start)
}

// Of a claim, and of a look after it.
fn time_crew<R: Threads + Sync + Clock>(
    rt: &R,
    table: &MarkTable,
    granules: usize,
    crew: &mut [Claimer],
) -> io::Result<(u128, u128)>
    requires crew { All (λ c. IsOf table.now c) crew.old }
{
    let claims = time_side_by_side(rt, table, granules, crew, true)?;
    let looks = time_side_by_side(rt, table, granules, crew, false)?;
    Ok((claims, looks))
}

// The same of so many helpers on a table of their own.
fn cost<R: Threads + Sync + Clock>(rt: &R, alloc: Global, helpers: u8) -> io::Result<(u128, u128)> {
    let marks = Marks::new(alloc, MAX_PAGES)?;
    let Ok((table, mut first)) = MarkTable::new(alloc, &marks) else {
        return Err(AllocError.into());
    };
    let mut crew = hire(alloc, &table, &mut first, helpers)?;
    time_crew(rt, &table, marks.granules(), crew.as_mut_slice())
}

// The least of some rounds.
fn least_cost<R: Threads + Sync + Clock>(
    rt: &R,
    alloc: Global,
    helpers: u8,
) -> io::Result<(u128, u128)> {
    let mut least = (u128::MAX, u128::MAX);
    for _ in 0..ROUNDS {
        let (claims, looks) = cost(rt, alloc, helpers)?;
        least = (least.0.min(claims), least.1.min(looks));
    }
    Ok(least)
}

/// Claims and looks by one, two and four threads.
pub(crate) fn measure<R: Threads + Sync + Eprint + Clock>(rt: &R, alloc: Global) -> io::Result<()> {
    for (helpers, claim, look) in [
        (1u8, "claim_by_1", "is_set_by_1"),
        (2, "claim_by_2", "is_set_by_2"),
        (4, "claim_by_4", "is_set_by_4"),
    ] {
        let least = least_cost(rt, alloc, helpers)?;
        report(rt, claim, least.0, BITS, u64::from(helpers))?;
        report(rt, look, least.1, BITS, u64::from(helpers))?;
    }
    Ok(())
}
