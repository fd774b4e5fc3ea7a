//! What calls cost. It prints a line of figures for each to standard error: its name, picoseconds a call, a word or an
//! object, and what the calls answered. `bench/run` prints them beside plain Rust.
#![tactic(auto)]

mod calls;
mod collections;
mod cycles;
mod figures;
mod heap;
mod locked;
mod maps;
mod marking;
mod marks;
mod on_threads;
mod pause;
mod script;
mod user;

use std::io;

fn main(rt: HostRuntime) -> io::Result<()> {
    maps::measure(&rt, rt.alloc())?;
    marks::measure(&rt, rt.alloc())?;
    calls::measure(&rt, rt.alloc())?;
    collections::measure(&rt, rt.alloc())?;
    cycles::measure(&rt, rt.alloc())?;
    marking::measure(&rt, rt.alloc())?;
    pause::measure(&rt, rt.alloc())?;
    locked::measure(&rt, rt.alloc())?;
    script::measure(&rt, rt.alloc())?;
    on_threads::measure(&rt, rt.alloc())
}
