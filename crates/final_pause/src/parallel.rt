//! Closing the marks with helpers.
ghost use Rattle.std.specs.Prelude.{◌≡◌, ◌*◌, All, IfOk, true, false, length};
ghost use Rattle.words.specs.declared.limits.TheConstants.{PAGE_WORDS};
ghost use Rattle.block_map.specs.FoundIn.{found_in};
ghost use Rattle.marker.specs.Marking.{AreMarksObjects, IsDone};
ghost use Rattle.marker.specs.Invariant.{DirtyPageInvariant, AreRootsMarked};
ghost use Rattle.marker.specs.Closure.{AreClosed};
ghost use Rattle.marker.specs.Growth.{Traces};
ghost use Rattle.each_law.specs.Jobs.{HaveRun};
ghost use Rattle.final_pause.specs.Pauses.{pause_view};
ghost use Rattle.final_pause.specs.Serving.{IsServing, HasServed};

use crate::alone::close_marks;
use crate::before::mark_before_helpers;
use crate::gate::Gate;
use crate::graph::Graph;
use crate::helper::Helper;
use crate::helpers::Helpers;
use crate::round::Round;
use crate::share::Pause;
use each_law::{Law, run_each};
use marker::Marker;
use pages::{Reader, Uncounted};
use std::alloc::{AllocError, Global};
use std::marker::Sync;
use std::sync::Wait;
use std::thread::Threads;

impl<'a> Law<Helper> for Pause<'a> {
    ghost use Rattle.final_pause.specs.Pauses.{pause_view};
    ghost use Rattle.final_pause.specs.Serving.{HasServed};

    ghost does = { λ p old new. HasServed (pause_view p) old.place new };
}

// All helpers do their shares, the last on the calling thread and each other in a thread of its own. The error is that memory or a
// thread could not be had.
fn help_each<R: Threads + Wait + Sync, G: Gate>(
    rt: &R,
    alloc: Global,
    pause: &Pause,
    gate: &G,
    crew: Vec<Helper>,
) -> Result<Vec<Helper>, AllocError>
    requires { All (λ h. IsServing (pause_view pause.now) h) crew.items }
    ensures { IfOk result (λ v. HaveRun (λ old new. HasServed (pause_view pause.now) old.place new) crew.items v.items) }
{
    let work = |helper|
        requires { IsServing (pause_view pause.now) helper }
        ensures { HasServed (pause_view pause.entry.now) helper.place result }
    {
        let mut helper = helper;
        pause.help(gate, &mut helper);
        helper
    };
    run_each(rt, alloc, pause, &work, crew)
}

// Marks with helpers, all at the same time. The answer is whether it did: without memory or a thread nothing
// changes.
fn mark_with_helpers<R: Threads + Wait + Sync, G: Gate>(
    rt: &R,
    alloc: Global,
    marker: &mut Marker,
    graph: Graph,
    helpers: Helpers,
    gate: &G,
) -> bool
    requires pages { length marker.old.dirty ≡ length graph.map.now }
    requires memory { length graph.memory.now ≡ PAGE_WORDS * length graph.map.now }
    ensures traces { Traces (found_in graph.entry.map.now) graph.entry.memory.now graph.entry.roots.now marker.old marker.new }
    ensures roots { result ≡ true → AreRootsMarked (found_in graph.entry.map.now) graph.entry.roots.now marker.new }
    ensures unchanged { result ≡ false → marker.new ≡ marker.old }
{
    marker.laws();
    let Ok((round, crew)) = Round::deal(alloc, marker, graph.map, graph.map.len(), helpers) else {
        return false;
    };
    let pause = round.pause(marker, graph);
    let Ok(crew) = help_each(rt, alloc, &pause, gate, crew) else {
        return false;
    };
    round.gather(marker, graph, crew);
    true
}

/// Marks on until nothing is left to read, with helpers at the same time, the last of them on the calling thread: the marks become
/// the closure of the marks before and the roots, as [`close_marks`] leaves them. Where there is less to do than
/// they start for, or too little waits to be shared, and where memory or a thread is refused, the calling thread does it alone.
pub fn close_marks_with<R: Threads + Wait + Sync, G: Gate>(
    rt: &R,
    alloc: Global,
    marker: &mut Marker,
    graph: Graph,
    helpers: Helpers,
    gate: &G,
)
    requires pages { length marker.old.dirty ≡ length graph.map.now }
    requires memory { length graph.memory.now ≡ PAGE_WORDS * length graph.map.now }
    requires objects { AreMarksObjects (found_in graph.map.now) marker.old }
    requires invariant { DirtyPageInvariant (found_in graph.map.now) graph.memory.now marker.old }
    ensures closure { AreClosed (found_in graph.entry.map.now) graph.entry.memory.now graph.entry.roots.now marker.old marker.new }
    ensures done { IsDone marker.new }
    ensures traces { Traces (found_in graph.entry.map.now) graph.entry.memory.now graph.entry.roots.now marker.old marker.new }
{
    let leave = Uncounted::new(alloc);
    if mark_before_helpers(marker, graph, helpers, leave) {
        return;
    }
    mark_with_helpers(rt, alloc, marker, graph, helpers, gate);
    let mut reader = Reader::new(graph.memory);
    close_marks(marker, graph.map, &mut reader, graph.roots);
    reader.end_uncounted(leave);
}
