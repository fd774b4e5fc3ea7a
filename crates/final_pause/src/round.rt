//! A round of helpers: shares are dealt out, each helper does its own, on whatever thread, and they are gathered.
ghost use Rattle.std.specs.Prelude.{◌≡◌, ℕ, ◌*◌, ◌<◌, ◌≤◌, Some, List, IfOk, length, vec_len};
ghost use Rattle.words.specs.Bits.{IsEmptyFrom};
ghost use Rattle.words.specs.Layout.{page_of};
ghost use Rattle.words.specs.declared.limits.TheConstants.{PAGE_GRANULES, PAGE_WORDS};
ghost use Rattle.block_map.specs.FoundIn.{found_in};
ghost use Rattle.block_map.specs.declared.found.Found.{Found};
ghost use Rattle.marker.specs.Marking.{IsEmpty};
ghost use Rattle.marker.specs.Invariant.{AreRootsMarked};
ghost use Rattle.marker.specs.Growth.{Traces};
ghost use Rattle.final_pause.specs.Serving.{IsServing, HasServed};
ghost use Rattle.final_pause.specs.Pauses.{pause_view};
ghost use Rattle.final_pause.specs.Helping.{place_of};
ghost use Rattle.final_pause.specs.Rounds.{helpers_of, round_view, IsRound, IsFresh, AreServing, AreServed, DirtiesNew};

use crate::crew::{gather, hire};
use crate::gate::Open;
use crate::graph::Graph;
use crate::helper::Helper;
use crate::helpers::Helpers;
use crate::share::Pause;
use block_map::BlockMap;
use dirty_pages::DirtyPages;
use mark_bits::{Claimer, MarkTable};
use marker::Marker;
use std::alloc::{AllocError, Global};
use words::PageNo;

/// What the helpers of a round share, and what is gathered of them: the table of marks, the claimer and the rows of dirty and of
/// carried pages to which theirs are joined, and how many they are.
#[derive(Drop)]
pub struct Round {
    table: MarkTable,
    first: Claimer,
    dirty: DirtyPages,
    carried: DirtyPages,
    helpers: u8,
}

impl Round {
    /// Deals all that waits to be read to so many helpers, and reads none of it. No object lies, and no mark is, on a page from `used`
    /// on, and of these the table has nothing.
    ///
    /// # Errors
    /// [`AllocError`] where a growth of memory was refused.
    pub fn deal(
        alloc: Global,
        marker: &Marker,
        map: &BlockMap,
        used: PageNo,
        helpers: Helpers,
    ) -> Result<(Round, Vec<Helper>), AllocError>
        requires pages { length marker.now.dirty ≡ length map.now }
        requires inside { used ≤ length map.now }
        requires none { IsEmptyFrom marker.now.marks (PAGE_GRANULES * used) }
        requires below { (w : ℕ) (f : Found) → found_in map.now w ≡ Some f → page_of w < used }
        ensures size { IfOk result (λ d. vec_len d.1 ≡ helpers.number) }
        ensures round { IfOk result (λ d. (memory roots : List ℕ) → length memory ≡ PAGE_WORDS * length map.now → IsRound (round_view d.0 marker.now map.now memory roots) d.0) }
        ensures crew { IfOk result (λ d. (memory roots : List ℕ) → length memory ≡ PAGE_WORDS * length map.now → AreServing (round_view d.0 marker.now map.now memory roots) 0 d.1.items) }
        ensures number { IfOk result (λ d. helpers_of d.0 ≡ helpers.number) }
        ensures fresh { IfOk result (λ d. IsFresh (length map.now) d.0 d.1.items) }
    {
        marker.laws();
        let Ok((table, mut first)) = marker.open_table(alloc, used) else {
            return Err(AllocError);
        };
        let pages = map.len();
        let dirty = DirtyPages::new(alloc, pages)?;
        let carried = DirtyPages::new(alloc, pages)?;
        let helpers = helpers.number();
        let crew = hire(alloc, &table, pages, &mut first, helpers)?;
        let round = Round {
            table,
            first,
            dirty,
            carried,
            helpers,
        };
        Ok((round, crew))
    }

    /// How many helpers the round was dealt to.
    pub fn helpers(&self) -> u8
        ensures { result ≡ helpers_of self.now }
    {
        self.helpers
    }

    // What the helpers share.
    pub(crate) fn pause<'a>(&'a self, marker: &'a Marker, graph: Graph<'a>) -> Pause<'a>
        ensures { pause_view result ≡ round_view self.now marker.now graph.entry.map.now graph.entry.memory.now graph.entry.roots.now }
    {
        Pause {
            table: &self.table,
            marker,
            map: graph.map,
            memory: graph.memory,
            roots: graph.roots,
            helpers: usize::from(self.helpers),
        }
    }

    /// Does a helper's share: the root words of its place, what was dealt to it, and what these lead to. Once it has read so many words
    /// of objects that it was the first to mark, it leaves the others to their pages, which become dirty. What an entry's object
    /// that is longer than a page leads to is left to its pages at once, unless `most` is near `u64::MAX`. Answers how many words it
    /// read of objects that it was the first to mark. It takes no memory.
    pub fn help(&self, marker: &Marker, graph: Graph, most: u64, helper: &mut Helper) -> u64
        requires { IsServing (round_view self.now marker.now graph.map.now graph.memory.now graph.roots.now) helper.old }
        ensures served { HasServed (round_view self.now marker.now graph.entry.map.now graph.entry.memory.now graph.entry.roots.now) (place_of helper.old) helper.new }
        ensures few { result ≤ most }
    {
        helper.left = most;
        self.pause(marker, graph).help(&Open, helper);
        most.saturating_sub(helper.left)
    }

    /// Puts together what the helpers won and left, of whom each has done its share: no entry is left, and dirty are pages of newly
    /// marked objects alone.
    pub fn gather(self, marker: &mut Marker, graph: Graph, crew: Vec<Helper>)
        requires round { IsRound (round_view self marker.old graph.map.now graph.memory.now graph.roots.now) self }
        requires all { vec_len crew ≡ helpers_of self }
        requires served { AreServed (round_view self marker.old graph.map.now graph.memory.now graph.roots.now) 0 crew.items }
        ensures traces { Traces (found_in graph.entry.map.now) graph.entry.memory.now graph.entry.roots.now marker.old marker.new }
        ensures roots { AreRootsMarked (found_in graph.entry.map.now) graph.entry.roots.now marker.new }
        ensures empty { IsEmpty marker.new }
        ensures dirty { DirtiesNew (found_in graph.entry.map.now) marker.old marker.new }
    {
        marker.laws();
        let Round {
            table,
            mut first,
            mut dirty,
            mut carried,
            helpers,
        } = self;
        let pause = Pause {
            table: &table,
            marker,
            map: graph.map,
            memory: graph.memory,
            roots: graph.roots,
            helpers: usize::from(helpers),
        };
        gather(&pause, &mut first, &mut dirty, &mut carried, crew);
        marker.take_back(table, first, dirty, &carried);
    }
}
