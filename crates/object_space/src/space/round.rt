//! A round of helpers over the objects.
ghost use Rattle.std.specs.Prelude.{◌≡◌, ℕ, ◌*◌, ◌<◌, ◌≤◌, [], IfOk, Some, vec_len, length};
ghost use Rattle.words.specs.Bits.{IsEmptyFrom};
ghost use Rattle.words.specs.Layout.{page_of};
ghost use Rattle.words.specs.declared.limits.TheConstants.{PAGE_GRANULES};
ghost use Rattle.block_map.specs.FoundIn.{found_in, IsLawful};
ghost use Rattle.block_map.specs.declared.found.Found.{Found};
ghost use Rattle.marker.specs.Growth.{Traces};
ghost use Rattle.marker.specs.Marking.{IsEmpty};
ghost use Rattle.final_pause.specs.Serving.{IsServing, HasServed};
ghost use Rattle.final_pause.specs.Helping.{place_of};
ghost use Rattle.final_pause.specs.Rounds.{helpers_of, round_view, IsRound, IsFresh, AreServing, AreServed, DirtiesNew};

use super::ObjectSpace;
use final_pause::{Graph, Helper, Helpers, Round};
use marker::Marker;
use std::alloc::{AllocError, Global};
use words::PageNo;

impl ObjectSpace {
    /// Deals all that waits to be read to so many helpers. No object lies, and no mark is, on a page from `used` on.
    ///
    /// # Errors
    /// [`AllocError`] where a growth of memory was refused.
    pub fn deal(
        &self,
        alloc: Global,
        marker: &Marker,
        used: PageNo,
        helpers: Helpers,
    ) -> Result<(Round, Vec<Helper>), AllocError>
        requires pages { length marker.now.dirty ≡ length self.now.states }
        requires inside { used ≤ length self.now.states }
        requires none { IsEmptyFrom marker.now.marks (PAGE_GRANULES * used) }
        requires below { (w : ℕ) (f : Found) → found_in self.now.states w ≡ Some f → page_of w < used }
        ensures size { IfOk result (λ d. vec_len d.1 ≡ helpers.number) }
        ensures number { IfOk result (λ d. helpers_of d.0 ≡ helpers.number) }
        ensures round { IfOk result (λ d. IsRound (round_view d.0 marker.now self.now.states self.now.words []) d.0) }
        ensures crew { IfOk result (λ d. AreServing (round_view d.0 marker.now self.now.states self.now.words []) 0 d.1.items) }
        ensures fresh { IfOk result (λ d. IsFresh (length self.now.states) d.0 d.1.items) }
    {
        Round::deal(alloc, marker, &self.table.map, used, helpers)
    }

    /// Does a helper's share: what was dealt to it, and what that leads to. Once it has read so many words of objects that it was the
    /// first to mark, it leaves the others to their pages. Answers how many it read of these. It takes no memory.
    pub fn help(&self, round: &Round, marker: &Marker, most: u64, helper: &mut Helper) -> u64
        requires { IsServing (round_view round.now marker.now self.now.states self.now.words []) helper.old }
        ensures served { HasServed (round_view round.now marker.now self.now.states self.now.words []) (place_of helper.old) helper.new }
        ensures few { result ≤ most }
    {
        let graph = Graph {
            map: &self.table.map,
            memory: &self.memory,
            roots: &[],
        };
        round.help(marker, graph, most, helper)
    }

    /// Puts together what the helpers won and left, of whom each has done its share.
    pub fn gather(&self, round: Round, marker: &mut Marker, crew: Vec<Helper>)
        requires round { IsRound (round_view round marker.old self.now.states self.now.words []) round }
        requires all { vec_len crew ≡ helpers_of round }
        requires served { AreServed (round_view round marker.old self.now.states self.now.words []) 0 crew.items }
        ensures traces { Traces (found_in self.now.states) self.now.words [] marker.old marker.new }
        ensures empty { IsEmpty marker.new }
        ensures dirty { DirtiesNew (found_in self.now.states) marker.old marker.new }
        ensures lawful { IsLawful self.now.states }
    {
        self.table.map.laws();
        let graph = Graph {
            map: &self.table.map,
            memory: &self.memory,
            roots: &[],
        };
        round.gather(marker, graph, crew);
    }
}
