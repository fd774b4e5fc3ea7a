//! Where the cells of a page lie, and which of them are allocated: of an address, a granule or a number, the cell.
ghost use Rattle.std.specs.Prelude.{◌≡◌, ◌/◌, ◌*◌, ◌%◌, ◌<◌, ℕ, false, length, slice_index_or, MatchOption};
ghost use Rattle.words.specs.declared.limits.TheConstants.{GRANULE_WORDS, PAGE_BYTES, PAGE_GRANULES, WORD_BYTES};
ghost use Rattle.words.specs.Bits.{Has, IsEmptyFrom, IsFirstFrom};
ghost use Rattle.blocks.specs.Cells.{IsCells, IsInCell, IsLeftOver};
ghost use Rattle.blocks.specs.Sweeps.{BeginsAt};

use crate::block::Block;
use crate::reciprocal::WHOLE;
use crate::starts::granule_at;
use words::limits::{GRANULE_BYTES, GRANULE_WORDS, PAGE_BYTES, PAGE_GRANULES};

#[tactic(auto, using(crate::proofs::Places::places, crate::proofs::Begins::cells_begun))]
impl Block {
    /// The number of the cell that the byte at an address of the page would have, if there were cells up to the page's end.
    #[inline]
    pub fn cell_under(&self, address: u64) -> u16
        ensures cell { result ≡ address % PAGE_BYTES / (WORD_BYTES * self.now.class) }
        ensures cells { IsCells self.now }
    {
        // Its clauses tell of its cells.
        let _class = self.class();
        let granule = (address % PAGE_BYTES / GRANULE_BYTES) as u32;
        self.cell_at(granule)
    }

    /// The cell that has the byte at an address of the page, and `None` exactly for the words left over at the page's
    /// end.
    #[inline]
    pub fn cell_of(&self, address: u64) -> Option<u16>
        ensures cell { MatchOption result (IsLeftOver self.now.class (address % PAGE_BYTES)) (λ i. IsInCell self.now.class i (address % PAGE_BYTES)) }
        ensures cells { IsCells self.now }
    {
        let cell = self.cell_under(address);
        if cell < self.cells() {
            Some(cell)
        } else {
            None
        }
    }

    /// Whether a cell is allocated.
    #[inline]
    pub fn is_taken(&self, cell: u16) -> bool
        requires { cell < length self.now.taken }
        ensures { result ≡ slice_index_or self.now.taken cell false }
    {
        self.granules.is_set(granule_at(self.class, cell))
    }

    /// The lowest allocated cell from a cell on.
    pub fn next_taken(&self, from: u16) -> Option<u16>
        ensures { MatchOption result (IsEmptyFrom self.now.taken from) (λ i. IsFirstFrom self.now.taken from i) }
    {
        let low = usize::from(from) * usize::from(self.class.words() / GRANULE_WORDS as u16);
        let Some(granule) = self.granules.next(low) else {
            return None;
        };
        Some(self.cell_at(u32::from(granule)))
    }

    // The cell of a granule of the page, if there were cells up to the page's end. It multiplies by the class's reciprocal, since a
    // division by a number that isn't constant is slow.
    #[inline]
    pub(crate) fn cell_at(&self, granule: u32) -> u16
        requires { granule < PAGE_GRANULES }
        ensures { result ≡ granule / (self.now.class / GRANULE_WORDS) }
    {
        (granule * self.reciprocal / WHOLE) as u16
    }

    /// The allocated cell that begins at a granule of the page, and `None` exactly where none does.
    #[inline]
    pub fn taken_from(&self, granule: u32) -> Option<u16>
        requires { granule < PAGE_GRANULES }
        ensures cell { MatchOption result ((i : ℕ) → BeginsAt self.now granule i → Has self.now.taken i → ⊥) (λ i. BeginsAt self.now granule i × Has self.now.taken i) }
        ensures cells { IsCells self.now }
    {
        if self.granules.is_set(granule as u16) {
            Some(self.cell_at(granule))
        } else {
            None
        }
    }
}
