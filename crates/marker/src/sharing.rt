//! What the marker lends to the helpers of a pause, and takes back from them.
ghost use Rattle.std.specs.Prelude.{◌≡◌, ◌⊎◌, ℕ, ◌*◌, ◌≤◌, [], None, true, false, length, slice_index_or, IfOk, IfErr};
ghost use Rattle.words.specs.declared.refusal.OpenError.TheVariants.{Memory};
ghost use Rattle.words.specs.declared.limits.TheConstants.{PAGE_GRANULES};
ghost use Rattle.words.specs.Bits.{Has, IsEmptyFrom};
ghost use Rattle.mark_bits.specs.Tables.{view, start_of, granules_of, IsOf};
ghost use Rattle.mark_bits.specs.Claims.{first_view, knows, Gathers, HasAll};

use crate::entry::Entry;
use crate::marker::Marker;
use dirty_pages::DirtyPages;
use mark_bits::{Claimer, MarkTable};
use std::alloc::Global;
use words::{OpenError, PageNo};

impl Marker {
    /// The marks of the first `used` pages, past which there is none, as a table that several threads claim from, and the claimer
    /// that has all of it. The one error is [`OpenError::Memory`].
    pub fn open_table(&self, alloc: Global, used: PageNo) -> Result<(MarkTable, Claimer), OpenError>
        requires inside { PAGE_GRANULES * used ≤ length self.now.marks }
        requires none { IsEmptyFrom self.now.marks (PAGE_GRANULES * used) }
        ensures table { IfOk result (λ made. (start_of made.0 ≡ self.now.marks) × IsOf made.0 made.1) }
        ensures granules { IfOk result (λ made. PAGE_GRANULES * used ≤ granules_of made.0) }
        ensures claimer { IfOk result (λ made. view made.1 ≡ first_view self.now.marks) }
        ensures err { IfErr result (λ error. error ≡ Memory) }
    {
        // There is a granule, and a table has the words of one page at least.
        let _granules = self.marks.granules();
        let held = if used == 0 { 1 } else { used };
        MarkTable::of_used(alloc, &self.marks, held)
    }

    /// The dirty pages.
    pub fn dirty_pages(&self) -> &DirtyPages
        ensures { result.now ≡ self.now.dirty }
    {
        &self.dirty
    }

    /// The carried pages.
    pub fn carried_pages(&self) -> &DirtyPages
        ensures { result.now ≡ self.now.carried }
    {
        &self.carried
    }

    /// The entry that is being read.
    pub fn current(&self) -> Option<Entry>
        ensures { result ≡ self.now.current }
    {
        self.current
    }

    /// The entries that wait, the next one last.
    pub fn waiting(&self) -> &[Entry]
        ensures { result.now ≡ self.now.stack }
    {
        self.stack.as_slice()
    }

    /// Ends the work of helpers: the marks, which nobody else changed since the table was made, are those of the table, the dirty pages
    /// are these, these too are carried, and no entry is left. It takes the claimer to which all others were joined.
    pub fn take_back(
        &mut self,
        table: MarkTable,
        claimer: Claimer,
        dirty: DirtyPages,
        carried: &DirtyPages,
    )
        requires of { IsOf table claimer }
        requires all { HasAll (view claimer) }
        requires same { start_of table ≡ self.old.marks }
        requires pages { length dirty ≡ length self.old.dirty }
        requires carried { length carried.now ≡ length self.old.carried }
        ensures gathered { Gathers (start_of table) (view claimer).won self.new.marks }
        ensures known { (k : ℕ) → knows (view claimer) k ≡ true → slice_index_or self.new.marks k false ≡ true }
        ensures dirty { self.new.dirty ≡ dirty }
        ensures carried_len { length self.new.carried ≡ length self.old.carried }
        ensures each { (p : ℕ) → Has self.new.carried p → Has self.old.carried p ⊎ Has carried.now p }
        ensures old { (p : ℕ) → Has self.old.carried p → Has self.new.carried p }
        ensures more { (p : ℕ) → Has carried.now p → Has self.new.carried p }
        ensures current { self.new.current ≡ None }
        ensures stack { self.new.stack ≡ [] }
    {
        table.finish(claimer, &mut self.marks);
        self.dirty = dirty;
        self.carried.add(carried);
        self.current = None;
        self.stack.clear();
    }
}
