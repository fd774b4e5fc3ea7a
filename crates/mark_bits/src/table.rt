//! The marks while several threads claim them.
//!
//! docs/CRATES.md tells the rest: who holds what, and when.
ghost use Rattle.std.specs.Prelude.{◌≡◌, ℕ, ◌*◌, ◌/◌, ◌%◌, ◌==◌, ◌<◌, ◌≤◌, length, true, false, ◌∷◌, if◌then◌else◌, slice_index_or, IfOk, IfErr};
ghost use Rattle.std.specs.Int.{bit_at};
ghost use Rattle.std.specs.Slots.{slots_items, slots_len, IsFull};
ghost use Rattle.words.specs.Bits.{bit, IsEmptyFrom};
ghost use Rattle.words.specs.declared.limits.TheConstants.{PAGE_GRANULES};
ghost use Rattle.words.specs.declared.refusal.OpenError.TheVariants.{Memory};
ghost use Rattle.mark_bits.specs.Claims.{first_view, kept_part, cut_part, joined, knows, Gathers, HasAll, LearnsMore};
ghost use Rattle.mark_bits.specs.Rule.{IsClaim};

use crate::claimer_view::ClaimerView;
use crate::marks::Marks;
use atomic_table::{Closed, Join, Play, Seat, Split, Table, TableRule};
use std::alloc::Global;
use std::snapshot::Snapshot;
use words::{OpenError, PageNo};

// What a table is told when it is made: the marks then, and how many words it has.
#[derive(Drop)]
struct Origin {
    marks: Snapshot<Marks>,
    words: usize,
}

// The rule: each bit that is set was set at the start or was won once.
struct WonOnce;

impl TableRule<(), ClaimerView, Origin> for WonOnce {
    ghost use Rattle.mark_bits.specs.Rule.{IsWonOnce};
    ghost use Rattle.mark_bits.specs.Claims.{first_view};

    ghost holds = { λ origin. IsWonOnce origin.marks.value origin.words };

    ghost first = { λ origin. first_view origin.marks.value };
}

// What `fetch_or` tells: the word as it was, and so whether the bit is won.
struct Claim;

impl Play<(), ClaimerView> for Claim {
    ghost use Rattle.mark_bits.specs.Rule.{claimed};

    ghost then = { claimed };
}

// What `load` tells: the word, which has each bit that the claimer knows.
struct Look;

impl Play<(), ClaimerView> for Look {
    ghost use Rattle.mark_bits.specs.Rule.{looked};

    ghost then = { looked };
}

// How a claimer is cut in two, and how two become one.
struct Parts;

impl Split<ClaimerView> for Parts {
    ghost use Rattle.mark_bits.specs.Claims.{kept_part, cut_part};

    ghost left = { kept_part };

    ghost right = { cut_part };
}

impl Join<ClaimerView> for Parts {
    ghost use Rattle.mark_bits.specs.Claims.{joined, spent};

    ghost both = { joined };

    ghost spent = { spent };
}

// Whether a word has not the bit.
#[inline]
fn is_clear(word: u64, bit: usize) -> bool
    ensures { result ≡ (bit_at word (bit % 64) == 0) }
{
    word & (1 << (bit % 64)) == 0
}

/// The marks while several threads claim them. It has the words of the first pages, and what is past those pages isn't claimed.
#[derive(Drop)]
pub struct MarkTable {
    table: Table<(), ClaimerView, Origin, WonOnce, Global>,
    ghost inside: { 64 * table.shared.table_id.words ≤ length table.shared.key.marks.value },
    ghost told: { table.shared.key.words ≡ table.shared.table_id.words },
    ghost some: { 0 < table.shared.table_id.words },
    ghost no_slot: { table.shared.table_id.slots ≡ 0 },
}

/// What one thread claims with. It has no bytes.
#[derive(Drop)]
pub struct Claimer {
    seat: Seat<(), ClaimerView>,
    ghost part: { 0 < seat.me.0.right.0 },
    ghost no_slot: { length seat.me.1 ≡ 0 },
}

impl MarkTable {
    ghost use Rattle.mark_bits.specs.Tables.{view, start_of, granules_of, IsOf};

    /// A table of all granules that begins with the bits of the marks, and the claimer that has all of it. The one error is
    /// [`OpenError::Memory`].
    pub fn new(alloc: Global, marks: &Marks) -> Result<(MarkTable, Claimer), OpenError>
        ensures table { IfOk result (λ made. (start_of made.0 ≡ marks.now) × IsOf made.0 made.1) }
        ensures granules { IfOk result (λ made. granules_of made.0 ≡ length marks.now) }
        ensures claimer { IfOk result (λ made. view made.1 ≡ first_view marks.now) }
        ensures err { IfErr result (λ error. error ≡ Memory) }
    {
        MarkTable::of_used(alloc, marks, marks.pages())
    }

    /// The same with the words of the first `used` pages alone, where no mark is on a page from there on.
    pub fn of_used(
        alloc: Global,
        marks: &Marks,
        used: PageNo,
    ) -> Result<(MarkTable, Claimer), OpenError>
        requires some { 0 < used }
        requires inside { PAGE_GRANULES * used ≤ length marks.now }
        requires none { IsEmptyFrom marks.now (PAGE_GRANULES * used) }
        ensures table { IfOk result (λ made. (start_of made.0 ≡ marks.now) × IsOf made.0 made.1) }
        ensures granules { IfOk result (λ made. granules_of made.0 ≡ PAGE_GRANULES * used) }
        ensures claimer { IfOk result (λ made. view made.1 ≡ first_view marks.now) }
        ensures err { IfErr result (λ error. error ≡ Memory) }
    {
        let words = marks.words_below(used);
        let origin = Origin {
            marks: Snapshot::of(marks),
            words: words.len(),
        };
        let (table, seat) = Table::of_words(alloc, words, &origin)?;
        Ok((MarkTable { table }, Claimer { seat }))
    }

    /// One more claimer, which knows what this one knows and has won nothing.
    pub fn split(&self, me: &mut Claimer) -> Claimer
        requires of { IsOf self.now me.old }
        ensures of { IsOf self.now me.new × IsOf self.now result }
        ensures me { view me.new ≡ kept_part (view me.old) }
        ensures cut { view result ≡ cut_part (view me.old) }
    {
        // A load whose answer is not used: a claimer changes only at a step.
        let seat = self.table.shared.split_seat::<Parts>(&mut me.seat);
        Claimer { seat }
    }

    /// Two claimers become one, which knows what either knew and has won what either won.
    pub fn join(&self, me: &mut Claimer, other: Claimer)
        requires me { IsOf self.now me.old }
        requires other { IsOf self.now other }
        ensures of { IsOf self.now me.new }
        ensures joined { view me.new ≡ joined (view me.old) (view other) }
    {
        let Claimer { seat } = other;
        // A load whose answer is not used, as in `split`.
        self.table.shared.join_seat::<Parts>(&mut me.seat, seat);
    }

    /// Sets the bit, if the table has it. The answer is whether it was clear at this claim's one step, and then the claimer has won it: of
    /// all claims of a bit that was not set at the start, it is the first. A bit that the table doesn't have is never won, and its claim is
    /// no step.
    pub fn claim(&self, me: &mut Claimer, bit: usize) -> bool
        requires of { IsOf self.now me.old }
        ensures of { IsOf self.now me.new }
        ensures past { granules_of self.now ≤ bit → (result ≡ false) × (view me.new ≡ view me.old) }
        ensures step { bit < granules_of self.now → IsClaim (view me.old) (view me.new) bit result }
        ensures learns { LearnsMore (view me.old) (view me.new) }
        ensures known { bit < granules_of self.now → knows (view me.new) bit ≡ true }
        ensures won { (view me.new).won ≡ (if result then bit ∷ (view me.old).won else (view me.old).won) }
        ensures unmarked { result ≡ true → slice_index_or (start_of self.now) bit false ≡ false }
        ensures unknown { result ≡ true → knows (view me.old) bit ≡ false }
    {
        if bit / 64 >= self.table.word_count() {
            // Nobody wins a bit that the table doesn't have.
            return false;
        }
        // One step sets the bit and reads what it was, so of two claims of a clear bit one finds it clear.
        let found = self
            .table
            .shared
            .fetch_or::<Claim>(&mut me.seat, bit / 64, 1 << (bit % 64));
        is_clear(found, bit)
    }

    /// Whether the bit is set: true for each bit of the table that was set at the start or that the claimer knows, and true
    /// only for a set bit, which the claimer then knows. A bit that the table doesn't have isn't set, and a look at it is no step.
    pub fn is_set(&self, me: &mut Claimer, bit: usize) -> bool
        requires of { IsOf self.now me.old }
        ensures of { IsOf self.now me.new }
        ensures past { granules_of self.now ≤ bit → (result ≡ false) × (view me.new ≡ view me.old) }
        ensures learns { LearnsMore (view me.old) (view me.new) }
        ensures won { (view me.new).won ≡ (view me.old).won }
        ensures set { result ≡ true → knows (view me.new) bit ≡ true }
        ensures marked { bit < granules_of self.now → slice_index_or (start_of self.now) bit false ≡ true → result ≡ true }
        ensures known { bit < granules_of self.now → knows (view me.old) bit ≡ true → result ≡ true }
    {
        if bit / 64 >= self.table.word_count() {
            return false;
        }
        // No step clears a bit, so a bit that was set before this load is still set.
        let found = self.table.shared.load::<Look>(&mut me.seat, bit / 64);
        (found >> (bit % 64)) & 1 == 1
    }

    /// Puts the bits of the table into the marks, which nobody changed since it was made. It takes the claimer to which all others
    /// were joined.
    pub fn finish(self, claimer: Claimer, marks: &mut Marks)
        requires of { IsOf self claimer }
        requires all { HasAll (view claimer) }
        requires same { marks.old ≡ start_of self }
        ensures gathered { Gathers (start_of self) (view claimer).won marks.new }
        ensures known { (k : ℕ) → knows (view claimer) k ≡ true → slice_index_or marks.new k false ≡ true }
    {
        let MarkTable { table } = self;
        let Claimer { seat } = claimer;
        let closed = table.close_with(seat);
        copy_words(&closed, marks);
        closed.free();
    }
}

// The words of the closed table become the first ones of the marks.
fn copy_words(closed: &Closed<(), Global>, marks: &mut Marks)
    requires full { IsFull closed.now.words }
    requires inside { 64 * slots_len closed.now.words ≤ length marks.old }
    ensures size { length marks.new ≡ length marks.old }
    ensures copied { (k : ℕ) → k / 64 < slots_len closed.now.words → slice_index_or marks.new k false ≡ bit (slots_items closed.now.words) k }
    ensures past { (k : ℕ) → slots_len closed.now.words ≤ k / 64 → slice_index_or marks.new k false ≡ slice_index_or marks.old k false }
{
    for j in 0..closed.words.len() {
        marks.set_word(j, closed.word(j));
    }
}
