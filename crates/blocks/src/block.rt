//! A page that is cut into cells of one class. Contracts see the class, the kind, the row of its cells, in which true is
//! an allocated cell, and the number of its first free cell.
ghost use Rattle.std.specs.Prelude.{◌≡◌, ◌+◌, ◌≤◌, ◌*◌, ◌/◌, ◌<◌, ◌==◌, ◌≢◌, ℕ, true, false};
ghost use Rattle.std.specs.Prelude.{List, length, replicate, slice_set, take, MatchBool, IfSome, IfNone};
ghost use Rattle.words.specs.declared.limits.TheConstants.{GRANULE_WORDS, PAGE_WORDS, PAGE_BYTES, PAGE_GRANULES, MOST_PAGES};
ghost use Rattle.words.specs.Bits.{members, IsFullRow, IsEmptyFrom, IsFirstClearFrom, IsFirstFrom};
ghost use Rattle.words.specs.Classes.{IsSizeClass};
ghost use Rattle.pages.specs.Memory.{with_word_at};
ghost use Rattle.blocks.specs.Cells.{IsCells};
ghost use Rattle.blocks.specs.Lists.{cell_start, first_after_put, link_of, ChangesFree, ChangesPage, HasPage, IsFirstOrEnd, IsFreeCellOf, IsListed, IsTakenCellOf, MayBeListed, Pops};
ghost use Rattle.blocks.specs.Begins.{IsFreeWord};
ghost use Rattle.blocks.specs.Sweeps.{SweepsCells};
ghost use Rattle.blocks.specs.declared.list.TheConstants.{LIST_END, UNLISTED};

use crate::list::{LIST_END, UNLISTED, link_all, start_of};
use crate::reciprocal::reciprocal_of;
use crate::starts::{begins_in, granule_at};
use pages::Memory;
use std::marker::Model;
use words::limits::{GRANULE_BYTES, GRANULE_WORDS, PAGE_BYTES, PAGE_GRANULES};
use words::{BitRow, Class, GranuleRow, Kind, PageNo};

/// A page cut for one class and kind, with the cells that are allocated.
#[derive(Drop)]
pub struct Block {
    pub(crate) class: Class,
    kind: Kind,
    first: u16,
    pub(crate) reciprocal: u32,
    // The granules at which its allocated cells begin.
    pub(crate) granules: GranuleRow,
    // By it what stands on a page has 64 bytes, so that its place is a shift of the page's number, and lies in one line of the cache.
    _line: u64,
}

impl Model for Block {
    ghost use Rattle.words.specs.Classes.{IsSizeClass};
    ghost use Rattle.blocks.specs.Begins.{begun, AreBegins};
    ghost use Rattle.blocks.specs.Cells.{Cells};
    ghost use Rattle.blocks.specs.Reciprocals.{IsReciprocal};

    ghost Value = { Cells };

    ghost view = { λ b. record { class = b.class; kind = b.kind; taken = begun b.granules b.class; first = b.first } };

    ghost invariant = { λ b. IsSizeClass b.class × AreBegins b.granules b.class × IsReciprocal b.class b.reciprocal };
}

#[tactic(auto, using(crate::proofs::Places::places, crate::proofs::Begins::cells_begun))]
impl Block {
    /// A page cut for a class and a kind, with all its cells free and in their order.
    pub fn new(memory: &mut Memory, page: PageNo, class: Class, kind: Kind) -> Block
        requires page { page < MOST_PAGES }
        requires has { HasPage memory.old page }
        ensures value { result ≡ record { class = class; kind = kind; taken = replicate (PAGE_WORDS / class) false; first = 0 } }
        ensures cells { IsCells result }
        ensures listed { IsListed memory.new page result }
        ensures memory { ChangesPage memory.old memory.new page }
    {
        let cells = class.cells();
        // Its clauses tell that the class is one.
        let _words = class.words();
        link_all(memory, class, page, cells);
        Block {
            class,
            kind,
            reciprocal: reciprocal_of(class),
            granules: GranuleRow::new(),
            _line: 0,
            first: 0,
        }
    }

    /// The class of its cells.
    #[inline]
    pub fn class(&self) -> Class
        ensures class { result ≡ self.now.class }
        ensures cells { IsCells self.now }
    {
        self.class
    }

    /// The kind of its objects.
    #[inline]
    pub fn kind(&self) -> Kind
        ensures { result ≡ self.now.kind }
    {
        self.kind
    }

    /// The number of its cells.
    #[inline]
    pub fn cells(&self) -> u16
        ensures { result ≡ length self.now.taken }
    {
        self.class.cells()
    }

    /// Whether every cell is allocated.
    #[inline]
    pub fn is_full(&self) -> bool
        ensures { MatchBool result (IsFullRow self.now.taken) ((i : ℕ) × IsFirstClearFrom self.now.taken 0 i) }
    {
        // Its clauses tell of its cells.
        let _class = self.class();
        for j in 0..4 {
            if self.free_word(j) != 0 {
                return false;
            }
        }
        true
    }

    /// The granules of the word j of its row at which a free cell begins.
    #[inline]
    pub(crate) fn free_word(&self, j: usize) -> u64
        requires { j < 4 }
        ensures free { IsFreeWord self.now.taken (self.now.class / GRANULE_WORDS) j result }
        ensures cells { IsCells self.now }
    {
        begins_in(self.class, j) & !self.granules.word(j)
    }

    /// Whether the list of its free cells has come to its end: where the list stands, each cell is allocated then.
    #[inline]
    pub fn is_at_end(&self) -> bool
        ensures first { result ≡ (self.now.first == LIST_END) }
        ensures full { (words : List ℕ) (page : ℕ) → IsListed words page self.now → MatchBool result (IsFullRow self.now.taken) (IsFreeCellOf self.now.taken self.now.first) }
    {
        self.first == LIST_END
    }

    /// Whether it has a list of its free cells.
    #[inline]
    pub fn is_listed(&self) -> bool
        ensures { MatchBool result (self.now.first ≢ UNLISTED) (self.now.first ≡ UNLISTED) }
    {
        self.first != UNLISTED
    }

    /// Allocates the first free cell; the next one is then the first. `None` exactly if every cell is allocated.
    #[inline]
    pub fn take(&mut self, memory: &Memory, page: PageNo) -> Option<u16>
        requires page { page < MOST_PAGES }
        requires has { HasPage memory.now page }
        requires listed { IsListed memory.now page self.old }
        ensures none { IfNone result (IsFullRow self.old.taken × (self.new ≡ self.old)) }
        ensures first { IfSome result (λ i. i ≡ self.old.first) }
        ensures free { IfSome result (λ i. IsFreeCellOf self.old.taken i) }
        ensures block { IfSome result (λ i. self.new ≡ record self.old { taken = slice_set self.old.taken i true; first = link_of memory.now page self.old.class i }) }
        ensures listed { IsListed memory.now page self.new }
        ensures linked { self.new.first ≢ UNLISTED }
    {
        let cell = self.first;
        if cell == LIST_END {
            return None;
        }
        self.first = memory.read(start_of(self.class, page, cell)) as u16;
        self.granules.set(granule_at(self.class, cell));
        Some(cell)
    }

    /// Allocates the first free cells one after the other, as many as there is room for, and writes them down. Answers how
    /// many: fewer than there is room for only if every cell is allocated then.
    pub fn take_many(&mut self, memory: &Memory, page: PageNo, cells: &mut [u16]) -> usize
        requires page { page < MOST_PAGES }
        requires has { HasPage memory.now page }
        requires listed { IsListed memory.now page self.old }
        ensures size { length cells.new ≡ length cells.old }
        ensures few { result ≤ length cells.new }
        ensures pops { Pops (link_of memory.now page self.old.class) self.old.taken self.old.first (take result cells.new) self.new.taken self.new.first }
        ensures full { result < length cells.new → IsFullRow self.new.taken }
        ensures block { self.new ≡ record self.old { taken = self.new.taken; first = self.new.first } }
        ensures listed { IsListed memory.now page self.new }
        ensures linked { self.new.first ≢ UNLISTED }
        ensures cells { IsCells self.old }
    {
        // Its clauses tell of its cells.
        let _class = self.class();
        for index in 0..cells.len() {
            let Some(cell) = self.take(memory, page) else {
                return index;
            };
            cells[index] = cell;
        }
        cells.len()
    }

    /// Makes an allocated cell free, and the first of the free ones. Its first word gets the number of the one that was first.
    /// A block that has no list still has none.
    #[inline]
    pub fn put(&mut self, memory: &mut Memory, page: PageNo, cell: u16)
        requires page { page < MOST_PAGES }
        requires has { HasPage memory.old page }
        requires listed { MayBeListed memory.old page self.old }
        requires taken { IsTakenCellOf self.old.taken cell }
        ensures block { self.new ≡ record self.old { taken = slice_set self.old.taken cell false; first = first_after_put self.old.first cell } }
        ensures memory { memory.new ≡ with_word_at memory.old (cell_start page self.old.class cell) self.old.first }
        ensures changes { ChangesPage memory.old memory.new page }
        ensures listed { MayBeListed memory.new page self.new }
    {
        memory.write(start_of(self.class, page, cell), u64::from(self.first));
        self.granules.clear(granule_at(self.class, cell));
        if self.first != UNLISTED {
            self.first = cell;
        }
    }

    /// Makes each allocated cell free that isn't marked. Its free cells are no list then, but where there is none. The marks
    /// are those of the heap's granules.
    pub fn keep_marked(&mut self, page: PageNo, marks: &BitRow)
        requires page { page < MOST_PAGES }
        requires marks { PAGE_GRANULES * page + PAGE_GRANULES ≤ length marks.now }
        ensures sweeps { SweepsCells marks.now page self.old self.new }
        ensures listed { (words : List ℕ) → MayBeListed words page self.new }
        ensures full { MatchBool (self.new.first == LIST_END) (IsFullRow self.new.taken) (self.new.first ≡ UNLISTED) }
    {
        let first = PAGE_GRANULES as usize * page as usize;
        self.granules.keep(marks, first);
        self.first = if self.is_full() { LIST_END } else { UNLISTED };
    }

    /// Makes its free cells a list in their order.
    #[inline(never)]
    pub fn link(&mut self, memory: &mut Memory, page: PageNo)
        requires page { page < MOST_PAGES }
        requires has { HasPage memory.old page }
        ensures block { self.new ≡ record self.old { first = self.new.first } }
        ensures first { IsFirstOrEnd self.old.taken 0 self.new.first }
        ensures listed { IsListed memory.new page self.new }
        ensures linked { self.new.first ≢ UNLISTED }
        ensures cells { IsCells self.old }
        ensures memory { ChangesFree memory.old memory.new page self.old.class self.old.taken }
        ensures changes { ChangesPage memory.old memory.new page }
    {
        self.first = self.link_free(memory, page);
    }

    /// How many cells are allocated.
    pub fn allocated(&self) -> u32
        ensures count { result ≡ members self.now.taken }
        ensures cells { IsCells self.now }
    {
        self.granules.count()
    }

    /// Whether no cell is allocated.
    pub fn is_empty(&self) -> bool
        ensures { MatchBool result (IsEmptyFrom self.now.taken 0) ((i : ℕ) × IsFirstFrom self.now.taken 0 i) }
    {
        self.granules.is_empty()
    }
}
