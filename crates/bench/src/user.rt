//! A mutator that calls for many objects.
use heap_core::Core;
use std::alloc::Global;
use words::limits::MAX_PAGES;
use words::{Kind, Reg, Slot};

/// A heap of the most pages, its mutator, and three of its registers. The last one keeps what it has.
#[derive(Drop)]
pub(crate) struct User {
    core: Core,
    slot: Slot,
    object: Reg,
    word: Reg,
    kept: Reg,
}

impl User {
    /// Opens the heap. `None` out of memory.
    pub(crate) fn new(alloc: Global) -> Option<User> {
        let object = Reg::new(1)?;
        let word = Reg::new(2)?;
        let kept = Reg::new(3)?;
        let mut core = Core::new(alloc, MAX_PAGES).ok()?;
        let slot = core.attach().ok()?;
        Some(User {
            core,
            slot,
            object,
            word,
            kept,
        })
    }

    /// Allocates an object, and answers its base.
    pub(crate) fn allocate(&mut self, words: u64) -> u64 {
        let _done = self.core.alloc(self.slot, self.object, words, Kind::Normal);
        self.core.get(self.slot, self.object).unwrap_or(0)
    }

    fn free(&mut self, base: u64) {
        self.aim(base);
        let _freed = self.core.free(self.slot, self.object);
    }

    /// Allocates an object for each request, and keeps their bases.
    #[inline(never)]
    pub(crate) fn allocate_all(&mut self, sizes: &[u64], bases: &mut [u64]) {
        for (base, size) in bases.iter_mut().zip(sizes) {
            *base = self.allocate(*size);
        }
    }

    /// Allocates objects of so many words, and keeps their bases.
    #[inline(never)]
    pub(crate) fn allocate_each(&mut self, words: u64, bases: &mut [u64]) {
        for base in bases.iter_mut() {
            *base = self.allocate(words);
        }
    }

    pub(crate) fn free_all(&mut self, bases: &[u64]) {
        for base in bases {
            self.free(*base);
        }
    }

    /// Frees each object of the ring, and allocates another in its place.
    #[inline(never)]
    pub(crate) fn turn(&mut self, sizes: &[u64], ring: &mut [u64]) {
        for (base, size) in ring.iter_mut().zip(sizes) {
            self.free(*base);
            *base = self.allocate(*size);
        }
    }

    fn aim(&mut self, base: u64) {
        let _done = self.core.set(self.slot, self.object, base);
    }

    fn load(&mut self, offset: u64) -> u64 {
        let word = self.core.load(self.slot, self.word, self.object, offset);
        word.unwrap_or(7)
    }

    fn store(&mut self, offset: u64, from: Reg) {
        let _stored = self.core.store(self.slot, self.object, offset, from);
    }

    /// Loads two words of each object, and answers their sum.
    #[inline(never)]
    pub(crate) fn load_all(&mut self, ring: &[u64]) -> u64 {
        let mut sum: u64 = 0;
        for base in ring {
            self.aim(*base);
            for offset in 0..2 {
                sum = sum.wrapping_add(self.load(offset));
            }
        }
        sum
    }

    /// Stores into two words of each object.
    #[inline(never)]
    pub(crate) fn store_all(&mut self, ring: &[u64]) {
        for base in ring {
            self.aim(*base);
            for offset in 0..2 {
                self.store(offset, self.object);
            }
        }
    }

    /// Stores a word into an object.
    pub(crate) fn link(&mut self, base: u64, offset: u64, word: u64) {
        self.aim(base);
        let _set = self.core.set(self.slot, self.word, word);
        self.store(offset, self.word);
    }

    fn size(&mut self, base: u64) -> u64 {
        self.aim(base);
        self.core.size(self.slot, self.object).unwrap_or(0)
    }

    /// Asks for the words of every second object, and answers their sum.
    #[inline(never)]
    pub(crate) fn sizes(&mut self, bases: &[u64]) -> u64 {
        let mut sum: u64 = 0;
        for two in bases.chunks(2) {
            if let Some(base) = two.first() {
                sum = sum.wrapping_add(self.size(*base));
            }
        }
        sum
    }

    /// Only the objects that this word reaches stay reached.
    pub(crate) fn keep(&mut self, word: u64) {
        let _kept = self.core.set(self.slot, self.kept, word);
        let _object = self.core.set(self.slot, self.object, 0);
        let _word = self.core.set(self.slot, self.word, 0);
    }

    /// Collects in full, and answers how many objects went.
    #[inline(never)]
    pub(crate) fn collect(&mut self) -> u64 {
        self.core.collect().unwrap_or(0)
    }

    fn begin(&mut self) {
        let _begun = self.core.begin();
        let _read = self.core.roots();
    }

    // Reads all entries and the lowest dirty page. Answers whether there was one.
    fn mark_on(&mut self) -> bool {
        let _marked = self.core.mark(u64::MAX);
        matches!(self.core.retrace(), Ok(1))
    }

    /// Begins a cycle, and marks till nothing is left to read.
    pub(crate) fn mark_all(&mut self) {
        self.begin();
        for _ in 0..u64::MAX {
            if !self.mark_on() {
                break;
            }
        }
    }

    /// Begins a cycle, with the marks of the last one if it is a partial one, and marks till nothing is left to read.
    /// Answers how many words were read off entries.
    #[inline(never)]
    pub(crate) fn mark_cycle(&mut self, is_partial: bool) -> u64 {
        let _begun = if is_partial {
            self.core.begin_partial()
        } else {
            self.core.begin()
        };
        let _read = self.core.roots();
        let mut read: u64 = 0;
        for _ in 0..u64::MAX {
            read = read.wrapping_add(self.core.mark(u64::MAX).unwrap_or(0));
            if !matches!(self.core.retrace(), Ok(1)) {
                break;
            }
        }
        read
    }

    /// Ends the cycle, and answers how many objects went.
    pub(crate) fn finish(&mut self) -> u64 {
        self.core.finish().unwrap_or(0)
    }

    /// Sweeps what is left to sweep.
    pub(crate) fn sweep_all(&mut self) -> u64 {
        let mut swept: u64 = 0;
        for _ in 0..u64::MAX {
            if !matches!(self.core.sweep(), Ok(1)) {
                break;
            }
            swept = swept.wrapping_add(1);
        }
        swept
    }
}
