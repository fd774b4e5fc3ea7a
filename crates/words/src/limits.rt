//! Every limit of the heap and every measure of its layout, said once.

/// The number of a page, from 0.
pub type PageNo = u32;

/// The bytes of a word. Addresses of words are divisible by it.
pub const WORD_BYTES: u64 = 8;

/// The words of a granule. Every object begins at a granule.
pub const GRANULE_WORDS: u64 = 2;

/// The bytes of a granule.
pub const GRANULE_BYTES: u64 = 16;

/// The words of a page.
pub const PAGE_WORDS: u64 = 512;

/// The bytes of a page.
pub const PAGE_BYTES: u64 = 4_096;

/// The granules of a page, which are also the most cells that a page is cut into.
pub const PAGE_GRANULES: u64 = 256;

/// The address of the heap's first byte.
pub const FIRST_ADDRESS: u64 = 268_435_456;

/// The most pages of a heap that is opened without limits of its own.
pub const MAX_PAGES: u32 = 4_096;

/// The most pages that a heap may have.
pub const MOST_PAGES: u32 = 1_048_576;

/// The most words of a request that takes a cell of a size class.
pub const MAX_SMALL_WORDS: u64 = 256;

/// The most words of a request, of a heap that is opened without limits of its own.
pub const MAX_REQUEST_WORDS: u64 = 65_536;

/// The greatest limit of requests that a heap may have: the words of all its pages.
pub const MOST_REQUEST_WORDS: u64 = 536_870_912;

/// The slots for mutators.
pub const SLOTS: u8 = 16;

/// The registers of a mutator.
pub const REGISTERS: u8 = 16;

/// The words of a mutator's stack.
pub const STACK_WORDS: u16 = 256;

/// The globals of a heap.
pub const GLOBALS: u8 = 64;

/// The entries of the mark stack.
pub const MARK_STACK_ENTRIES: u16 = 256;

/// The most helpers of a pause.
pub const MAX_HELPERS: u8 = 8;

const _: () = prove!(GRANULE_BYTES == GRANULE_WORDS * WORD_BYTES);

const _: () = prove!(PAGE_BYTES == PAGE_WORDS * WORD_BYTES);

const _: () = prove!(PAGE_GRANULES * GRANULE_WORDS == PAGE_WORDS);

const _: () = prove!(FIRST_ADDRESS % PAGE_BYTES == 0);

const _: () = prove!(MAX_PAGES <= MOST_PAGES);

const _: () = prove!(MAX_REQUEST_WORDS <= MOST_REQUEST_WORDS);

const _: () = prove!(MOST_REQUEST_WORDS == PAGE_WORDS * MOST_PAGES as u64);

/// The most links that can stand.
pub const MAX_LINKS: u8 = 64;
