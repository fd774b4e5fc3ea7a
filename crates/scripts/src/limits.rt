//! The limits of scripts.

/// The most bytes of a line, without its newline.
pub const LINE_BYTES: usize = 255;

/// The number of a line that is bad whatever it holds. Lines are counted from 1.
pub const LAST_LINE: u64 = u64::MAX;

/// The bytes that are asked of a reader at once.
pub const BUFFER_BYTES: usize = 4_096;

/// Room for the text of any reply, with its newline.
pub const REPLY_BYTES: usize = 32;
