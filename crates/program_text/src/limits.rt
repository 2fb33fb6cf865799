//! The limits, each once: what a text and its program have at most.

/// Bytes of a text.
pub const MOST_TEXT_BYTES: usize = 4_194_304;

/// Bytes outside blanks and comments, of a text of version 1 and of every canonical text.
pub const MOST_TOKEN_BYTES: usize = 1_048_576;

/// Tasks that a program creates, so all but the root.
pub const MOST_TASKS: u32 = 4096;

/// Segments of a program: 1, and 2 for each `task`, 1 for each `taskwait` and `taskgroup`.
pub const MOST_SEGMENTS: u32 = 16_384;

/// Open blocks, those of `task`, `taskgroup` and `for` together.
pub const MOST_NESTING: usize = 64;

/// Depend items of one task.
pub const MOST_ITEMS: usize = 32;

/// Bytes of a word.
pub const MOST_WORD_BYTES: usize = 31;

/// The largest cost of one `work`.
pub const LARGEST_COST: u64 = 1_000_000_000_000;

/// The costs of all `work` of a program together.
pub const MOST_WORK: u64 = 1_000_000_000_000_000;

/// Bytes of a canonical text: each token has a byte or more, and one blank at most after it.
pub const MOST_CANONICAL_BYTES: usize = 2 * MOST_TOKEN_BYTES;

/// The largest first or last value of a `for`.
pub const LARGEST_BOUND: u64 = 1_000_000;

/// The largest distance from 0 of the number in a location's brackets.
pub const LARGEST_INDEX: u64 = 1_000_000;

/// The least number of an index that is too large for any value of its variable. A larger one is
/// read as this.
pub const LARGEST_STEP: u32 = (LARGEST_BOUND + LARGEST_INDEX + 1) as u32;

/// Turns of all `for` blocks together.
pub const MOST_TURNS: u32 = 65_536;

/// The largest bound within which a number can be read from its digits.
pub const LARGEST_READABLE: u64 = 1_000_000_000_000_000_000;
