//! The limits of a text of any size that differ from those of the commands' texts.

/// Bytes of a text.
pub const LARGEST_TEXT: usize = 9_223_372_036_854_775_806;

/// Bytes of one line, its LF not counted. A line is kept until its end has come.
pub const LARGEST_LINE: usize = 4_000_000_000;

/// Bytes that are taken at once.
pub const LARGEST_PIECE: usize = 268_435_456;

/// Bytes outside blanks and comments.
pub const MOST_LARGE_TOKEN_BYTES: u64 = 9_223_372_036_854_775_806;

/// Open blocks, those of `task` and `taskgroup` together.
pub const MOST_LARGE_NESTING: usize = 1_048_576;

/// Depend items of all tasks together. Each may mention a name of its own, and names are numbered in
/// 32 bits.
pub const MOST_LARGE_ITEMS: u32 = 4_294_967_294;

/// Depend items of one task.
pub const MOST_TASK_ITEMS: usize = 65_536;

/// Iterations of all loops of a text of version 2 together.
pub const MOST_LARGE_TURNS: u32 = 4_000_000_000;

/// Lines of the canonical text of a text of version 2, its header not counted.
pub const MOST_LARGE_LINES: u32 = 4_000_000_000;
