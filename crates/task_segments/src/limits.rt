//! How many rows tables may have.

use task_program::limits::MOST_TASKS;

/// Tasks of a program, with the root.
pub const MOST_TASKS_WITH_ROOT: u32 = MOST_TASKS + 1;

/// The most segments of a table of any size, and the most tasks with the root. Numbers somewhat
/// above still fit in 32 bits.
pub const MOST_ROWS: u32 = 4_000_000_000;
