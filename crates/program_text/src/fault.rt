//! Why a text is not a program.
ghost use Rattle.std.specs.Prelude.{◌≡◌};
ghost use Rattle.program_text.specs.declared.fault.ReadKind.TheVariants.{OutOfMemory};

use crate::AllocFault;
use std::alloc::AllocFailed;
use thiserror::Error;

/// What is wrong with a text. The limits stand in `limits`.
#[derive(Clone, Copy, Debug, PartialEq, Eq)]
pub enum ReadKind {
    /// More than `MOST_TEXT_BYTES`, or more than `MOST_TOKEN_BYTES` outside blanks and comments:
    /// those of the text in version 1, those of the canonical text in version 2.
    TooLong = 1,
    /// The text does not begin with the word `omptasks` and a number of value 1 or 2.
    BadHeader = 2,
    /// A byte outside comments that is not a blank and begins no token.
    BadByte = 3,
    /// A token, or the end of the text, where the grammar has none: a second `if` or `final` too,
    /// and a variable that a loop around it already has, or that none has; or a word of more than
    /// `MOST_WORD_BYTES`.
    BadWord = 4,
    /// A digit begins a run with another character than digits; or a number is too large: that of a
    /// `work` above `LARGEST_COST`, of an `if` or `final` above 1, of a `for` above
    /// `LARGEST_BOUND`, or a location's further from 0 than `LARGEST_INDEX`.
    BadNumber = 5,
    /// The text ends and a block is open.
    Unclosed = 6,
    /// A `}` where no block is open.
    Unopened = 7,
    /// More than `MOST_NESTING` open blocks.
    TooDeep = 8,
    /// More than `MOST_TASKS` tasks.
    TooManyTasks = 9,
    /// More than `MOST_SEGMENTS` segments: 1, and 2 for each `task`, 1 for each `taskwait` and
    /// `taskgroup`.
    TooManySegments = 10,
    /// More than `MOST_ITEMS` names in the `depend` clauses of one task.
    TooManyItems = 11,
    /// A total work above `MOST_WORK`.
    WorkTooLarge = 12,
    /// An allocation failed.
    OutOfMemory = 13,
    /// More than `MOST_TURNS` turns of all `for` blocks together.
    TooManyTurns = 14,
}

/// What is wrong with a text, and the line on which the first wrong token begins: 1 plus the LF
/// bytes before it. The end of the text has the line that it ends on, `Unclosed` that of the `{` of
/// the innermost open block, a text of too many bytes line 1, and out of memory line 0.
#[derive(Clone, Copy, Debug, PartialEq, Eq, Drop, Error)]
#[error("line {line}: {kind:?}")]
pub struct ReadFault {
    pub kind: ReadKind,
    pub line: u32,
}

impl From<AllocFault> for ReadFault {
    ghost from_gives = { λ _ e. e ≡ record { kind = OutOfMemory; line = 0 } };

    fn from(_e: AllocFault) -> ReadFault {
        ReadFault {
            kind: ReadKind::OutOfMemory,
            line: 0,
        }
    }
}

impl<T: Drop> From<AllocFailed<T>> for ReadFault {
    ghost from_gives = { λ _ e. e ≡ record { kind = OutOfMemory; line = 0 } };

    fn from(_e: AllocFailed<T>) -> ReadFault {
        ReadFault {
            kind: ReadKind::OutOfMemory,
            line: 0,
        }
    }
}
