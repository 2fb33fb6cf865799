//! Why a text does not have the times of a run.
ghost use Rattle.std.specs.Prelude.{◌≡◌};
ghost use Rattle.time_text.specs.declared.fault.TimeTextFault.TheVariants.{OutOfMemory};

use program_text::AllocFault;
use std::alloc::AllocFailed;
use thiserror::Error;

/// Why a text does not have the times of a run: its first wrong line, by its index from 0, or else
/// the first segment without times.
#[derive(Clone, Copy, Debug, PartialEq, Eq, Drop, Error)]
pub enum TimeTextFault {
    /// The line does not say what may stand there; or the text ends, and none says when the run took
    /// place.
    #[error("line {line} of the times has a wrong form")]
    BadForm { line: usize },
    /// The line has times of a segment that does not exist.
    #[error("line {line} of the times names a segment that does not exist")]
    UnknownSegment { line: usize },
    /// The line has times of a segment of which an earlier line has some.
    #[error("line {line} of the times has a segment's times for the second time")]
    TimedTwice { line: usize },
    /// The least segment of which no line has times.
    #[error("segment {segment} has no times")]
    NotTimed { segment: u32 },
    /// An allocation failed.
    #[error("out of memory")]
    OutOfMemory,
}

impl From<AllocFault> for TimeTextFault {
    ghost from_gives = { λ _ fault. fault ≡ OutOfMemory };

    fn from(_error: AllocFault) -> TimeTextFault {
        TimeTextFault::OutOfMemory
    }
}

impl<T: Drop> From<AllocFailed<T>> for TimeTextFault {
    ghost from_gives = { λ _ fault. fault ≡ OutOfMemory };

    fn from(_error: AllocFailed<T>) -> TimeTextFault {
        TimeTextFault::OutOfMemory
    }
}
