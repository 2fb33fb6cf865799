//! Why times are refused.
ghost use Rattle.std.specs.Prelude.{◌≡◌};

use task_program::AllocFault;
use thiserror::Error;

/// Why there is no account: the first fault of the times of a run, in this order.
#[derive(Clone, Copy, Debug, PartialEq, Eq, Error)]
pub enum TimesFault {
    /// The number of threads is not 1 to 1,024.
    #[error("the number of threads is not 1 to 1,024")]
    ThreadCount,
    /// The last moment is before the first one, or above `MOST_WORK`.
    #[error("the last moment is before the first one, or too late")]
    Moments,
    /// There is not one thread, one begin and one end for each segment.
    #[error("not as many times as segments")]
    Count,
    /// The least segment that is out of range has a thread that is none of the run's.
    #[error("segment {0} has a thread that is none of the run's")]
    NoThread(u32),
    /// The least segment that is out of range ends before it begins.
    #[error("segment {0} ends before it begins")]
    EndsEarly(u32),
    /// The least segment that is out of range begins before the first moment or ends after the
    /// last one.
    #[error("segment {0} is not within the run")]
    OutOfTime(u32),
    /// The least segment that begins before a predecessor has ended, and the least such
    /// predecessor.
    #[error("segment {0} begins before segment {1} has ended")]
    TooSoon(u32, u32),
    /// The first segment, by begins and then by numbers, that begins while another one runs on its
    /// thread.
    #[error("segment {0} begins while another one runs on its thread")]
    NotApart(u32),
    /// An allocation failed.
    #[error("out of memory")]
    OutOfMemory,
}

impl From<AllocFault> for TimesFault {
    ghost use Rattle.time_accounts.specs.declared.fault.TimesFault.TheVariants.{OutOfMemory};

    ghost from_gives = { λ _ fault. fault ≡ OutOfMemory };

    fn from(_error: AllocFault) -> TimesFault {
        TimesFault::OutOfMemory
    }
}
