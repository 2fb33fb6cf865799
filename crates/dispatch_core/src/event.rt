//! Events of a run, and why one is refused.
use crate::kernel::{Kernel, SegResult};

/// The most workers that a run has. They are numbered from 0.
pub const MOST_WORKERS: u32 = 64;

/// A worker, by its number, starts a segment, by its number, or finishes it.
#[derive(Clone, Copy, Debug, PartialEq, Eq)]
pub enum Event {
    /// The worker starts the segment.
    Start { worker: u32, segment: u32 },
    /// The worker has reached the end of the segment that it runs.
    Finish { worker: u32, segment: u32 },
}

/// Why a start is refused: the first of these that holds.
#[derive(Clone, Copy, Debug, PartialEq, Eq)]
pub enum StartRefusal {
    /// The worker's number is not below [`MOST_WORKERS`].
    UnknownWorker,
    /// The segment is past the program's last.
    UnknownSegment,
    /// The worker runs a segment.
    WorkerBusy,
    /// The segment was started.
    AlreadyStarted,
    /// `pred` is the smallest unfinished segment that must precede it.
    NotReady { pred: u32 },
}

/// Why a finish is refused: the first of these that holds.
#[derive(Clone, Copy, Debug, PartialEq, Eq)]
pub enum FinishKind {
    /// The worker does not run that segment.
    NotRunning,
    /// The result was computed for another cost than the segment's.
    WrongCost,
    /// The result was computed on another input than the segment's.
    WrongInput,
    /// There is no memory for what the finish opens, or for the list of segments that become ready.
    OutOfMemory,
}

/// A finish that is refused: why, and the result that comes back.
#[derive(Drop)]
pub struct FinishRefusal<K: Kernel> {
    pub kind: FinishKind,
    pub result: SegResult<K>,
}
