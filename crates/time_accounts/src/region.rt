//! The threads and the moments between which a run took place.

/// On how many threads a run took place, and from when until when, in the unit of its times. Its
/// threads' time is all of theirs between these moments.
#[derive(Clone, Copy, Debug, PartialEq, Eq)]
pub struct Region {
    /// How many threads, 1 to 1,024.
    pub threads: u32,
    /// The first moment.
    pub first: u64,
    /// The last moment, at most `MOST_WORK`.
    pub last: u64,
}
