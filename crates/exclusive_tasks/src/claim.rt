//! What tasks exclude one another by, what happens in a run, and where two of them overlap.

/// That a task excludes its siblings at a location. One with several locations has a claim to each.
#[derive(Clone, Copy, Debug, PartialEq, Eq)]
pub struct Claim {
    /// The number of the task that creates it.
    pub parent: u32,
    /// The number of the location.
    pub location: u32,
    /// The task's first segment, with which it begins.
    pub first: u32,
    /// Its last segment, with which it is complete.
    pub last: u32,
}

/// What happens to a segment, on whatever thread.
#[derive(Clone, Copy, Debug, PartialEq, Eq)]
pub enum Event {
    Start(u32),
    Finish(u32),
}

/// A task begins while one that excludes it is under way: the event, and the claims of the two by
/// their indexes.
#[derive(Clone, Copy, Debug, PartialEq, Eq)]
pub struct Overlap {
    pub event: usize,
    pub begins: usize,
    pub under_way: usize,
}
