//! Whether a program waits for no more than another.

/// What is found of a changed program: that it waits for no more, or the first test that it fails, in
/// this order.
#[derive(Clone, Copy, Debug, PartialEq, Eq)]
pub enum Verdict {
    /// It has the same segments, and waits for no more.
    WaitsForNoMore,
    /// It has more segments, or fewer.
    WrongCount,
    /// The first segment of another task, at another place in its task, or of another cost.
    OtherSegment(u32),
    /// Segment t has to wait for s, and in the old program it does not: the least such t, and the
    /// least s for it.
    NewPair { s: u32, t: u32 },
}
