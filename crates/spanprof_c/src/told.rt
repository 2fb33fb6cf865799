//! Answers of several numbers, as C has them.
ghost use Rattle.std.specs.Prelude.{◌≡◌};

/// Where a refusal lies: the line of a text's fault, or the segments of another one; 0 for what
/// there is none of.
#[repr(C)]
#[derive(Drop)]
pub struct Place {
    pub line: u64,
    pub segment: u32,
    pub other: u32,
}

/// Writes a place.
pub(crate) fn put_place(place: &mut Place, line: u64, segment: u32, other: u32)
    ensures { place.new ≡ record { line = line; segment = segment; other = other } }
{
    place.line = line;
    place.segment = segment;
    place.other = other;
}

/// The number of segments, the work and the span.
#[repr(C)]
#[derive(Drop)]
pub struct Measured {
    pub segments: u64,
    pub work: u64,
    pub span: u64,
}

/// The work, the span, and how many segments the critical path has.
#[repr(C)]
#[derive(Drop)]
pub struct Analysed {
    pub work: u64,
    pub span: u64,
    pub path_length: u64,
}

/// An end before which no schedule on a number of threads ends, and one after which no greedy
/// schedule does.
#[repr(C)]
#[derive(Drop)]
pub struct Bounds {
    pub least: u64,
    pub greatest: u64,
}

/// Where the time of a run's threads went, in the unit of its times.
#[repr(C)]
#[derive(Drop)]
pub struct Accounted {
    pub busy: u64,
    pub delayed: u64,
    pub starved: u64,
    pub outside: u64,
}

/// How many segments a certificate's program has, and where its schedule ends.
#[repr(C)]
#[derive(Drop)]
pub struct Certified {
    pub segments: u64,
    pub ends_at: u64,
}
