//! What a line of times says.
ghost use Rattle.std.specs.Prelude.{◌≡◌, IfOk, map, take};
ghost use Rattle.program_text.specs.PlainWords.{words_of};
ghost use Rattle.time_text.specs.TimeLines.{line_says, region_said, segment_said, words_say};

use program_text::AllocFault;
use program_text::plain_words::{is_blank, read_number};
use std::alloc::Global;

/// The largest number of threads, of a thread and of a segment that a line can have.
pub const LARGEST_NUMBER: u64 = 4_294_967_295;

/// The largest moment that a line can have.
pub const LARGEST_MOMENT: u64 = 1_000_000_000_000_000_000;

/// On how many threads a run took place, and from when until when.
#[derive(Clone, Copy, Debug, PartialEq, Eq)]
pub struct RegionTimes {
    pub threads: u32,
    pub first: u64,
    pub last: u64,
}

/// On which thread a segment ran, and from when until when.
#[derive(Clone, Copy, Debug, PartialEq, Eq)]
pub struct SegmentTimes {
    pub segment: u32,
    pub thread: u32,
    pub begin: u64,
    pub end: u64,
}

/// What a line of times says.
#[derive(Clone, Copy, Debug, PartialEq, Eq)]
pub enum TimeLine {
    /// Nothing: it has no words.
    Blank,
    /// When the run took place.
    Region(RegionTimes),
    /// When a segment ran.
    Segment(SegmentTimes),
}

/// A line has no more words than this, or it is wrong.
const MOST_WORDS: usize = 5;

/// What a line says, if anything.
pub(crate) fn read_line(alloc: Global, line: &[u8]) -> Result<Option<TimeLine>, AllocFault>
    ensures { IfOk result (λ said. said ≡ line_says line.now) }
{
    // One more than a line may have.
    let words = first_words(alloc, line, MOST_WORDS)?;
    Ok(read_words(words.as_slice()))
}

/// The first words of a line, so many at most.
pub fn first_words<'a>(
    alloc: Global,
    line: &'a [u8],
    most: usize,
) -> Result<Vec<&'a [u8]>, AllocFault>
    ensures { IfOk result (λ words.
        map (λ word. word.now) words.items ≡ take most (words_of line.now)) }
{
    line.split(|byte| is_blank(*byte))
        .filter(|word| !word.is_empty())
        .take(most)
        .collect(alloc)
}

/// What words say, if anything.
fn read_words(words: &[&[u8]]) -> Option<TimeLine>
    ensures { result ≡ words_say (map (λ word. word.now) words.now) }
{
    if words.is_empty() {
        return Some(TimeLine::Blank);
    }
    if words.len() != 4 {
        return None;
    }
    if words[0] == b"times".as_slice() {
        read_region(words[1], words[2], words[3])
    } else {
        read_segment(words[0], words[1], words[2], words[3])
    }
}

fn read_region(threads: &[u8], first: &[u8], last: &[u8]) -> Option<TimeLine>
    ensures { result ≡ region_said threads.now first.now last.now }
{
    Some(TimeLine::Region(RegionTimes {
        threads: read_number(threads, LARGEST_NUMBER)? as u32,
        first: read_number(first, LARGEST_MOMENT)?,
        last: read_number(last, LARGEST_MOMENT)?,
    }))
}

fn read_segment(segment: &[u8], thread: &[u8], begin: &[u8], end: &[u8]) -> Option<TimeLine>
    ensures { result ≡ segment_said segment.now thread.now begin.now end.now }
{
    Some(TimeLine::Segment(SegmentTimes {
        segment: read_number(segment, LARGEST_NUMBER)? as u32,
        thread: read_number(thread, LARGEST_NUMBER)? as u32,
        begin: read_number(begin, LARGEST_MOMENT)?,
        end: read_number(end, LARGEST_MOMENT)?,
    }))
}
