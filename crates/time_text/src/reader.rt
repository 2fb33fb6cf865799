//! The times of a run, line by line.
ghost use Rattle.std.specs.Prelude.{◌≡◌, ◌<◌, ◌^◌, IfErr, IfOk, Ok, Err, OnOk, None, length};
ghost use Rattle.std.specs.Prelude.{replicate};
ghost use Rattle.program_text.specs.Document.{lines_of};
ghost use Rattle.time_text.specs.Reading.{AreAll, IsEmptyRow, IsSoFar, put, step};
ghost use Rattle.time_text.specs.TimesTexts.{IsTextFault, NamesLineBelow, TellsTimes};

use crate::fault::TimeTextFault;
use crate::line::{RegionTimes, SegmentTimes, TimeLine, read_line};
use std::alloc::Global;

/// The times of a run: when it took place, and for each segment, by its number, when it ran.
#[derive(Drop)]
pub struct TimesText {
    pub region: RegionTimes,
    pub segments: Vec<SegmentTimes>,
}

/// Reads the times of a run of so many segments. A line `times P FIRST LAST` has the number of
/// threads and the two moments; it comes first. Each further line `SEGMENT THREAD BEGIN END` is of
/// one segment, in any order. Lines without words say nothing. A text is refused for its first
/// wrong line, and then for the first segment without times. The other error is that memory ran
/// out.
pub fn read_times(alloc: Global, text: &[u8], segments: u32) -> Result<TimesText, TimeTextFault>
    ensures found { IfOk result (λ times.
        TellsTimes segments (lines_of text.now) times.region times.segments.items) }
    ensures refused { IfErr result (IsTextFault segments (lines_of text.now)) }
    ensures inside { IfErr result (NamesLineBelow (length (lines_of text.now))) }
{
    let mut rows = vec![in alloc; None; segments as usize]?;
    read_rows(alloc, text, rows.as_mut_slice())
}

/// Reads the times of a run, whose segments have these rows. None has times yet.
fn read_rows(
    alloc: Global,
    text: &[u8],
    rows: &mut [Option<SegmentTimes>],
) -> Result<TimesText, TimeTextFault>
    requires few { length rows.old < 2 ^ 32 }
    requires empty { rows.old ≡ replicate (length rows.old) None }
    ensures found { IfOk result (λ times.
        TellsTimes (length rows.old) (lines_of text.now) times.region times.segments.items) }
    ensures refused { IfErr result (IsTextFault (length rows.old) (lines_of text.now)) }
{
    let (region, lines) = read_lines(alloc, text, rows)?;
    match region {
        Some(region) => {
            let segments = each_segment(alloc, rows)?;
            Ok(TimesText { region, segments })
        }
        None => Err(TimeTextFault::BadForm { line: lines - 1 }),
    }
}

/// Takes what the lines of a text say. Answers when the run took place, if a line says so, and
/// how many lines there are.
fn read_lines(
    alloc: Global,
    text: &[u8],
    rows: &mut [Option<SegmentTimes>],
) -> Result<(Option<RegionTimes>, usize), TimeTextFault>
    requires { rows.old ≡ replicate (length rows.old) None }
    ensures count { IfOk result (λ read. read.1 ≡ length (lines_of text.now)) }
    ensures read { IfOk result (λ read. IsSoFar (length rows.old) (lines_of text.now)
        (length (lines_of text.now)) read.0 rows.new) }
    ensures refused { IfErr result (IsTextFault (length rows.old) (lines_of text.now)) }
{
    let mut region = None;
    let mut number = 0;
    for line in text.split(|byte| *byte == b'\n') {
        let said = read_line(alloc, line)?;
        region = take(rows, region, number, said)?;
        number += 1;
    }
    Ok((region, number))
}

/// Takes what one line more says, and answers when the run took place, if a line has
/// said so.
fn take(
    rows: &mut [Option<SegmentTimes>],
    region: Option<RegionTimes>,
    line: usize,
    said: Option<TimeLine>,
) -> Result<Option<RegionTimes>, TimeTextFault>
    ensures taken { IfOk result (λ after. step region rows.old line said
        ≡ Ok (record { region = after; rows = rows.new })) }
    ensures refused { IfErr result (λ fault. step region rows.old line said ≡ Err fault) }
{
    match (said, region) {
        (Some(TimeLine::Blank), _) => Ok(region),
        (Some(TimeLine::Region(told)), None) => Ok(Some(told)),
        (Some(TimeLine::Segment(times)), Some(_)) => {
            put(rows, line, times)?;
            Ok(region)
        }
        _ => Err(TimeTextFault::BadForm { line }),
    }
}

/// Puts the times of a segment into its row.
fn put(
    rows: &mut [Option<SegmentTimes>],
    line: usize,
    times: SegmentTimes,
) -> Result<(), TimeTextFault>
    ensures put { OnOk result (put rows.old line times ≡ Ok rows.new) }
    ensures refused { IfErr result (λ fault. put rows.old line times ≡ Err fault) }
{
    let segment = times.segment as usize;
    if segment >= rows.len() {
        return Err(TimeTextFault::UnknownSegment { line });
    }
    if rows[segment].is_some() {
        return Err(TimeTextFault::TimedTwice { line });
    }
    rows[segment] = Some(times);
    Ok(())
}

/// The times of each segment, by its number.
fn each_segment(
    alloc: Global,
    rows: &[Option<SegmentTimes>],
) -> Result<Vec<SegmentTimes>, TimeTextFault>
    requires { length rows.now < 2 ^ 32 }
    ensures all { IfOk result (λ segments. AreAll rows.now segments.items) }
    ensures first { IfErr result (IsEmptyRow rows.now) }
{
    let mut segments = Vec::with_capacity(alloc, rows.len())?;
    for (segment, row) in rows.iter().enumerate() {
        match row {
            Some(times) => segments.push(*times)?,
            None => {
                return Err(TimeTextFault::NotTimed {
                    segment: segment as u32,
                });
            }
        }
    }
    Ok(segments)
}
