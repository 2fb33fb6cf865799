//! The lines of what is wrong with the times of a run.
ghost use Rattle.std.specs.Prelude.{◌≡◌, ◌≤◌, IfOk, count_by, length};
ghost use Rattle.program_text.specs.Tokens.{is_line_feed};
ghost use Rattle.spanprof_command.specs.Certificates.{refused_as, refused_pair};
ghost use Rattle.large_documents.specs.AccountReports.{at_line, numbered, of_segment};
ghost use Rattle.large_documents.specs.AccountReports.{text_refusal, times_refusal};

use spanprof_command::{Report, Status};
use std::alloc::Global;
use task_program::AllocFault;
use time_accounts::fault::TimesFault;
use time_text::TimeTextFault;

/// Why times are not read behind a divider, before which so many lines have ended.
pub(crate) fn text_refused(
    alloc: Global,
    before: usize,
    fault: TimeTextFault,
) -> Result<Report, AllocFault>
    ensures { IfOk result (λ report. report ≡ text_refusal before fault) }
{
    match fault {
        TimeTextFault::BadForm { line } => at_line(alloc, before, line, "BadForm"),
        TimeTextFault::UnknownSegment { line } => at_line(alloc, before, line, "UnknownSegment"),
        TimeTextFault::TimedTwice { line } => at_line(alloc, before, line, "TimedTwice"),
        TimeTextFault::NotTimed { segment } => of_segment(alloc, "NotTimed", segment),
        TimeTextFault::OutOfMemory => Err(AllocFault),
    }
}

/// Why times are not those of a legal run.
pub(crate) fn times_refused(alloc: Global, fault: TimesFault) -> Result<Report, AllocFault>
    ensures { IfOk result (λ report. report ≡ times_refusal fault) }
{
    match fault {
        TimesFault::ThreadCount => refused_as(alloc, "ThreadCount"),
        TimesFault::Moments => refused_as(alloc, "Moments"),
        TimesFault::Count => refused_as(alloc, "Count"),
        TimesFault::NoThread(segment) => of_segment(alloc, "NoThread", segment),
        TimesFault::EndsEarly(segment) => of_segment(alloc, "EndsEarly", segment),
        TimesFault::OutOfTime(segment) => of_segment(alloc, "OutOfTime", segment),
        TimesFault::TooSoon(segment, before) => refused_pair(alloc, "TooSoon", segment, before),
        TimesFault::NotApart(segment) => of_segment(alloc, "NotApart", segment),
        TimesFault::OutOfMemory => Err(AllocFault),
    }
}

/// What is wrong, in a word.
pub(crate) fn refused_as(alloc: Global, word: &str) -> Result<Report, AllocFault>
    ensures { IfOk result (λ report. report ≡ refused_as word.now) }
{
    let text = format!(in alloc; "error: {word}\n")?;
    Ok(Report::new(text.into_bytes(), Status::Refused))
}

pub(crate) fn of_segment(alloc: Global, word: &str, segment: u32) -> Result<Report, AllocFault>
    ensures { IfOk result (λ report. report ≡ of_segment word.now segment) }
{
    let text = format!(in alloc; "error: {word} {segment}\n")?;
    Ok(Report::new(text.into_bytes(), Status::Refused))
}

pub(crate) fn refused_pair(alloc: Global, word: &str, s: u32, t: u32) -> Result<Report, AllocFault>
    ensures { IfOk result (λ report. report ≡ refused_pair word.now s t) }
{
    let text = format!(in alloc; "error: {word} {s} {t}\n")?;
    Ok(Report::new(text.into_bytes(), Status::Refused))
}

/// What is wrong with a line behind a divider, by its index there. So many lines have ended before the
/// divider.
pub(crate) fn at_line(
    alloc: Global,
    before: usize,
    line: usize,
    word: &str,
) -> Result<Report, AllocFault>
    ensures { IfOk result (λ report. report ≡ at_line before line word.now) }
{
    // The sum of two lengths may pass what a length can be.
    let number = before as u128 + line as u128 + 2;
    numbered(alloc, number, word)
}

pub(crate) fn numbered(alloc: Global, number: u128, word: &str) -> Result<Report, AllocFault>
    ensures { IfOk result (λ report. report ≡ numbered number word.now) }
{
    let text = format!(in alloc; "error: line {number}: {word}\n")?;
    Ok(Report::new(text.into_bytes(), Status::Refused))
}

/// How many lines end in a text.
pub(crate) fn count_lines(text: &[u8]) -> usize
    ensures is { result ≡ count_by is_line_feed text.now }
    ensures few { result ≤ length text.now }
{
    let mut count = 0;
    for byte in text {
        if *byte == b'\n' {
            count += 1;
        }
    }
    count
}
