//! The report on a changed program that stands behind the old one.
ghost use Rattle.std.specs.Prelude.{◌≡◌, IfOk};
ghost use Rattle.large_text.specs.LargeTexts.{FitsText};
ghost use Rattle.large_documents.specs.ChangeReports.{SaysOfChange, TellsVerdict, changed_refusal};
ghost use Rattle.large_documents.specs.ChangeReports.{verdict_report};

use crate::read_text::read_table;
use crate::time_refusals::{count_lines, numbered, of_segment, refused_as, refused_pair};
use large_text::fault::LargeFault;
use relaxations::{Verdict, judge};
use spanprof_command::{Report, Status, kind_name};
use std::alloc::Global;
use task_program::AllocFault;
use task_program::name_key::NameKey;
use task_segments::table::LargeTable;

/// Whether the program behind the divider waits for no more than the one with this text and this
/// table, or the first fault of the text there.
pub(crate) fn tell_change(
    alloc: Global,
    key: NameKey,
    program: &[u8],
    rest: &[u8],
    old: LargeTable,
) -> Result<Report, AllocFault>
    requires { FitsText rest.now }
    ensures { IfOk result (λ report. SaysOfChange program.now rest.now old report) }
{
    match read_table(alloc, key, rest)? {
        Ok(new) => judge_change(alloc, &old, &new),
        Err(fault) => changed_refused(alloc, count_lines(program), fault),
    }
}

/// The report on two programs.
fn judge_change(alloc: Global, old: &LargeTable, new: &LargeTable) -> Result<Report, AllocFault>
    ensures { IfOk result (λ report. TellsVerdict old.now new.now report) }
{
    let verdict = judge(alloc, old, new)?;
    tell_verdict(alloc, verdict)
}

fn tell_verdict(alloc: Global, verdict: Verdict) -> Result<Report, AllocFault>
    ensures { IfOk result (λ report. report ≡ verdict_report verdict) }
{
    match verdict {
        Verdict::WaitsForNoMore => Report::of_line(alloc, b"accepted\n", Status::Done),
        Verdict::WrongCount => refused_as(alloc, "WrongCount"),
        Verdict::OtherSegment(s) => of_segment(alloc, "OtherSegment", s),
        Verdict::NewPair { s, t } => refused_pair(alloc, "NewPair", s, t),
    }
}

/// The first fault of a text behind a divider, before which so many lines have ended.
fn changed_refused(alloc: Global, before: usize, fault: LargeFault) -> Result<Report, AllocFault>
    ensures { IfOk result (λ report. report ≡ changed_refusal before fault) }
{
    // The sum may pass what a length can be.
    let number = before as u128 + fault.line as u128 + 1;
    numbered(alloc, number, kind_name(fault.kind))
}
