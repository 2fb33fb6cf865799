//! What the program answers where it takes work and span of a text, and the line of a text that is
//! no program.
ghost use Rattle.std.specs.Prelude.{◌≡◌, [], List, ℕ, IfOk, MatchResult};
ghost use Rattle.command_words.specs.declared.large.LargeRequest.TheVariants.{OfMeter};
ghost use Rattle.command_words.specs.declared.large.MeterRequest.TheVariants.{Numbers};
ghost use Rattle.large_text.specs.Measured.{IsTableOfText};
ghost use Rattle.large_text.specs.Streamed.{CanTakeBytes, HasTaken};
ghost use Rattle.spanprof_command.specs.Report.{program_refusal};
ghost use Rattle.large_command.specs.LargeReports.{Answers, IsOfProgram, RefusesText, TellsMeter};
ghost use Rattle.large_command.specs.LargeReports.{numbers_report};

use crate::bound_rows::bounds;
use command_words::large::MeterRequest;
use large_text::TextMeter;
use large_text::fault::LargeFault;
use online_span::Meter;
use spanprof_command::{Report, Status, kind_name};
use std::alloc::Global;
use task_program::AllocFault;
use task_program::fault::ReadKind;
use task_segments::table::LargeTable;

/// What a meter answers about a text that it has taken, or the line of its first fault.
pub(crate) fn answer_meter(
    alloc: Global,
    asked: MeterRequest,
    text: TextMeter,
) -> Result<Report, AllocFault>
    requires { CanTakeBytes [] text }
    ensures { IfOk result (λ report. (bytes : List ℕ) → HasTaken bytes text
        → Answers (OfMeter asked) bytes report) }
{
    match text.finish() {
        Ok(meter) => tell(alloc, asked, &meter),
        Err(fault) => {
            if fault.kind == ReadKind::OutOfMemory {
                return Err(AllocFault);
            }
            text_refusal(alloc, fault)
        }
    }
}

/// The table of a text that a meter has taken, or the line of its first fault.
pub(crate) fn table_or_refusal(
    alloc: Global,
    text: TextMeter,
) -> Result<Result<LargeTable, Report>, AllocFault>
    requires { CanTakeBytes [] text }
    ensures { IfOk result (λ read. (bytes : List ℕ) → HasTaken bytes text
        → MatchResult read (IsTableOfText bytes) (RefusesText bytes)) }
{
    match text.finish_table() {
        Ok(Some(table)) => Ok(Ok(table)),
        // There are more rows than are numbered.
        Ok(None) => Err(AllocFault),
        Err(fault) => {
            if fault.kind == ReadKind::OutOfMemory {
                return Err(AllocFault);
            }
            Ok(Err(text_refusal(alloc, fault)?))
        }
    }
}

/// The line of a text that is no program.
pub(crate) fn text_refusal(alloc: Global, fault: LargeFault) -> Result<Report, AllocFault>
    ensures { IfOk result (λ report. report ≡ program_refusal fault) }
{
    refusal(alloc, fault.kind, fault.line)
}

fn refusal(alloc: Global, kind: ReadKind, line: u64) -> Result<Report, AllocFault>
    ensures { IfOk result (λ report.
        report ≡ program_refusal (record { kind = kind; line = line })) }
{
    let name = kind_name(kind);
    let text = format!(in alloc; "error: line {line}: {name}\n")?;
    Ok(Report::new(text.into_bytes(), Status::Refused))
}

/// What is asked of a program that a meter has taken.
fn tell(alloc: Global, asked: MeterRequest, meter: &Meter) -> Result<Report, AllocFault>
    requires { IsOfProgram meter.now }
    ensures { IfOk result (λ report. TellsMeter asked meter.now report) }
{
    match asked {
        MeterRequest::Numbers => numbers(alloc, meter),
        MeterRequest::Bounds { upto } => bounds(alloc, upto, meter),
    }
}

/// What a meter answers once it has taken all of a text.
fn numbers(alloc: Global, meter: &Meter) -> Result<Report, AllocFault>
    ensures { IfOk result (λ report. TellsMeter Numbers meter.now report) }
{
    numbers_report(
        alloc,
        meter.tasks(),
        meter.segments(),
        meter.total_work(),
        meter.span(),
    )
}

/// Each number on a line of its own.
fn numbers_report(
    alloc: Global,
    tasks: u64,
    segments: u64,
    work: u64,
    span: u64,
) -> Result<Report, AllocFault>
    ensures { IfOk result (λ report. report ≡ numbers_report tasks segments work span) }
{
    let text = format!(in alloc; "tasks {tasks}\nsegments {segments}\nwork {work}\nspan {span}\n")?;
    Ok(Report::new(text.into_bytes(), Status::Done))
}
