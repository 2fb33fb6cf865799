//! The table of bounds.
ghost use Rattle.std.specs.Prelude.{◌≡◌, ◌+◌, ◌<◌, ◌≤◌, IfOk};
ghost use Rattle.command_words.specs.declared.large.MeterRequest.TheVariants.{Bounds};
ghost use Rattle.csv_table.specs.Tables.{numbered_table};
ghost use Rattle.large_command.specs.LargeReports.{IsOfProgram, TellsMeter, bounds_header};
ghost use Rattle.large_command.specs.LargeReports.{bounds_report, bounds_row};

use csv_table::Table;
use online_span::Meter;
use spanprof_command::{Report, Status, bound, least};
use std::alloc::Global;
use task_program::AllocFault;

/// The bounds of a program that a meter has taken, on one thread, two, and so on.
pub(crate) fn bounds(alloc: Global, upto: u32, meter: &Meter) -> Result<Report, AllocFault>
    requires { IsOfProgram meter.now }
    ensures { IfOk result (λ report. TellsMeter (Bounds upto) meter.now report) }
{
    bounds_report(alloc, upto, meter.total_work(), meter.span())
}

fn bounds_report(alloc: Global, upto: u32, work: u64, span: u64) -> Result<Report, AllocFault>
    requires { span ≤ work }
    ensures { IfOk result (λ report. report ≡ bounds_report upto work span) }
{
    let text = bounds_table(alloc, upto, work, span)?;
    Ok(Report::new(text, Status::Done))
}

fn bounds_table(alloc: Global, upto: u32, work: u64, span: u64) -> Result<Vec<u8>, AllocFault>
    requires { span ≤ work }
    ensures { IfOk result (λ text.
        text.items ≡ numbered_table bounds_header (bounds_row work span) 1 upto) }
{
    let header = ["threads", "least", "bound"];
    let mut rows = Table::new(alloc, &header)?;
    for place in 0..upto {
        rows = rows.with_row(&bounds_row(work, span, place + 1))?;
    }
    rows.into_text()
}

fn bounds_row(work: u64, span: u64, threads: u32) -> [Option<u64>; 3]
    requires some { 1 ≤ threads }
    requires within { span ≤ work }
    ensures { result ≡ bounds_row work span threads }
{
    [
        Some(u64::from(threads)),
        Some(least(work, span, threads)),
        Some(bound(work, span, threads)),
    ]
}
