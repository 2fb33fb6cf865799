//! The report on a program and the times of a run of it.
ghost use Rattle.std.specs.Prelude.{◌≡◌, IfOk, length};
ghost use Rattle.large_documents.specs.AccountReports.{SaysOfAccount};
ghost use Rattle.large_documents.specs.Accounts.{TellsRun};
ghost use Rattle.large_documents.specs.RunReading.{IsJudged, IsRunRead, MayTell, TellsOfRead};
ghost use Rattle.large_documents.specs.Times.{run_of};

use crate::run_tables::tell_run;
use crate::time_refusals::{count_lines, text_refused, times_refused};
use command_words::large::AccountRequest;
use dispatch_core::graph::{Graph, graph_of};
use spanprof_command::Report;
use std::alloc::Global;
use task_program::AllocFault;
use task_segments::table::LargeTable;
use time_accounts::checks::check_times;
use time_accounts::fault::TimesFault;
use time_accounts::region::Region;
use time_accounts::times::Times;
use time_text::{RegionTimes, SegmentTimes, TimeTextFault, TimesText, read_times};

/// The report on a program with this text and this table, by the lines behind it: what is wrong
/// with the lines comes first, then why they are not the times of a legal run. The table is dropped
/// once its graph is made.
pub(crate) fn tell_account(
    alloc: Global,
    asked: AccountRequest,
    program: &[u8],
    rest: &[u8],
    table: LargeTable,
) -> Result<Report, AllocFault>
    ensures { IfOk result (λ report. SaysOfAccount asked program.now rest.now table report) }
{
    let graph = graph_of(alloc, &table)?;
    drop(table);
    dispatch_core::laws::is_graph(&graph);
    let read = read_run(alloc, count_lines(program), rest, &graph)?;
    tell_read(alloc, asked, &graph, read)
}

/// The report on times that were read, or were not.
fn tell_read(
    alloc: Global,
    asked: AccountRequest,
    graph: &Graph,
    read: RunRead,
) -> Result<Report, AllocFault>
    requires { MayTell graph.now read }
    ensures { IfOk result (TellsOfRead (TellsRun asked) graph.now read) }
{
    match read {
        RunRead::Legal(region, times) => tell_run(alloc, asked, graph, region, &times),
        RunRead::Refused(report) => Ok(report),
    }
}

/// The times of a legal run, or the report where there are none.
#[derive(Drop)]
pub(crate) enum RunRead {
    Legal(RegionTimes, Times),
    Refused(Report),
}

/// Reads the times of a run on a graph behind a divider, before which so many lines have ended.
pub(crate) fn read_run(
    alloc: Global,
    before: usize,
    rest: &[u8],
    graph: &Graph,
) -> Result<RunRead, AllocFault>
    ensures { IfOk result (IsRunRead graph.now before rest.now) }
{
    match read_times(alloc, rest, graph.len()) {
        Ok(told) => judge_run(alloc, graph, &told),
        Err(TimeTextFault::OutOfMemory) => Err(AllocFault),
        Err(fault) => Ok(RunRead::Refused(text_refused(alloc, before, fault)?)),
    }
}

/// Whether times are those of a legal run.
fn judge_run(alloc: Global, graph: &Graph, told: &TimesText) -> Result<RunRead, AllocFault>
    requires { length told.now.segments.items ≡ length graph.now.costs }
    ensures { IfOk result (IsJudged graph.now told.now.region told.now.segments.items) }
{
    let region = Region {
        threads: told.region.threads,
        first: told.region.first,
        last: told.region.last,
    };
    let times = times_of(alloc, told.segments.as_slice())?;
    match check_times(alloc, graph, region, &times) {
        Ok(()) => Ok(RunRead::Legal(told.region, times)),
        Err(TimesFault::OutOfMemory) => Err(AllocFault),
        Err(fault) => Ok(RunRead::Refused(times_refused(alloc, fault)?)),
    }
}

/// The times of a run in three lists.
fn times_of(alloc: Global, segments: &[SegmentTimes]) -> Result<Times, AllocFault>
    ensures { IfOk result (λ times. times ≡ run_of segments.now) }
{
    let mut threads = Vec::with_capacity(alloc, segments.len())?;
    let mut begins = Vec::with_capacity(alloc, segments.len())?;
    let mut ends = Vec::with_capacity(alloc, segments.len())?;
    for times in segments {
        threads.push(times.thread)?;
        begins.push(times.begin)?;
        ends.push(times.end)?;
    }
    Ok(Times::new(threads, begins, ends))
}
