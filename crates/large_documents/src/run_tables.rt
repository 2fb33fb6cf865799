//! The report on a legal run: its sums, its rows and its own path.
ghost use Rattle.std.specs.Prelude.{◌≡◌, ◌<◌, ◌≤◌, IfOk, length};
ghost use Rattle.dispatch_core.specs.RecordedGraph.{Precedes};
ghost use Rattle.task_segments.specs.Schedule.{at};
ghost use Rattle.time_accounts.specs.TimedRun.{IsTimedRun};
ghost use Rattle.large_documents.specs.Accounts.{TellsPath, TellsRun, path_header, path_row};
ghost use Rattle.large_documents.specs.Accounts.{path_table, rows_header, rows_report, rows_row};
ghost use Rattle.large_documents.specs.Accounts.{idle_lines, region_lines, sums_of, sums_report};
ghost use Rattle.large_documents.specs.Accounts.{wait_at};
ghost use Rattle.large_documents.specs.TimesOfEach.{AreMembers, AreTimes};
ghost use Rattle.csv_table.specs.Tables.{numbered_table};

use command_words::large::AccountRequest;
use csv_table::Table;
use dispatch_core::graph::Graph;
use spanprof_command::{Report, Status};
use std::alloc::Global;
use task_program::AllocFault;
use time_accounts::account::{Account, account_of};
use time_accounts::path::own_path;
use time_accounts::ready::ready_moments;
use time_accounts::region::Region;
use time_accounts::times::Times;
use time_text::RegionTimes;

/// What is asked of a legal run.
pub(crate) fn tell_run(
    alloc: Global,
    asked: AccountRequest,
    graph: &Graph,
    region: RegionTimes,
    times: &Times,
) -> Result<Report, AllocFault>
    requires { IsTimedRun (length graph.now.costs) (Precedes graph.now)
        region.threads region.first region.last times.now }
    ensures { IfOk result (λ report. TellsRun asked graph.now region times.now report) }
{
    match asked {
        AccountRequest::Sums => tell_sums(alloc, graph, region, times),
        AccountRequest::Rows => tell_rows(alloc, graph, region, times),
        AccountRequest::Path => tell_path(alloc, graph, times),
    }
}

fn tell_sums(
    alloc: Global,
    graph: &Graph,
    region: RegionTimes,
    times: &Times,
) -> Result<Report, AllocFault>
    requires { region.first ≤ region.last }
    ensures { IfOk result (λ report. report ≡ sums_of graph.now region times.now) }
{
    let RegionTimes {
        threads,
        first,
        last,
    } = region;
    let within = Region {
        threads,
        first,
        last,
    };
    match account_of(alloc, graph, within, times) {
        Ok(account) => sums_report(alloc, threads, last - first, &account),
        Err(_) => Err(AllocFault),
    }
}

/// Each sum on a line of its own.
fn sums_report(
    alloc: Global,
    threads: u32,
    elapsed: u64,
    account: &Account,
) -> Result<Report, AllocFault>
    ensures { IfOk result (λ report. report ≡ sums_report threads elapsed account.now) }
{
    let mut text = region_lines(alloc, threads, elapsed, account.busy())?;
    let idle = idle_lines(
        alloc,
        account.delayed(),
        account.starved(),
        account.outside(),
    )?;
    text.extend_from_slice(idle.as_slice())?;
    Ok(Report::new(text, Status::Done))
}

/// How many threads, for how long, and how long they ran segments.
fn region_lines(alloc: Global, threads: u32, elapsed: u64, busy: u64) -> Result<Vec<u8>, AllocFault>
    ensures { IfOk result (λ text. text.items ≡ region_lines threads elapsed busy) }
{
    let text = format!(in alloc; "threads {threads}\nelapsed {elapsed}\nbusy {busy}\n")?;
    Ok(text.into_bytes())
}

/// How long they did not.
fn idle_lines(
    alloc: Global,
    delayed: u64,
    starved: u64,
    outside: u64,
) -> Result<Vec<u8>, AllocFault>
    ensures { IfOk result (λ text. text.items ≡ idle_lines delayed starved outside) }
{
    let text = format!(in alloc; "delayed {delayed}\nstarved {starved}\noutside {outside}\n")?;
    Ok(text.into_bytes())
}

fn tell_rows(
    alloc: Global,
    graph: &Graph,
    region: RegionTimes,
    times: &Times,
) -> Result<Report, AllocFault>
    requires { AreTimes (length graph.now.costs) times.now }
    ensures { IfOk result (λ report. report ≡ rows_report graph.now region times.now) }
{
    let readies = ready_moments(alloc, graph, times)?;
    let text = rows_table(alloc, graph.len(), region.first, readies.as_slice(), times)?;
    Ok(Report::new(text, Status::Done))
}

/// A row for each segment.
fn rows_table(
    alloc: Global,
    count: u32,
    first: u64,
    readies: &[u64],
    times: &Times,
) -> Result<Vec<u8>, AllocFault>
    requires times { AreTimes count times.now }
    requires readies { length readies.now ≡ count }
    ensures { IfOk result (λ text. text.items
        ≡ numbered_table rows_header (rows_row first readies.now times.now) 0 count) }
{
    let header = ["segment", "thread", "ready", "begin", "end"];
    let mut rows = Table::new(alloc, &header)?;
    for segment in 0..count {
        rows = rows.with_row(&rows_row(first, readies, times, segment))?;
    }
    rows.into_text()
}

fn rows_row(first: u64, readies: &[u64], times: &Times, segment: u32) -> [Option<u64>; 5]
    requires thread { segment < length times.now.threads }
    requires ready { segment < length readies.now }
    requires begin { segment < length times.now.begins }
    requires end { segment < length times.now.ends }
    ensures { result ≡ rows_row first readies.now times.now segment }
{
    let place = segment as usize;
    let thread = times.threads()[place];
    let ready = first.max(readies[place]);
    [
        Some(u64::from(segment)),
        Some(u64::from(thread)),
        Some(ready),
        Some(times.begins()[place]),
        Some(times.ends()[place]),
    ]
}

fn tell_path(alloc: Global, graph: &Graph, times: &Times) -> Result<Report, AllocFault>
    requires { AreTimes (length graph.now.costs) times.now }
    ensures { IfOk result (λ report. TellsPath graph.now times.now report) }
{
    let path = own_path(alloc, graph, times)?;
    let text = path_table(alloc, times, path.as_slice())?;
    Ok(Report::new(text, Status::Done))
}

/// A row for each member of a path.
fn path_table(alloc: Global, times: &Times, path: &[u32]) -> Result<Vec<u8>, AllocFault>
    requires { AreMembers times.now path.now }
    ensures { IfOk result (λ text. text.items
        ≡ numbered_table path_header (path_row times.now path.now) 0 (length path.now)) }
{
    let header = ["segment", "wait", "duration"];
    let mut rows = Table::new(alloc, &header)?;
    for place in 0..path.len() {
        rows = rows.with_row(&path_row(times, path, place))?;
    }
    rows.into_text()
}

fn path_row(times: &Times, path: &[u32], place: usize) -> [Option<u64>; 3]
    requires members { AreMembers times.now path.now }
    requires inside { place < length path.now }
    ensures { result ≡ path_row times.now path.now place }
{
    let member = path[place];
    let duration = end_of(times, member).saturating_sub(begin_of(times, member));
    [
        Some(u64::from(member)),
        Some(wait_at(times, path, place)),
        Some(duration),
    ]
}

/// How long the member at this place was ready before it began, 0 for the first.
fn wait_at(times: &Times, path: &[u32], place: usize) -> u64
    requires members { AreMembers times.now path.now }
    requires inside { place < length path.now }
    ensures { result ≡ wait_at times.now path.now place }
{
    if place == 0 {
        return 0;
    }
    begin_of(times, path[place]).saturating_sub(end_of(times, path[place - 1]))
}

fn begin_of(times: &Times, segment: u32) -> u64
    requires { segment < length times.now.begins }
    ensures { result ≡ at times.now.begins segment }
{
    times.begins()[segment as usize]
}

fn end_of(times: &Times, segment: u32) -> u64
    requires { segment < length times.now.ends }
    ensures { result ≡ at times.now.ends segment }
{
    times.ends()[segment as usize]
}
