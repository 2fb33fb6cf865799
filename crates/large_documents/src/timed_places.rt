//! The report on the places of a program and the times of a run.
ghost use Rattle.std.specs.Prelude.{◌≡◌, ◌+◌, ◌<◌, ◌≤◌, ◌^◌, IfOk, length, sum};
ghost use Rattle.csv_table.specs.Tables.{numbered_table};
ghost use Rattle.dispatch_core.specs.RecordedGraph.{Precedes};
ghost use Rattle.time_accounts.specs.Faults.{IsRanged};
ghost use Rattle.time_accounts.specs.BySegment.{delayed_by_segment as delayed_by_segment_of};
ghost use Rattle.time_accounts.specs.BySegment.{starved_by_segment as starved_by_segment_of};
ghost use Rattle.time_accounts.specs.TimedRun.{IsTimedRun, durations};
ghost use Rattle.large_documents.specs.PlaceSteps.{AreSums};
ghost use Rattle.large_documents.specs.Places.{segments_of};
ghost use Rattle.large_documents.specs.TimedPlaces.{TellsTimedSums, timed_header, timed_line};
ghost use Rattle.large_documents.specs.RunReading.{MayTell, SaysOfRead, TellsOfRead};

use crate::accounts::{RunRead, read_run};
use crate::places::{PlaceSums, analysed_sums, place_count, place_row};
use csv_table::Table;
use dispatch_core::graph::Graph;
use spanprof_command::{Report, Status};
use std::alloc::Global;
use task_program::AllocFault;
use time_accounts::by_segment::{busy_by_segment, delayed_by_segment, starved_by_segment};
use time_accounts::region::Region;
use time_accounts::times::Times;
use time_text::RegionTimes;

/// The report on the places of a graph's segments and the times of a run behind a divider, before
/// which so many lines have ended.
pub(crate) fn tell_timed(
    alloc: Global,
    before: usize,
    times: &[u8],
    graph: &Graph,
    places: &[u32],
) -> Result<Report, AllocFault>
    requires { length places.now ≡ length graph.now.costs }
    ensures { IfOk result (λ report. SaysOfRead (TellsTimedSums places.now) graph.now before
        times.now report) }
{
    let read = read_run(alloc, before, times, graph)?;
    tell_read(alloc, graph, read, places)
}

/// The report on the places and on the times that were read, or were not.
fn tell_read(
    alloc: Global,
    graph: &Graph,
    read: RunRead,
    places: &[u32],
) -> Result<Report, AllocFault>
    requires each { length places.now ≡ length graph.now.costs }
    requires read { MayTell graph.now read }
    ensures { IfOk result (TellsOfRead (TellsTimedSums places.now) graph.now read) }
{
    match read {
        RunRead::Legal(region, times) => tell_run_at(alloc, graph, region, &times, places),
        RunRead::Refused(report) => Ok(report),
    }
}

/// The report on the places of a legal run's segments.
fn tell_run_at(
    alloc: Global,
    graph: &Graph,
    region: RegionTimes,
    times: &Times,
    places: &[u32],
) -> Result<Report, AllocFault>
    requires each { length places.now ≡ length graph.now.costs }
    requires legal { IsTimedRun (length graph.now.costs) (Precedes graph.now)
        region.threads region.first region.last times.now }
    requires within { IsRanged (length graph.now.costs) region.threads region.first region.last
        times.now }
    ensures { IfOk result (λ report. TellsTimedSums places.now graph.now region times.now report) }
{
    let sums = analysed_sums(alloc, graph, places)?;
    let busy = busy_by_place(alloc, graph, region, times, places)?;
    let delayed = delayed_by_place(alloc, graph, region, times, places)?;
    let starved = starved_by_place(alloc, graph, region, times, places)?;
    let text = timed_table(
        alloc,
        sums.as_slice(),
        busy.as_slice(),
        delayed.as_slice(),
        starved.as_slice(),
    )?;
    Ok(Report::new(text, Status::Done))
}

fn region_of(times: RegionTimes) -> Region
    ensures { result ≡ record { threads = times.threads; first = times.first; last = times.last } }
{
    Region {
        threads: times.threads,
        first: times.first,
        last: times.last,
    }
}

/// How long the segments of each place ran.
fn busy_by_place(
    alloc: Global,
    graph: &Graph,
    region: RegionTimes,
    times: &Times,
    places: &[u32],
) -> Result<Vec<u64>, AllocFault>
    requires each { length places.now ≡ length graph.now.costs }
    requires legal { IsTimedRun (length graph.now.costs) (Precedes graph.now)
        region.threads region.first region.last times.now }
    requires within { IsRanged (length graph.now.costs) region.threads region.first region.last
        times.now }
    ensures { IfOk result (λ sums. AreSums places.now (durations times.now)
        (segments_of places.now) sums.items) }
{
    let busy = busy_by_segment(alloc, times)?;
    sum_by_place(alloc, places, busy.as_slice())
}

/// How long threads were delayed while a segment of each place had been ready longest.
fn delayed_by_place(
    alloc: Global,
    graph: &Graph,
    region: RegionTimes,
    times: &Times,
    places: &[u32],
) -> Result<Vec<u64>, AllocFault>
    requires each { length places.now ≡ length graph.now.costs }
    requires legal { IsTimedRun (length graph.now.costs) (Precedes graph.now)
        region.threads region.first region.last times.now }
    requires within { IsRanged (length graph.now.costs) region.threads region.first region.last
        times.now }
    ensures { IfOk result (λ sums. AreSums places.now (delayed_by_segment_of graph.now
        region.threads region.first region.last times.now) (segments_of places.now) sums.items) }
{
    dispatch_core::laws::is_graph(graph);
    let delayed = delayed_by_segment(alloc, graph, region_of(region), times)?;
    sum_by_place(alloc, places, delayed.as_slice())
}

/// How long they starved while a segment of each place had run longest.
fn starved_by_place(
    alloc: Global,
    graph: &Graph,
    region: RegionTimes,
    times: &Times,
    places: &[u32],
) -> Result<Vec<u64>, AllocFault>
    requires each { length places.now ≡ length graph.now.costs }
    requires legal { IsTimedRun (length graph.now.costs) (Precedes graph.now)
        region.threads region.first region.last times.now }
    requires within { IsRanged (length graph.now.costs) region.threads region.first region.last
        times.now }
    ensures { IfOk result (λ sums. AreSums places.now (starved_by_segment_of graph.now
        region.threads region.first region.last times.now) (segments_of places.now) sums.items) }
{
    dispatch_core::laws::is_graph(graph);
    let starved = starved_by_segment(alloc, graph, region_of(region), times)?;
    sum_by_place(alloc, places, starved.as_slice())
}

/// Of numbers of each segment the sum of those of each place.
fn sum_by_place(alloc: Global, places: &[u32], numbers: &[u64]) -> Result<Vec<u64>, AllocFault>
    requires each { length numbers.now ≡ length places.now }
    requires little { sum numbers.now < 2 ^ 64 }
    ensures { IfOk result (λ sums. AreSums places.now numbers.now (segments_of places.now)
        sums.items) }
{
    let mut sums = vec![in alloc; 0u64; place_count(places)]?;
    for segment in 0..places.len() {
        sums[places[segment] as usize] += numbers[segment];
    }
    Ok(sums)
}

/// A row for each place.
fn timed_table(
    alloc: Global,
    sums: &[PlaceSums],
    busy: &[u64],
    delayed: &[u64],
    starved: &[u64],
) -> Result<Vec<u8>, AllocFault>
    requires busy { length busy.now ≡ length sums.now }
    requires delayed { length delayed.now ≡ length sums.now }
    requires starved { length starved.now ≡ length sums.now }
    ensures { IfOk result (λ text. text.items ≡ numbered_table timed_header
        (timed_line sums.now busy.now delayed.now starved.now) 0 (length sums.now)) }
{
    let header = [
        "place", "segments", "work", "on_path", "path", "slack", "busy", "delayed", "starved",
    ];
    let mut rows = Table::new(alloc, &header)?;
    for place in 0..sums.len() {
        rows = rows.with_row(&timed_line(sums, busy, delayed, starved, place))?;
    }
    rows.into_text()
}

fn timed_line(
    sums: &[PlaceSums],
    busy: &[u64],
    delayed: &[u64],
    starved: &[u64],
    place: usize,
) -> [Option<u64>; 9]
    requires sums { place < length sums.now }
    requires busy { place < length busy.now }
    requires delayed { place < length delayed.now }
    requires starved { place < length starved.now }
    ensures { result ≡ timed_line sums.now busy.now delayed.now starved.now
        place }
{
    let [number, segments, work, on_path, path, slack] = place_row(sums, place);
    [
        number,
        segments,
        work,
        on_path,
        path,
        slack,
        Some(busy[place]),
        Some(delayed[place]),
        Some(starved[place]),
    ]
}
