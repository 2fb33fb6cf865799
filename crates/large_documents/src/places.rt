//! The report on a program and the places of its segments.
ghost use Rattle.std.specs.Prelude.{◌≡◌, ◌+◌, ◌-◌, ◌<◌, ◌^◌, [], IfErr, IfOk, OnOk, Some, length};
ghost use Rattle.csv_table.specs.Tables.{numbered_table};
ghost use Rattle.large_documents.specs.PlaceReports.{SaysOfPlaces, TellsFault, TellsSums};
ghost use Rattle.large_documents.specs.PlaceSteps.{AreAnalysedSums, ArePlaceSums, CanCount};
ghost use Rattle.large_documents.specs.PlaceSteps.{IsPathWithin, IsWordFault};
ghost use Rattle.large_documents.specs.PlaceSteps.{next_places, with_member, with_segment};
ghost use Rattle.large_documents.specs.Places.{ArePlaces, IsPlacesFault, place_count, place_row};
ghost use Rattle.large_documents.specs.Places.{places_header, segments_of};

use crate::time_refusals::{count_lines, refused_as};
use crate::timed_places::tell_timed;
use csv_table::Table;
use dispatch_core::graph::{Graph, graph_of};
use span_analysis::analysis::{Analysis, analyse};
use spanprof_command::{Report, Status};
use std::alloc::Global;
use task_program::AllocFault;
use task_program::document::{Document, split_document};
use task_program::plain_words::{is_blank, read_number};
use task_segments::table::LargeTable;

/// The sums of one place.
#[derive(Clone, Copy, Debug, PartialEq, Eq)]
pub struct PlaceSums {
    /// How many segments it has.
    pub segments: u64,
    /// The sum of their costs.
    pub work: u64,
    /// How many of them stand on the critical path.
    pub on_path: u64,
    /// The sum of the costs of these.
    pub path: u64,
    /// The least of their slacks.
    pub slack: Option<u64>,
}

/// Why a text does not give the places of segments.
#[derive(Clone, Copy, Debug, PartialEq, Eq)]
pub enum PlacesFault {
    /// A word is no number of a place.
    BadForm,
    /// There are more words, or fewer, than segments.
    Count,
    /// An allocation failed.
    OutOfMemory,
}

/// The sums of a place without segments.
const NO_SUMS: PlaceSums = PlaceSums {
    segments: 0,
    work: 0,
    on_path: 0,
    path: 0,
    slack: None,
};

/// The report on a program with this text and this table, on the places behind it, and on the
/// times of a run behind these, if there are any. The table is dropped once its graph is made.
pub(crate) fn tell_places(
    alloc: Global,
    program: &[u8],
    rest: &[u8],
    table: LargeTable,
) -> Result<Report, AllocFault>
    requires { length program.now < 2 ^ 63 - 1 }
    ensures { IfOk result (λ report. SaysOfPlaces program.now rest.now table report) }
{
    span_analysis::laws::same_findings(&table);
    let graph = graph_of(alloc, &table)?;
    drop(table);
    let Document {
        program: given,
        rest: times,
    } = split_document(rest);
    match read_places(alloc, given, graph.len()) {
        Ok(places) => match times {
            None => tell_sums(alloc, &graph, places.as_slice()),
            Some(times) => {
                let before = count_lines(program) + count_lines(given) + 1;
                tell_timed(alloc, before, times, &graph, places.as_slice())
            }
        },
        Err(fault) => places_refused(alloc, fault),
    }
}

/// Why places are refused.
fn places_refused(alloc: Global, fault: PlacesFault) -> Result<Report, AllocFault>
    ensures { IfOk result (λ report. TellsFault fault report) }
{
    match fault {
        PlacesFault::BadForm => refused_as(alloc, "BadForm"),
        PlacesFault::Count => refused_as(alloc, "Count"),
        PlacesFault::OutOfMemory => Err(AllocFault),
    }
}

/// The report on the places of a graph's segments.
fn tell_sums(alloc: Global, graph: &Graph, places: &[u32]) -> Result<Report, AllocFault>
    requires { length places.now ≡ length graph.now.costs }
    ensures { IfOk result (λ report. TellsSums graph.now places.now report) }
{
    let sums = analysed_sums(alloc, graph, places)?;
    let text = places_table(alloc, sums.as_slice())?;
    Ok(Report::new(text, Status::Done))
}

/// The sums of each place, by an analysis of the graph.
pub(crate) fn analysed_sums(
    alloc: Global,
    graph: &Graph,
    places: &[u32],
) -> Result<Vec<PlaceSums>, AllocFault>
    requires { length places.now ≡ length graph.now.costs }
    ensures { IfOk result (λ sums. AreAnalysedSums graph.now places.now sums.items) }
{
    dispatch_core::laws::is_graph(graph);
    let found = analyse(alloc, graph)?;
    sums_by_place(alloc, graph.costs(), &found, places)
}

/// Reads the places of so many segments: the number of one for each of them, in their order. Each
/// is below the number of segments.
fn read_places(alloc: Global, text: &[u8], count: u32) -> Result<Vec<u32>, PlacesFault>
    requires { 0 < count }
    ensures told { IfOk result (λ places. ArePlaces count text.now places.items) }
    ensures refused { IfErr result (IsPlacesFault count text.now) }
{
    let mut places = Vec::new(alloc);
    for word in text.split(|byte| is_blank(*byte)) {
        if word.is_empty() {
            continue;
        }
        take_place(&mut places, word, count)?;
    }
    if places.len() == count as usize {
        Ok(places)
    } else {
        Err(PlacesFault::Count)
    }
}

/// Takes one word more.
fn take_place(places: &mut Vec<u32>, word: &[u8], count: u32) -> Result<(), PlacesFault>
    requires { 0 < count }
    ensures taken { OnOk result (next_places count places.old.items word.now
        ≡ Some places.new.items) }
    ensures refused { IfErr result (IsWordFault count places.old.items word.now) }
{
    match read_number(word, u64::from(count - 1)) {
        Some(place) => {
            if places.push(place as u32).is_err() {
                return Err(PlacesFault::OutOfMemory);
            }
            Ok(())
        }
        None => Err(PlacesFault::BadForm),
    }
}

/// The sums of each place up to the largest.
fn sums_by_place(
    alloc: Global,
    costs: &[u64],
    found: &Analysis,
    places: &[u32],
) -> Result<Vec<PlaceSums>, AllocFault>
    requires known { CanCount places.now costs.now found.now.slacks }
    requires path { IsPathWithin places.now costs.now found.now.chain }
    ensures { IfOk result (λ sums. ArePlaceSums places.now costs.now found.now.slacks
        (segments_of places.now) found.now.chain sums.items) }
{
    let mut sums = vec![in alloc; NO_SUMS; place_count(places)]?;
    add_segments(sums.as_mut_slice(), places, costs, found);
    add_path(sums.as_mut_slice(), places, costs, found);
    Ok(sums)
}

/// One more than the largest place.
#[tactic(auto, using(crate::proofs::PlaceCounts::count_more))]
pub(crate) fn place_count(places: &[u32]) -> usize
    ensures { result ≡ place_count places.now }
{
    let mut count = 0;
    for place in places {
        count = count.max(*place as usize + 1);
    }
    count
}

/// Adds each segment to its place.
fn add_segments(sums: &mut [PlaceSums], places: &[u32], costs: &[u64], found: &Analysis)
    requires known { CanCount places.now costs.now found.now.slacks }
    requires none { ArePlaceSums places.now costs.now found.now.slacks [] [] sums.old }
    ensures { ArePlaceSums places.now costs.now found.now.slacks (segments_of places.now) []
        sums.new }
{
    for segment in 0..places.len() {
        let place = places[segment] as usize;
        sums[place] = with_segment(sums[place], costs[segment], found.slack(segment as u32));
    }
}

/// Adds each member of the critical path to its place.
fn add_path(sums: &mut [PlaceSums], places: &[u32], costs: &[u64], found: &Analysis)
    requires known { CanCount places.now costs.now found.now.slacks }
    requires path { IsPathWithin places.now costs.now found.now.chain }
    requires segments { ArePlaceSums places.now costs.now found.now.slacks
        (segments_of places.now) [] sums.old }
    ensures { ArePlaceSums places.now costs.now found.now.slacks (segments_of places.now)
        found.now.chain sums.new }
{
    for member in found.chain() {
        let segment = *member as usize;
        let place = places[segment] as usize;
        sums[place] = with_member(sums[place], costs[segment]);
    }
}

/// The sums of a place with one more segment.
fn with_segment(sums: PlaceSums, cost: u64, slack: u64) -> PlaceSums
    requires segments { sums.segments + 1 < 2 ^ 64 }
    requires work { sums.work + cost < 2 ^ 64 }
    ensures { result ≡ with_segment sums cost slack }
{
    let least = match sums.slack {
        None => slack,
        Some(least) => slack.min(least),
    };
    PlaceSums {
        segments: sums.segments + 1,
        work: sums.work + cost,
        on_path: sums.on_path,
        path: sums.path,
        slack: Some(least),
    }
}

/// The sums of a place with one more segment of the path.
fn with_member(sums: PlaceSums, cost: u64) -> PlaceSums
    requires members { sums.on_path + 1 < 2 ^ 64 }
    requires path { sums.path + cost < 2 ^ 64 }
    ensures { result ≡ with_member sums cost }
{
    PlaceSums {
        on_path: sums.on_path + 1,
        path: sums.path + cost,
        ..sums
    }
}

/// A row for each place.
fn places_table(alloc: Global, sums: &[PlaceSums]) -> Result<Vec<u8>, AllocFault>
    ensures { IfOk result (λ text. text.items
        ≡ numbered_table places_header (place_row sums.now) 0 (length sums.now)) }
{
    let header = ["place", "segments", "work", "on_path", "path", "slack"];
    let mut rows = Table::new(alloc, &header)?;
    for place in 0..sums.len() {
        rows = rows.with_row(&place_row(sums, place))?;
    }
    rows.into_text()
}

pub(crate) fn place_row(sums: &[PlaceSums], place: usize) -> [Option<u64>; 6]
    requires { place < length sums.now }
    ensures { result ≡ place_row sums.now place }
{
    let of = sums[place];
    [
        Some(place as u64),
        Some(of.segments),
        Some(of.work),
        Some(of.on_path),
        Some(of.path),
        of.slack,
    ]
}
