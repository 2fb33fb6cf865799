//! Segments that start too soon: for each segment, those that it has to wait for.
ghost use Rattle.std.specs.Prelude.{◌≡◌, ◌+◌, ◌<◌, ◌↔◌, IfOk, IsTrue, MatchOption, length};
ghost use Rattle.task_segments.specs.Precedence.{IsSegment};
ghost use Rattle.span_cert.specs.Claims.{moments_of_starts};
ghost use Rattle.span_cert.specs.Tests.{FirstBroken, IsBroken, NoneIsBroken};
ghost use Rattle.span_cert.specs.BrokenPairs.{AreColumns, AreEnds, IsColumn, IsEarliestPair};
ghost use Rattle.span_cert.specs.BrokenPairs.{IsRow, earlier_pair};

use crate::claim::Start;
use crate::ends::ends_of;
use crate::name_marks::NameMarks;
use crate::opening::{may_wait, opening_of};
use rayon::prelude::*;
use std::alloc::Global;
use std::thread::Threads;
use task_program::AllocFault;
use task_segments::table::BoundedTable;

/// The segments are dealt out to so many columns, one after another, so that each thread gets rows
/// of all lengths.
const COLUMNS: u32 = 64;

/// Whether a start lies before the end of a segment that starts at `before`.
pub(crate) fn is_too_soon(start: u64, before: u64, cost: u64) -> bool
    ensures { IsTrue result ↔ start < before + cost }
{
    start < before || start - before < cost
}

/// Whether t has to wait for s and starts before s ends. The times are compared first, since that
/// is the quicker test.
pub(crate) fn is_broken<const SEGMENTS: u32, const TASKS: u32>(
    table: &BoundedTable<SEGMENTS, TASKS>,
    starts: &[Start],
    s: u32,
    t: u32,
) -> bool
    requires each { length starts.now ≡ length table.now.segments }
    requires from { IsSegment table.now s }
    requires to { IsSegment table.now t }
    ensures { IsTrue result ↔ IsBroken table.now (moments_of_starts starts.now) s t }
{
    is_too_soon(
        starts[t as usize].moment,
        starts[s as usize].moment,
        table.cost(s),
    ) && table.must_precede(s, t)
}

/// The smallest segment that t has to wait for and does not; none for a number that is no segment.
/// The ends are looked at first, since most segments have ended by then, and then at what t can
/// have to wait for at all.
fn broken_in_row<const SEGMENTS: u32, const TASKS: u32>(
    table: &BoundedTable<SEGMENTS, TASKS>,
    starts: &[Start],
    ends: &[u64],
    marks: &mut NameMarks,
    t: u32,
) -> Result<Option<u32>, AllocFault>
    requires each { length starts.now ≡ length table.now.segments }
    requires ends { AreEnds table.now (moments_of_starts starts.now) ends.now }
    ensures { IfOk result (IsRow table.now (moments_of_starts starts.now) t) }
{
    task_segments::laws::goes_up(table);
    if t >= table.len() {
        return Ok(None);
    }
    let opening = opening_of(table, marks, t)?;
    let start = starts[t as usize].moment.min(u64::MAX - 1);
    for s in 0..t {
        if start < ends[s as usize]
            && may_wait(table, marks, opening, s, t)
            && is_broken(table, starts, s, t)
        {
            return Ok(Some(s));
        }
    }
    Ok(None)
}

/// The pair of a column's segments that is broken and has the least second segment, and of these
/// the least first.
fn broken_in_column<const SEGMENTS: u32, const TASKS: u32>(
    table: &BoundedTable<SEGMENTS, TASKS>,
    starts: &[Start],
    ends: &[u64],
    marks: &mut NameMarks,
    column: u32,
) -> Result<Option<(u32, u32)>, AllocFault>
    requires each { length starts.now ≡ length table.now.segments }
    requires ends { AreEnds table.now (moments_of_starts starts.now) ends.now }
    ensures { IfOk result (IsColumn table.now (moments_of_starts starts.now) column) }
{
    task_segments::laws::within_rows(table);
    let mut t = column;
    while t < table.len() {
        let found = broken_in_row(table, starts, ends, marks, t)?;
        if let Some(s) = found {
            return Ok(Some((s, t)));
        }
        t += COLUMNS;
    }
    Ok(None)
}

/// What each column answers. The columns are gone through in parallel.
fn columns_of<const SEGMENTS: u32, const TASKS: u32>(
    rt: &(impl Threads + Sync),
    alloc: Global,
    table: &BoundedTable<SEGMENTS, TASKS>,
    starts: &[Start],
    ends: &[u64],
) -> Result<Vec<Option<(u32, u32)>>, AllocFault>
    requires each { length starts.now ≡ length table.now.segments }
    requires ends { AreEnds table.now (moments_of_starts starts.now) ends.now }
    ensures { IfOk result (λ columns.
        AreColumns table.now (moments_of_starts starts.now) columns.items) }
{
    let columns: Result<Vec<Option<(u32, u32)>>, AllocFault> = (0..COLUMNS)
        .into_par_iter()
        .with_min_len(1)
        .map_init(
            || NameMarks::new(alloc),
            |marks: &mut NameMarks, column: u32| -> Result<Option<(u32, u32)>, AllocFault>
                requires each { length starts.now ≡ length table.now.segments }
                requires ends { AreEnds table.now (moments_of_starts starts.now) ends.now }
                ensures { IfOk result
                    (IsColumn table.entry.now (moments_of_starts starts.entry.now) column) }
            { broken_in_column(table, starts, ends, marks, column) },
        )
        .collect(rt, alloc)?;
    columns
}

/// The pair of segments of which the second has to wait for the first and starts before that ends:
/// the one with the least second segment, and of these the one with the least first. The error is
/// out of memory.
pub(crate) fn first_broken<const SEGMENTS: u32, const TASKS: u32>(
    rt: &(impl Threads + Sync),
    alloc: Global,
    table: &BoundedTable<SEGMENTS, TASKS>,
    starts: &[Start],
) -> Result<Option<(u32, u32)>, AllocFault>
    requires each { length starts.now ≡ length table.now.segments }
    ensures { IfOk result (λ found.
        MatchOption found (NoneIsBroken table.now (moments_of_starts starts.now))
        (λ pair. FirstBroken table.now (moments_of_starts starts.now) pair.0 pair.1)) }
{
    let ends = ends_of(alloc, table, starts)?;
    let columns = columns_of(rt, alloc, table, starts, ends.as_slice())?;
    Ok(earliest_pair(columns.as_slice()))
}

/// The pair with the least second number.
fn earliest_pair(pairs: &[Option<(u32, u32)>]) -> Option<(u32, u32)>
    ensures { IsEarliestPair pairs.now (length pairs.now) result }
{
    let mut first = None;
    for place in 0..pairs.len() {
        first = earlier_pair(first, pairs[place]);
    }
    first
}

/// The one of two pairs with the lesser second number.
fn earlier_pair(one: Option<(u32, u32)>, other: Option<(u32, u32)>) -> Option<(u32, u32)>
    ensures { result ≡ earlier_pair one other }
{
    match (one, other) {
        (Some(first), Some(second)) => Some(if second.1 < first.1 { second } else { first }),
        (None, found) => found,
        (found, None) => found,
    }
}
