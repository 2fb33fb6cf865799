//! The first segment that starts too soon, in a table of any size: its kept predecessors show which it
//! is, and the relation shows which segment it should have waited for.
ghost use Rattle.std.specs.Prelude.{◌≡◌, ◌<◌, ◌↔◌, IfOk, IsTrue, MatchOption, Some, length, ℕ};
ghost use Rattle.task_segments.specs.Precedence.{IsSegment};
ghost use Rattle.span_cert.specs.Claims.{moments_of_starts};
ghost use Rattle.span_cert.specs.Tests.{FirstBroken, IsBroken, NoneIsBroken};
ghost use Rattle.span_cert.specs.BrokenPairs.{IsRow};
ghost use Rattle.span_cert.specs.LateSegments.{IsFirstLate, IsLate, NoneIsLate};

use crate::broken_pairs::{is_broken, is_too_soon};
use crate::claim::Start;
use dispatch_core::graph::{Graph, graph_of};
use std::alloc::Global;
use task_program::AllocFault;
use task_segments::table::BoundedTable;

/// The smallest segment that t has to wait for and does not.
fn broken_before<const SEGMENTS: u32, const TASKS: u32>(
    table: &BoundedTable<SEGMENTS, TASKS>,
    starts: &[Start],
    t: u32,
) -> Option<u32>
    requires each { length starts.now ≡ length table.now.segments }
    requires to { IsSegment table.now t }
    ensures { IsRow table.now (moments_of_starts starts.now) t result }
{
    task_segments::laws::goes_up(table);
    for s in 0..t {
        if is_broken(table, starts, s, t) {
            return Some(s);
        }
    }
    None
}

/// Whether t starts before one of its predecessors ends.
fn is_late(graph: &Graph, starts: &[Start], t: u32) -> bool
    requires each { length starts.now ≡ length graph.now.costs }
    requires to { t < length graph.now.costs }
    ensures { IsTrue result ↔ IsLate graph.now (moments_of_starts starts.now) t }
{
    let start = starts[t as usize].moment;
    let preds = graph.preds(t);
    graph.len();
    for s in preds {
        if is_too_soon(start, starts[*s as usize].moment, graph.cost(*s)) {
            return true;
        }
    }
    false
}

/// The first segment that starts before one of its predecessors ends.
fn first_late(graph: &Graph, starts: &[Start]) -> Option<u32>
    requires each { length starts.now ≡ length graph.now.costs }
    ensures { MatchOption result (NoneIsLate graph.now (moments_of_starts starts.now))
        (IsFirstLate graph.now (moments_of_starts starts.now)) }
{
    for t in 0..graph.len() {
        if is_late(graph, starts, t) {
            return Some(t);
        }
    }
    None
}

/// The pair of segments of which the second has to wait for the first and starts before that ends:
/// the one with the least second segment, and of these the one with the least first. The second is
/// the first that starts before a kept predecessor ends, since kept predecessors have the same
/// chains as the whole relation. The error is out of memory.
pub(crate) fn first_broken_by_edges<const SEGMENTS: u32, const TASKS: u32>(
    alloc: Global,
    table: &BoundedTable<SEGMENTS, TASKS>,
    starts: &[Start],
) -> Result<Option<(u32, u32)>, AllocFault>
    requires each { length starts.now ≡ length table.now.segments }
    ensures { IfOk result (λ found.
        MatchOption found (NoneIsBroken table.now (moments_of_starts starts.now))
        (λ pair. FirstBroken table.now (moments_of_starts starts.now) pair.0 pair.1)) }
{
    open_segments::laws::serves_runs(table);
    let graph = graph_of(alloc, table)?;
    match first_late(&graph, starts) {
        Some(t) => Ok(Some((first_in_row(table, starts, t), t))),
        None => Ok(None),
    }
}

/// The smallest segment that t has to wait for and does not, where there is one.
fn first_in_row<const SEGMENTS: u32, const TASKS: u32>(
    table: &BoundedTable<SEGMENTS, TASKS>,
    starts: &[Start],
    t: u32,
) -> u32
    requires each { length starts.now ≡ length table.now.segments }
    requires some { (s : ℕ) × IsBroken table.now (moments_of_starts starts.now) s t }
    ensures { IsRow table.now (moments_of_starts starts.now) t (Some result) }
{
    match broken_before(table, starts, t) {
        Some(s) => s,
        None => unreachable!(),
    }
}
