//! The path on which a run's elapsed time lay.
ghost use Rattle.std.specs.Prelude.{ℕ, ◌≡◌, ◌<◌, ◌≤◌, ◌^◌, length, Contains, IfOk, MatchOption};
ghost use Rattle.std.specs.List.Sorted.{IsStrictlyIncreasing};
ghost use Rattle.task_segments.specs.Schedule.{at};
ghost use Rattle.dispatch_core.specs.RecordedGraph.{Precedes};
ghost use Rattle.time_accounts.specs.Checks.{IsLastAmong};
ghost use Rattle.time_accounts.specs.OwnPath.{IsLastBefore, IsOwnPath};

use crate::times::Times;
use dispatch_core::graph::Graph;
use std::alloc::Global;
use task_program::AllocFault;

/// The segment that ends last, the smallest of several.
fn last_to_end(ends: &[u64]) -> u32
    requires some { 0 < length ends.now }
    requires few { length ends.now < 2 ^ 32 }
    ensures inside { result < length ends.now }
    ensures latest { (s : ℕ) → s < length ends.now → at ends.now s ≤ at ends.now result }
    ensures smallest { (s : ℕ) → s < length ends.now → at ends.now s ≡ at ends.now result
        → result ≤ s }
{
    let mut last = 0u32;
    for segment in 0..ends.len() as u32 {
        if ends[segment as usize] > ends[last as usize] {
            last = segment;
        }
    }
    last
}

/// Of some ascending segments the one that ends last, the smallest of several.
fn last_among(ends: &[u64], segments: &[u32]) -> Option<u32>
    requires inside { (s : ℕ) → Contains segments.now s → s < length ends.now }
    requires ascending { IsStrictlyIncreasing segments.now }
    ensures { MatchOption result (length segments.now ≡ 0)
        (IsLastAmong ends.now segments.now) }
{
    if segments.is_empty() {
        return None;
    }
    let mut last = segments[0];
    for segment in segments {
        if ends[*segment as usize] > ends[last as usize] {
            last = *segment;
        }
    }
    Some(last)
}

/// Of the predecessors of a segment the one that ends last, the smallest of several.
fn last_before(graph: &Graph, times: &Times, segment: u32) -> Option<u32>
    requires inside { segment < length graph.now.costs }
    requires each { length times.now.ends ≡ length graph.now.costs }
    ensures { MatchOption result ((r : ℕ) → Precedes graph.now r segment → ⊥)
        (λ before. IsLastBefore (Precedes graph.now) times.now before segment) }
{
    dispatch_core::laws::is_graph(graph);
    last_among(times.ends(), graph.preds(segment))
}

/// The path on which a run's elapsed time lay, its first member first: back from the segment that
/// ends last, to its predecessor that ends last, and so on, to segment 0. Of several that end last
/// it takes the smallest. It fails only if memory runs out.
pub fn own_path(alloc: Global, graph: &Graph, times: &Times) -> Result<Vec<u32>, AllocFault>
    requires { length times.now.ends ≡ length graph.now.costs }
    ensures { IfOk result (λ path.
        IsOwnPath (length graph.now.costs) (Precedes graph.now) times.now path.items) }
{
    dispatch_core::laws::is_graph(graph);
    let last = last_to_end(times.ends());
    let mut backwards = Vec::new(alloc);
    backwards.push(last)?;
    let mut member = last;
    while let Some(before) = last_before(graph, times, member) {
        backwards.push(before)?;
        member = before;
    }
    backwards.reverse();
    Ok(backwards)
}
