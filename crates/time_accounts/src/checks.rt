//! Whether times are those of a legal run.
ghost use Rattle.std.specs.Prelude.{ℕ, ◌<◌, ◌≤◌, length, Contains, IfErr, IsErrOf, MatchOption};
ghost use Rattle.std.specs.Prelude.{OnOk, OnErr};
ghost use Rattle.std.specs.List.Sorted.{IsStrictlyIncreasing};
ghost use Rattle.task_segments.specs.Schedule.{at};
ghost use Rattle.dispatch_core.specs.RecordedGraph.{Precedes};
ghost use Rattle.time_accounts.specs.TimedRun.{AreInOrder, IsTimedRun};
ghost use Rattle.time_accounts.specs.Checks.{IsFirstAfter};
ghost use Rattle.time_accounts.specs.Faults.{IsCounted, IsInRange, IsRanged};
ghost use Rattle.time_accounts.specs.Faults.{IsThreadCount, IsTimesFault, IsUpTo};

use crate::apart::check_apart;
use crate::fault::TimesFault;
use crate::region::Region;
use crate::times::Times;
use dispatch_core::graph::Graph;
use greedy_sim::greedy::MOST_THREADS;
use std::alloc::Global;
use task_program::limits::MOST_WORK;

/// Checks that times are those of a legal run of a graph: each segment runs on one of the threads
/// from its begin to its end, none begins before its predecessors have ended, and no two run on
/// one thread at one moment. Of several faults the first is reported, in the order of `TimesFault`.
pub fn check_times(
    alloc: Global,
    graph: &Graph,
    region: Region,
    times: &Times,
) -> Result<(), TimesFault>
    ensures legal { OnOk result (IsTimedRun (length graph.now.costs) (Precedes graph.now)
        region.threads region.first region.last times.now) }
    ensures within { OnOk result (IsRanged (length graph.now.costs)
        region.threads region.first region.last times.now) }
    ensures why { IfErr result (IsTimesFault (length graph.now.costs) (Precedes graph.now)
        region.threads region.first region.last times.now) }
    // a legal run within the limits is refused only where memory runs out
    ensures refused { IsThreadCount region.threads → region.last ≤ MOST_WORK
        → IsTimedRun (length graph.now.costs) (Precedes graph.now)
        region.threads region.first region.last times.now
        → OnErr result (IsErrOf result TimesFault.OutOfMemory) }
{
    check_counts(graph, region, times)?;
    check_ranges(graph, region, times)?;
    check_order(graph, region, times)?;
    check_apart(alloc, graph, region, times)?;
    Ok(())
}

/// Checks the number of threads, the two moments, and that there are times of each segment.
fn check_counts(graph: &Graph, region: Region, times: &Times) -> Result<(), TimesFault>
    ensures ok { OnOk result (IsCounted (length graph.now.costs)
        region.threads region.first region.last times.now) }
    ensures why { IfErr result (IsTimesFault (length graph.now.costs) (Precedes graph.now)
        region.threads region.first region.last times.now) }
{
    if region.threads < 1 || region.threads > MOST_THREADS {
        return Err(TimesFault::ThreadCount);
    }
    if region.last < region.first || region.last > MOST_WORK {
        return Err(TimesFault::Moments);
    }
    let each = graph.len() as usize;
    let threads = times.threads().len();
    if threads != each || times.begins().len() != each || times.ends().len() != each {
        return Err(TimesFault::Count);
    }
    Ok(())
}

/// Checks that each segment is on one of the threads, and within the two moments.
fn check_ranges(graph: &Graph, region: Region, times: &Times) -> Result<(), TimesFault>
    requires counted { IsCounted (length graph.now.costs)
        region.threads region.first region.last times.now }
    ensures ok { OnOk result (IsRanged (length graph.now.costs)
        region.threads region.first region.last times.now) }
    ensures why { IfErr result (IsTimesFault (length graph.now.costs) (Precedes graph.now)
        region.threads region.first region.last times.now) }
{
    for segment in 0..graph.len() {
        check_range(graph, region, times, segment)?;
    }
    Ok(())
}

/// Checks the thread and the two moments of a segment.
fn check_range(graph: &Graph, region: Region, times: &Times, segment: u32) -> Result<(), TimesFault>
    requires below { IsUpTo (length graph.now.costs)
        region.threads region.first region.last times.now segment }
    ensures ok { OnOk result
        (IsInRange region.threads region.first region.last times.now segment) }
    ensures why { IfErr result (IsTimesFault (length graph.now.costs) (Precedes graph.now)
        region.threads region.first region.last times.now) }
{
    let begin = times.begins()[segment as usize];
    let end = times.ends()[segment as usize];
    if times.threads()[segment as usize] >= region.threads {
        return Err(TimesFault::NoThread(segment));
    }
    if end < begin {
        return Err(TimesFault::EndsEarly(segment));
    }
    if begin < region.first || end > region.last {
        return Err(TimesFault::OutOfTime(segment));
    }
    Ok(())
}

/// The least of some ascending segments that ends after a moment.
fn first_to_end_after(ends: &[u64], segments: &[u32], moment: u64) -> Option<u32>
    requires inside { (s : ℕ) → Contains segments.now s → s < length ends.now }
    requires ascending { IsStrictlyIncreasing segments.now }
    ensures { MatchOption result
        ((s : ℕ) → Contains segments.now s → at ends.now s ≤ moment)
        (IsFirstAfter ends.now segments.now moment) }
{
    for segment in segments {
        if ends[*segment as usize] > moment {
            return Some(*segment);
        }
    }
    None
}

/// Checks that no segment begins before its predecessors have ended.
fn check_order(graph: &Graph, region: Region, times: &Times) -> Result<(), TimesFault>
    requires ranged { IsRanged (length graph.now.costs)
        region.threads region.first region.last times.now }
    ensures ok { OnOk result
        (AreInOrder (length graph.now.costs) (Precedes graph.now) times.now) }
    ensures why { IfErr result (IsTimesFault (length graph.now.costs) (Precedes graph.now)
        region.threads region.first region.last times.now) }
{
    dispatch_core::laws::is_graph(graph);
    for segment in 0..graph.len() {
        let begin = times.begins()[segment as usize];
        if let Some(before) = first_to_end_after(times.ends(), graph.preds(segment), begin) {
            return Err(TimesFault::TooSoon(segment, before));
        }
    }
    Ok(())
}
