//! At which segment the time of idle threads counts.
ghost use Rattle.std.specs.Prelude.{ℕ, ◌≡◌, ◌<◌, ◌≤◌, ◌^◌, IfOk, length, sum_by};
ghost use Rattle.program_text.specs.declared.limits.TheConstants.{MOST_WORK};
ghost use Rattle.task_segments.specs.Schedule.{at};
ghost use Rattle.dispatch_core.specs.RecordedGraph.{Precedes};
ghost use Rattle.greedy_sim.specs.declared.greedy.TheConstants.{MOST_THREADS};
ghost use Rattle.time_accounts.specs.TimedRun.{IsTimedRun, differences, durations};
ghost use Rattle.time_accounts.specs.Shares.{moments};
ghost use Rattle.time_accounts.specs.Sweep.{idle_at};
ghost use Rattle.time_accounts.specs.Checks.{AreByBegin};
ghost use Rattle.time_accounts.specs.Counting.{AreCounted, CanSweep};
ghost use Rattle.time_accounts.specs.BySegment.{delayed_by_segment as delayed_by_segment_of};
ghost use Rattle.time_accounts.specs.BySegment.{starved_by_segment as starved_by_segment_of};

use crate::account::{first_of, known};
use crate::apart::by_begin;
use crate::changes::{Changes, sorted_changes};
use crate::ready::ready_moments;
use crate::region::Region;
use crate::sweep::idle_between;
use crate::times::Times;
use dispatch_core::graph::Graph;
use std::alloc::Global;
use task_program::AllocFault;

/// How long each segment ran. It fails only if memory runs out.
pub fn busy_by_segment(alloc: Global, times: &Times) -> Result<Vec<u64>, AllocFault>
    requires each { length times.now.ends ≡ length times.now.begins }
    requires forward { (s : ℕ) → s < length times.now.begins
        → at times.now.begins s ≤ at times.now.ends s }
    ensures { IfOk result (λ busy. busy.items ≡ durations times.now) }
{
    lengths(alloc, times.begins(), times.ends())
}

/// What each end is after its begin.
fn lengths(alloc: Global, begins: &[u64], ends: &[u64]) -> Result<Vec<u64>, AllocFault>
    requires each { length ends.now ≡ length begins.now }
    requires forward { (s : ℕ) → s < length begins.now → at begins.now s ≤ at ends.now s }
    ensures { IfOk result (λ lengths. lengths.items ≡ differences ends.now begins.now) }
{
    let mut lengths = Vec::with_capacity(alloc, begins.len())?;
    for (segment, begin) in begins.iter().enumerate() {
        lengths.push(ends[segment] - *begin)?;
    }
    Ok(lengths)
}

/// How long threads are idle from a moment on, before another, in all, either while a segment is
/// ready or while none is.
fn idle_within(beside: bool, changes: &Changes, threads: u32, from: u64, to: u64) -> u64
    requires known { CanSweep changes.now.readies.items changes.now.begins.items
        changes.now.ends.items threads }
    requires in_time { from ≤ to }
    requires soon { to ≤ MOST_WORK }
    ensures { result ≡ sum_by (idle_at beside changes.now.readies.items changes.now.begins.items
        changes.now.ends.items threads) (moments from to) }
{
    idle_between(
        beside,
        &changes.readies,
        &changes.begins,
        &changes.ends,
        threads,
        from,
        to,
    )
}

/// Of the time for which threads are idle so from a moment on what counts at each segment. `order`
/// has the segments by `froms`.
fn count_idle(
    alloc: Global,
    beside: bool,
    order: &[(u64, u32)],
    froms: &[u64],
    tos: &[u64],
    changes: &Changes,
    threads: u32,
    first: u64,
) -> Result<Vec<u64>, AllocFault>
    requires order { AreByBegin froms.now order.now }
    requires each { length tos.now ≡ length froms.now }
    requires known { CanSweep changes.now.readies.items changes.now.begins.items
        changes.now.ends.items threads }
    requires soon { (s : ℕ) → s < length tos.now → at tos.now s ≤ MOST_WORK }
    ensures { IfOk result (λ counts. AreCounted (idle_at beside changes.now.readies.items
        changes.now.begins.items changes.now.ends.items threads)
        froms.now tos.now first counts.items) }
{
    let mut counts = vec![in alloc; 0u64; froms.len()]?;
    let mut until = first;
    for entry in order {
        let from = entry.0.max(until);
        let segment = entry.1 as usize;
        let to = tos[segment];
        if from < to {
            counts[segment] = idle_within(beside, changes, threads, from, to);
            until = to;
        }
    }
    Ok(counts)
}

/// How long threads were delayed while each segment was the one that had been ready longest. It
/// fails only if memory runs out.
pub fn delayed_by_segment(
    alloc: Global,
    graph: &Graph,
    region: Region,
    times: &Times,
) -> Result<Vec<u64>, AllocFault>
    requires legal { IsTimedRun (length graph.now.costs) (Precedes graph.now)
        region.threads region.first region.last times.now }
    requires few { region.threads ≤ MOST_THREADS }
    requires soon { region.last ≤ MOST_WORK }
    ensures { IfOk result (λ delayed. delayed.items ≡ delayed_by_segment_of graph.now
        region.threads region.first region.last times.now) }
{
    dispatch_core::laws::is_graph(graph);
    let changes = sorted_changes(alloc, graph, times)?;
    known(graph, region, times, &changes);
    let readies = ready_moments(alloc, graph, times)?;
    let order = by_begin(alloc, readies.as_slice())?;
    count_idle(
        alloc,
        true,
        order.as_slice(),
        readies.as_slice(),
        times.begins(),
        &changes,
        region.threads,
        first_of(&changes.begins),
    )
}

/// How long they starved while each segment was the one that had run longest. It fails only if
/// memory runs out.
pub fn starved_by_segment(
    alloc: Global,
    graph: &Graph,
    region: Region,
    times: &Times,
) -> Result<Vec<u64>, AllocFault>
    requires legal { IsTimedRun (length graph.now.costs) (Precedes graph.now)
        region.threads region.first region.last times.now }
    requires few { region.threads ≤ MOST_THREADS }
    requires soon { region.last ≤ MOST_WORK }
    ensures { IfOk result (λ starved. starved.items ≡ starved_by_segment_of graph.now
        region.threads region.first region.last times.now) }
{
    dispatch_core::laws::is_graph(graph);
    let changes = sorted_changes(alloc, graph, times)?;
    known(graph, region, times, &changes);
    let order = by_begin(alloc, times.begins())?;
    count_idle(
        alloc,
        false,
        order.as_slice(),
        times.begins(),
        times.ends(),
        &changes,
        region.threads,
        first_of(&changes.begins),
    )
}
