//! The account of a timed run.
ghost use Rattle.std.specs.Prelude.{ℕ, ◌≡◌, ◌-◌, ◌<◌, ◌≤◌, ◌^◌, length, sum, IfErr, IfOk, OnOk, OnErr};
ghost use Rattle.std.specs.Prelude.{IsErrOf};
ghost use Rattle.program_text.specs.declared.limits.TheConstants.{MOST_WORK};
ghost use Rattle.task_segments.specs.Schedule.{at};
ghost use Rattle.dispatch_core.specs.RecordedGraph.{Precedes};
ghost use Rattle.greedy_sim.specs.declared.greedy.TheConstants.{MOST_THREADS};
ghost use Rattle.time_accounts.specs.TimedRun.{IsTimedRun, differences, durations};
ghost use Rattle.time_accounts.specs.Shares.{shares_of};
ghost use Rattle.time_accounts.specs.Sweep.{AreChanges};
ghost use Rattle.time_accounts.specs.Measured.{IsMeasured};
ghost use Rattle.time_accounts.specs.Faults.{IsRanged, IsThreadCount, IsTimesFault};

use crate::changes::{Changes, sorted_changes};
use crate::checks::check_times;
use crate::fault::TimesFault;
use crate::region::Region;
use crate::sweep::idle_between;
use crate::times::Times;
use dispatch_core::graph::Graph;
use std::alloc::Global;
use std::marker::Model;

/// Where the time of a run's threads went, in the unit of its times.
#[derive(Drop)]
pub struct Account {
    busy: u64,
    delayed: u64,
    starved: u64,
    outside: u64,
}

impl Model for Account {
    ghost use Rattle.time_accounts.specs.Shares.{Shares};

    ghost Value = { Shares };

    ghost view = { λ a. record {
      busy = a.busy;
      delayed = a.delayed;
      starved = a.starved;
      outside = a.outside;
    } };
}

impl Account {
    /// How long threads ran segments, in all.
    pub fn busy(&self) -> u64
        ensures { result ≡ self.now.busy }
    {
        self.busy
    }

    /// How long threads were idle while a segment was ready, in all.
    pub fn delayed(&self) -> u64
        ensures { result ≡ self.now.delayed }
    {
        self.delayed
    }

    /// How long threads were idle while none was, in all.
    pub fn starved(&self) -> u64
        ensures { result ≡ self.now.starved }
    {
        self.starved
    }

    /// The threads' time before all begins and after all ends.
    pub fn outside(&self) -> u64
        ensures { result ≡ self.now.outside }
    {
        self.outside
    }
}

/// The sum of the durations.
fn busy_time(times: &Times) -> u64
    requires each { length times.now.ends ≡ length times.now.begins }
    requires forward { (s : ℕ) → s < length times.now.begins
        → at times.now.begins s ≤ at times.now.ends s }
    requires fits { sum (durations times.now) < 2 ^ 64 }
    ensures { result ≡ sum (durations times.now) }
{
    total_length(times.begins(), times.ends())
}

/// The sum of what each end is after its begin.
fn total_length(begins: &[u64], ends: &[u64]) -> u64
    requires each { length ends.now ≡ length begins.now }
    requires forward { (s : ℕ) → s < length begins.now → at begins.now s ≤ at ends.now s }
    requires fits { sum (differences ends.now begins.now) < 2 ^ 64 }
    ensures { result ≡ sum (differences ends.now begins.now) }
{
    let mut total = 0u64;
    for (segment, begin) in begins.iter().enumerate() {
        total += ends[segment] - *begin;
    }
    total
}

/// The first of some moments.
pub(crate) fn first_of(moments: &[u64]) -> u64
    requires { 0 < length moments.now }
    ensures { result ≡ at moments.now 0 }
{
    moments[0]
}

/// The last of some moments.
fn last_of(moments: &[u64]) -> u64
    requires { 0 < length moments.now }
    ensures { result ≡ at moments.now (length moments.now - 1) }
{
    moments[moments.len() - 1]
}

/// What is known of a legal run, by the moments at which segments become ready, begin and end. It
/// does nothing when it runs.
pub(crate) fn known(graph: &Graph, region: Region, times: &Times, changes: &Changes)
    requires legal { IsTimedRun (length graph.now.costs) (Precedes graph.now)
        region.threads region.first region.last times.now }
    requires changes { AreChanges graph.now times.now
        changes.now.readies.items changes.now.begins.items changes.now.ends.items }
    requires few { region.threads ≤ MOST_THREADS }
    requires soon { region.last ≤ MOST_WORK }
    ensures { IsMeasured graph.now region.threads region.first region.last times.now
        changes.now.readies.items changes.now.begins.items changes.now.ends.items
        (at changes.now.begins.items 0)
        (at changes.now.ends.items (length changes.now.ends.items - 1)) }
{
    dispatch_core::laws::is_graph(graph);
}

/// The account of a legal run, by the moments at which segments become ready, begin and end.
fn measured(graph: &Graph, region: Region, times: &Times, changes: &Changes) -> Account
    requires legal { IsTimedRun (length graph.now.costs) (Precedes graph.now)
        region.threads region.first region.last times.now }
    requires changes { AreChanges graph.now times.now
        changes.now.readies.items changes.now.begins.items changes.now.ends.items }
    requires few { region.threads ≤ MOST_THREADS }
    requires soon { region.last ≤ MOST_WORK }
    ensures { result ≡ shares_of graph.now region.threads region.first region.last times.now }
{
    known(graph, region, times, changes);
    let from = first_of(&changes.begins);
    let to = last_of(&changes.ends);
    let busy = busy_time(times);
    let delayed = idle_between(
        true,
        &changes.readies,
        &changes.begins,
        &changes.ends,
        region.threads,
        from,
        to,
    );
    let count = u64::from(region.threads);
    let outside = count * (from - region.first) + count * (region.last - to);
    let starved = count * (region.last - region.first) - busy - delayed - outside;
    Account {
        busy,
        delayed,
        starved,
        outside,
    }
}

/// Where the time of a run's threads went, in the unit of its times. Times that are not those of a
/// legal run are refused, with the fault of `check_times`. Its time grows with n log n in
/// the number of segments, and with the number of edges.
pub fn account_of(
    alloc: Global,
    graph: &Graph,
    region: Region,
    times: &Times,
) -> Result<Account, TimesFault>
    ensures legal { OnOk result (IsTimedRun (length graph.now.costs) (Precedes graph.now)
        region.threads region.first region.last times.now) }
    ensures within { OnOk result (IsRanged (length graph.now.costs)
        region.threads region.first region.last times.now) }
    ensures shares { IfOk result (λ account. account
        ≡ shares_of graph.now region.threads region.first region.last times.now) }
    ensures why { IfErr result (IsTimesFault (length graph.now.costs) (Precedes graph.now)
        region.threads region.first region.last times.now) }
    // of a legal run within the limits there is an account, unless memory runs out
    ensures refused { IsThreadCount region.threads → region.last ≤ MOST_WORK
        → IsTimedRun (length graph.now.costs) (Precedes graph.now)
        region.threads region.first region.last times.now
        → OnErr result (IsErrOf result TimesFault.OutOfMemory) }
{
    check_times(alloc, graph, region, times)?;
    let changes = sorted_changes(alloc, graph, times)?;
    Ok(measured(graph, region, times, &changes))
}
