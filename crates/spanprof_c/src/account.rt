//! The account of a timed run.
ghost use Rattle.std.specs.Prelude.{◌≡◌, ◌≤◌, IfErr, IfOk, MatchResult, OnErr, OnOk, length};
ghost use Rattle.dispatch_core.specs.RecordedGraph.{Precedes};
ghost use Rattle.time_accounts.specs.Faults.{IsTimesFault};
ghost use Rattle.spanprof_c.specs.Refusals.{nowhere};
ghost use Rattle.spanprof_c.specs.Runs.{Accounts, times_number, times_place, timed_run};

use crate::told::{Accounted, Place, put_place};
use dispatch_core::graph::Graph;
use std::alloc::Global;
use task_program::AllocFault;
use time_accounts::account::account_of;
use time_accounts::fault::TimesFault;
use time_accounts::ready::ready_moments;
use time_accounts::region::Region;
use time_accounts::times::Times;

/// The times of a run, copied.
pub(crate) fn times_of(
    alloc: Global,
    threads: &[u32],
    begins: &[u64],
    ends: &[u64],
) -> Result<Times, AllocFault>
    ensures { IfOk result (λ times. times ≡ timed_run threads.now begins.now ends.now) }
{
    let threads = threads.to_vec(alloc)?;
    let begins = begins.to_vec(alloc)?;
    let ends = ends.to_vec(alloc)?;
    Ok(Times::new(threads, begins, ends))
}

/// Where the time of a run's threads went, and when each segment was ready.
pub(crate) fn tell_account(
    alloc: Global,
    graph: &Graph,
    region: Region,
    times: &Times,
    readies: &mut [u64],
    told: &mut Accounted,
) -> Result<(), TimesFault>
    requires { length readies.old ≡ length graph.now.costs }
    ensures done { OnOk result (Accounts region.threads region.first region.last times.now
        readies.new told.new graph.now) }
    ensures refused { IfErr result (IsTimesFault (length graph.now.costs) (Precedes graph.now)
        region.threads region.first region.last times.now) }
    ensures kept { OnErr result ((readies.new ≡ readies.old) × (told.new ≡ told.old)) }
{
    dispatch_core::laws::is_graph(graph);
    let account = account_of(alloc, graph, region, times)?;
    let moments = ready_moments(alloc, graph, times)?;
    readies.copy_from_slice(moments.as_slice());
    told.busy = account.busy();
    told.delayed = account.delayed();
    told.starved = account.starved();
    told.outside = account.outside();
    Ok(())
}

/// The number that a call answers: 0 where the account is there. The place is that of the fault.
pub(crate) fn tell_times(outcome: Result<(), TimesFault>, place: &mut Place) -> u32
    ensures told { MatchResult outcome
        (λ _. result ≡ 0)
        (λ fault. (1 ≤ result) × (result ≡ times_number fault)
        × (place.new ≡ times_place fault)) }
    ensures nowhere { result ≡ 0 → place.new ≡ nowhere }
{
    match outcome {
        Ok(()) => {
            put_place(place, 0, 0, 0);
            0
        }
        Err(fault) => {
            put_fault(place, fault);
            number_of(fault)
        }
    }
}

fn put_fault(place: &mut Place, fault: TimesFault)
    ensures { place.new ≡ times_place fault }
{
    match fault {
        TimesFault::NoThread(segment) => put_place(place, 0, segment, 0),
        TimesFault::EndsEarly(segment) => put_place(place, 0, segment, 0),
        TimesFault::OutOfTime(segment) => put_place(place, 0, segment, 0),
        TimesFault::TooSoon(segment, before) => put_place(place, 0, segment, before),
        TimesFault::NotApart(segment) => put_place(place, 0, segment, 0),
        TimesFault::ThreadCount => put_place(place, 0, 0, 0),
        TimesFault::Moments => put_place(place, 0, 0, 0),
        TimesFault::Count => put_place(place, 0, 0, 0),
        TimesFault::OutOfMemory => put_place(place, 0, 0, 0),
    }
}

fn number_of(fault: TimesFault) -> u32
    ensures number { result ≡ times_number fault }
    ensures some { 1 ≤ result }
{
    match fault {
        TimesFault::OutOfMemory => 13,
        TimesFault::ThreadCount => 15,
        TimesFault::Count => 18,
        TimesFault::Moments => 19,
        TimesFault::NoThread(_) => 20,
        TimesFault::EndsEarly(_) => 21,
        TimesFault::OutOfTime(_) => 22,
        TimesFault::TooSoon(_, _) => 23,
        TimesFault::NotApart(_) => 24,
    }
}
