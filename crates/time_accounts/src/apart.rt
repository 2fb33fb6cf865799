//! Whether no two segments run on one thread at one moment.
ghost use Rattle.std.specs.Prelude.{ℕ, ◌≡◌, ◌<◌, ◌^◌, IfOk, IfErr, IfNone, IfSome, OnOk};
ghost use Rattle.std.specs.Prelude.{length, replicate};
ghost use Rattle.task_segments.specs.Schedule.{at};
ghost use Rattle.dispatch_core.specs.RecordedGraph.{Precedes};
ghost use Rattle.time_accounts.specs.TimedRun.{AreApart, AreInOrder};
ghost use Rattle.time_accounts.specs.Checks.{AreByBegin};
ghost use Rattle.time_accounts.specs.Faults.{IsFirstOverlap, IsRanged, IsTimesFault};

use crate::fault::TimesFault;
use crate::region::Region;
use crate::times::Times;
use dispatch_core::graph::Graph;
use std::alloc::Global;
use task_program::AllocFault;

/// All segments, each behind its begin, by begins, and of one begin by numbers. The same of other
/// moments of segments.
pub(crate) fn by_begin(alloc: Global, begins: &[u64]) -> Result<Vec<(u64, u32)>, AllocFault>
    requires { length begins.now < 2 ^ 32 }
    ensures { IfOk result (λ order. AreByBegin begins.now order.items) }
{
    let mut order = Vec::new(alloc);
    for segment in 0..begins.len() as u32 {
        order.push((begins[segment as usize], segment))?;
    }
    order.sort_unstable_by_key(|entry| {
        u128::from(entry.0) * 4_294_967_296 + u128::from(entry.1)
    });
    Ok(order)
}

/// The first segment, in this order, that begins while another one runs on its thread. `taken` has
/// until when each thread is taken.
fn first_overlap(order: &[(u64, u32)], times: &Times, taken: &mut [u64]) -> Option<u32>
    requires order { AreByBegin times.now.begins order.now }
    requires each_thread { length times.now.threads ≡ length times.now.begins }
    requires each_end { length times.now.ends ≡ length times.now.begins }
    requires on_thread { (s : ℕ) → s < length times.now.begins
        → at times.now.threads s < length taken.old }
    requires free { taken.old ≡ replicate (length taken.old) 0 }
    ensures none { IfNone result (AreApart (length times.now.begins) times.now) }
    ensures some { IfSome result (IsFirstOverlap (length times.now.begins) times.now) }
{
    let on = times.threads();
    let ends = times.ends();
    for entry in order {
        let begin = entry.0;
        let segment = entry.1;
        let end = ends[segment as usize];
        if begin < end {
            let thread = on[segment as usize] as usize;
            if taken[thread] > begin {
                return Some(segment);
            }
            taken[thread] = end;
        }
    }
    None
}

/// Checks that no two segments run on one thread at one moment.
pub(crate) fn check_apart(
    alloc: Global,
    graph: &Graph,
    region: Region,
    times: &Times,
) -> Result<(), TimesFault>
    requires ranged { IsRanged (length graph.now.costs)
        region.threads region.first region.last times.now }
    requires in_order { AreInOrder (length graph.now.costs) (Precedes graph.now) times.now }
    ensures ok { OnOk result (AreApart (length graph.now.costs) times.now) }
    ensures why { IfErr result (IsTimesFault (length graph.now.costs) (Precedes graph.now)
        region.threads region.first region.last times.now) }
{
    dispatch_core::laws::is_graph(graph);
    let order = by_begin(alloc, times.begins())?;
    let mut taken = vec![in alloc; 0u64; region.threads as usize]?;
    if let Some(segment) = first_overlap(order.as_slice(), times, taken.as_mut_slice()) {
        return Err(TimesFault::NotApart(segment));
    }
    Ok(())
}
