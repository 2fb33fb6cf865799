//! When segments become ready.
ghost use Rattle.std.specs.Prelude.{ℕ, ◌≡◌, ◌<◌, IfOk, length, Contains};
ghost use Rattle.time_accounts.specs.Shares.{last_end, ready_moments as ready_moments_of};

use crate::times::Times;
use dispatch_core::graph::Graph;
use std::alloc::Global;
use task_program::AllocFault;

/// When the last of some segments ends, 0 of none.
pub(crate) fn last_end_of(ends: &[u64], segments: &[u32]) -> u64
    requires { (s : ℕ) → Contains segments.now s → s < length ends.now }
    ensures { result ≡ last_end ends.now segments.now }
{
    let mut latest = 0u64;
    for segment in segments {
        latest = latest.max(ends[*segment as usize]);
    }
    latest
}

/// When each segment becomes ready: when its last predecessor ends. It is 0 for segment 0, which has
/// none. It fails only if memory runs out.
pub fn ready_moments(alloc: Global, graph: &Graph, times: &Times) -> Result<Vec<u64>, AllocFault>
    requires { length times.now.ends ≡ length graph.now.costs }
    ensures { IfOk result (λ moments. moments.items ≡ ready_moments_of graph.now times.now) }
{
    dispatch_core::laws::is_graph(graph);
    let mut moments = Vec::new(alloc);
    for segment in 0..graph.len() {
        moments.push(last_end_of(times.ends(), graph.preds(segment)))?;
    }
    Ok(moments)
}
