//! The moments at which something changes.
ghost use Rattle.std.specs.Prelude.{◌≡◌, IfOk, length};
ghost use Rattle.time_accounts.specs.Sweep.{AreChanges};

use crate::ready::ready_moments;
use crate::times::Times;
use dispatch_core::graph::Graph;
use std::alloc::Global;
use task_program::AllocFault;

/// The moments at which segments become ready, begin and end, each list ascending.
#[derive(Drop)]
pub(crate) struct Changes {
    pub(crate) readies: Vec<u64>,
    pub(crate) begins: Vec<u64>,
    pub(crate) ends: Vec<u64>,
}

pub(crate) fn sorted_changes(
    alloc: Global,
    graph: &Graph,
    times: &Times,
) -> Result<Changes, AllocFault>
    requires { length times.now.ends ≡ length graph.now.costs }
    ensures { IfOk result (λ found. AreChanges graph.now times.now
        found.readies.items found.begins.items found.ends.items) }
{
    let mut readies = ready_moments(alloc, graph, times)?;
    let mut begins = Vec::from_slice(alloc, times.begins())?;
    let mut ends = Vec::from_slice(alloc, times.ends())?;
    readies.sort_unstable();
    begins.sort_unstable();
    ends.sort_unstable();
    Ok(Changes {
        readies,
        begins,
        ends,
    })
}
