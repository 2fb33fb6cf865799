//! The successors of each segment, as the passes ask for them.
ghost use Rattle.std.specs.Prelude.{IfOk};
ghost use Rattle.whatif_costs.specs.Successors.{AreSuccessors};

use dispatch_core::graph::Graph;
use dispatch_core::successors::successors_of;
use open_segments::flat_lists::FlatLists;
use std::alloc::Global;
use task_program::AllocFault;

/// For each segment the segments that it precedes.
pub(crate) fn followers_of(alloc: Global, graph: &Graph) -> Result<FlatLists, AllocFault>
    ensures { IfOk result (AreSuccessors graph.now) }
{
    dispatch_core::laws::is_graph(graph);
    let lists = successors_of(alloc, graph)?;
    Ok(lists)
}
