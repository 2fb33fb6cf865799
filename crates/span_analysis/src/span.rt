//! The span of a recorded graph, where neither slacks nor a chain are asked for.
ghost use Rattle.std.specs.Prelude.{IfOk};
ghost use Rattle.dispatch_core.specs.RecordedGraph.{Precedes};
ghost use Rattle.task_segments.specs.Schedule.{IsLeastEnd, IsSpan};

use crate::chain::last_to_end;
use crate::passes::earliest_starts;
use dispatch_core::graph::Graph;
use std::alloc::Global;
use task_program::AllocFault;

/// The span of a graph: the greatest sum of costs along a chain, and the least end of a legal
/// schedule. It makes the pass forward alone, and fails only if memory runs out.
pub fn span_of(alloc: Global, graph: &Graph) -> Result<u64, AllocFault>
    ensures greatest_sum { IfOk result (λ span.
        IsSpan graph.now.costs (Precedes graph.now) span) }
    ensures least_end { IfOk result (λ span.
        IsLeastEnd graph.now.costs (Precedes graph.now) span) }
{
    dispatch_core::laws::is_graph(graph);
    let starts = earliest_starts(alloc, graph)?;
    let last = last_to_end(graph, &starts);
    Ok(starts[last as usize] + graph.cost(last))
}
