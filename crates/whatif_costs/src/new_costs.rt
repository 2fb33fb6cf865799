//! Changes of costs, one after another.
ghost use Rattle.std.specs.Prelude.{◌≡◌, ◌≤◌, OnOk, IfErr, None, Some, length, sum};
ghost use Rattle.program_text.specs.declared.limits.TheConstants.{MOST_WORK};
ghost use Rattle.whatif_costs.specs.NewCosts.{refusal_in, with_new_costs};

use crate::fault::{WhatFault, refusal_at};
use dispatch_core::graph::Graph;

/// Another cost for a segment.
#[derive(Clone, Copy, Debug, PartialEq, Eq)]
pub struct NewCost {
    pub segment: u32,
    pub cost: u64,
}

/// Puts changes into a list of a graph's costs, in their order, up to the first that is refused.
pub(crate) fn put_costs(
    graph: &Graph,
    costs: &mut [u64],
    changes: &[NewCost],
) -> Result<(), WhatFault>
    requires { costs.old ≡ graph.now.costs }
    ensures accepted { OnOk result (refusal_in graph.now changes.now ≡ None) }
    ensures put { OnOk result
        (with_new_costs graph.now changes.now ≡ record graph.now { costs = costs.new }) }
    ensures small { OnOk result (sum costs.new ≤ MOST_WORK) }
    ensures each { length costs.new ≡ length graph.now.costs }
    ensures refused { IfErr result (λ fault. refusal_in graph.now changes.now ≡ Some fault) }
{
    dispatch_core::laws::is_graph(graph);
    let mut work = graph.work();
    for change in changes {
        if let Some(fault) = refusal_at(costs, work, change.segment, change.cost) {
            return Err(fault);
        }
        work = work - costs[change.segment as usize] + change.cost;
        costs[change.segment as usize] = change.cost;
    }
    Ok(())
}
