//! Recorded graphs: segments with costs, each with its predecessors.
ghost use Rattle.std.specs.Prelude.{◌≡◌, ◌<◌, ◌≤◌, length, sum, sum_by};
ghost use Rattle.std.specs.Prelude.{slice_index_or, IfOk};
ghost use Rattle.task_segments.specs.Table.{costs_of};
ghost use Rattle.program_text.specs.declared.limits.TheConstants.{MOST_WORK};
ghost use Rattle.dispatch_core.specs.Graph.{IsGraphOf};
ghost use Rattle.dispatch_core.specs.RecordedGraph.{RecordedGraph, IsGraph, predecessors_of};

use open_segments::flat_lists::FlatLists;
use open_segments::predecessors::all_predecessors;
use std::alloc::Global;
use std::marker::Model;
use task_program::AllocFault;
use task_segments::table::BoundedTable;

/// A recorded graph: for each segment, by its number from 0, its cost and the numbers of its
/// predecessors. Contracts see these two lists.
#[derive(Drop)]
pub struct Graph {
    costs: Vec<u64>,
    predecessors: FlatLists,
}

impl Model for Graph {
    ghost use Rattle.dispatch_core.specs.RecordedGraph.{RecordedGraph, IsGraph};
    ghost use Rattle.dispatch_core.specs.Graph.{graph_of_fields};

    ghost Value = { RecordedGraph };

    ghost view = { graph_of_fields };

    ghost invariant = { λ a. IsGraph (graph_of_fields a) };
}

/// The graph of a program's segments, with their kept predecessors. It fails only if memory runs
/// out.
pub fn graph_of<const SEGMENTS: u32, const TASKS: u32>(
    alloc: Global,
    table: &BoundedTable<SEGMENTS, TASKS>,
) -> Result<Graph, AllocFault>
    ensures { IfOk result (IsGraphOf table.now) }
{
    open_segments::laws::serves_runs(table);
    let costs = costs(alloc, table)?;
    let predecessors = all_predecessors(alloc, table)?;
    Ok(make_graph(costs, predecessors))
}

/// The costs of a program's segments.
fn costs<const SEGMENTS: u32, const TASKS: u32>(
    alloc: Global,
    table: &BoundedTable<SEGMENTS, TASKS>,
) -> Result<Vec<u64>, AllocFault>
    ensures { IfOk result (λ list. list.items ≡ costs_of table.now) }
{
    let mut list = Vec::with_capacity(alloc, table.len() as usize)?;
    for segment in 0..table.len() {
        list.push(table.cost(segment))?;
    }
    Ok(list)
}

/// The graph with these costs and predecessors.
fn make_graph(costs: Vec<u64>, predecessors: FlatLists) -> Graph
    requires { IsGraph (record { costs = costs.items; predecessors = predecessors }) }
    ensures { result ≡ record { costs = costs.items; predecessors = predecessors } }
{
    Graph {
        costs,
        predecessors,
    }
}

impl Graph {
    /// How many segments there are. Its second clause says what is true of every graph.
    pub fn len(&self) -> u32
        ensures count { result ≡ length self.now.costs }
        ensures is_graph { IsGraph self.now }
    {
        self.costs.len() as u32
    }

    /// The cost of a segment.
    pub fn cost(&self, segment: u32) -> u64
        requires { segment < length self.now.costs }
        ensures { result ≡ slice_index_or self.now.costs segment 0 }
    {
        self.costs[segment as usize]
    }

    /// The costs of all segments, in their order.
    pub fn costs(&self) -> &[u64]
        ensures { result.now ≡ self.now.costs }
    {
        self.costs.as_slice()
    }

    /// The predecessors of a segment, ascending.
    pub fn preds(&self, segment: u32) -> &[u32]
        requires { segment < length self.now.costs }
        ensures { result.now ≡ predecessors_of self.now segment }
    {
        self.predecessors.list(segment)
    }

    /// How many pairs of a predecessor and a segment there are.
    pub fn edges(&self) -> u64
        ensures { result ≡ sum_by length self.now.predecessors }
    {
        let mut total = 0;
        for segment in 0..self.len() {
            total += self.preds(segment).len() as u64;
        }
        total
    }

    /// The total of the costs.
    pub fn work(&self) -> u64
        ensures { result ≡ sum self.now.costs }
    {
        self.costs.iter().sum()
    }

    /// Puts other costs, one for each segment, in the place of these. The predecessors stay.
    pub fn set_costs(&mut self, costs: &[u64])
        requires each { length costs.now ≡ length self.old.costs }
        requires little { sum costs.now ≤ MOST_WORK }
        ensures { self.new ≡ record self.old { costs = costs.now } }
    {
        copy_costs(&mut self.costs, costs);
    }
}

fn copy_costs(to: &mut Vec<u64>, from: &[u64])
    requires { length from.now ≡ length to.old.items }
    ensures { to.new.items ≡ from.now }
{
    to.as_mut_slice().copy_from_slice(from);
}
