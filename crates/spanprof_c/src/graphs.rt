//! The graph of a text's program, under its own costs or under others.
ghost use Rattle.std.specs.Prelude.{ℕ, ◌≡◌, ◌≢◌, ◌<◌, ◌≤◌, List, IfErr, IfOk, MatchOption, MatchResult};
ghost use Rattle.std.specs.Prelude.{[], false, length, sum};
ghost use Rattle.program_text.specs.declared.fault.ReadKind.TheVariants.{OutOfMemory};
ghost use Rattle.program_text.specs.declared.limits.TheConstants.{MOST_WORK};
ghost use Rattle.spanprof_c.specs.Programs.{IsFaultOf, OfText, source};
ghost use Rattle.spanprof_c.specs.Steps.{HasCosts, IsPriced};
ghost use Rattle.spanprof_c.specs.Refusals.{asked, IsRefused};
ghost use Rattle.spanprof_c.specs.Steps.{RefusesCosts};

use crate::large::large_table;
use crate::refusal::{Refusal, text_refusal};
use dispatch_core::graph::{Graph, graph_of};
use large_text::fault::LargeFault;
use std::alloc::Global;
use task_program::AllocFault;
use task_program::limits::MOST_WORK;
use task_program::read::read_program;
use task_segments::cut;
use task_segments::table::{BoundedTable, SegTable};

/// The graph of a text's program, with these costs where there are any.
pub(crate) fn graph_under(
    alloc: Global,
    text: &[u8],
    any_size: bool,
    costs: &[u64],
) -> Result<Graph, Refusal>
    ensures found { IfOk result (λ graph.
        OfText (source any_size text.now) (IsPriced costs.now graph)) }
    ensures refused { IfErr result (λ why. (threads : ℕ) (lengths : List ℕ)
        → IsRefused (asked (source any_size text.now) costs.now threads lengths) why) }
{
    match graph_of_text(alloc, text, any_size) {
        Ok(graph) => with_costs(graph, costs),
        Err(fault) => Err(text_refusal(fault)),
    }
}

/// The table of the program of a text that keeps the limits.
pub(crate) fn table_of_text(alloc: Global, text: &[u8]) -> Result<SegTable, LargeFault>
    ensures found { IfOk result (λ table.
        OfText (source false text.now) (λ other. other ≡ table)) }
    ensures refused { IfErr result (λ fault.
        fault.kind ≢ OutOfMemory → IsFaultOf false text.now fault) }
{
    match read_program(alloc, text) {
        Ok(program) => Ok(cut(alloc, &program)?),
        Err(fault) => Err(LargeFault {
            kind: fault.kind,
            line: u64::from(fault.line),
        }),
    }
}

/// The graph of a text.
fn graph_of_text(alloc: Global, text: &[u8], any_size: bool) -> Result<Graph, LargeFault>
    ensures found { IfOk result (λ graph.
        OfText (source any_size text.now) (IsPriced [] graph)) }
    ensures refused { IfErr result (λ fault.
        fault.kind ≢ OutOfMemory → IsFaultOf any_size text.now fault) }
{
    if any_size {
        let table = large_table(alloc, text)?;
        Ok(graph_of_table(alloc, &table)?)
    } else {
        let table = table_of_text(alloc, text)?;
        Ok(graph_of_table(alloc, &table)?)
    }
}

/// The graph of a table, with its own costs.
fn graph_of_table<const SEGMENTS: u32, const TASKS: u32>(
    alloc: Global,
    table: &BoundedTable<SEGMENTS, TASKS>,
) -> Result<Graph, AllocFault>
    ensures { IfOk result (λ graph. IsPriced [] graph table.now) }
{
    open_segments::laws::serves_runs(table);
    let graph = graph_of(alloc, table)?;
    dispatch_core::laws::is_graph(&graph);
    Ok(graph)
}

/// The graph with these costs where there are any.
fn with_costs(graph: Graph, costs: &[u64]) -> Result<Graph, Refusal>
    ensures { MatchResult result
        (HasCosts costs.now graph)
        (RefusesCosts costs.now (length graph.costs)) }
{
    dispatch_core::laws::is_graph(&graph);
    if costs.is_empty() {
        return Ok(graph);
    }
    if costs.len() != graph.len() as usize {
        return Err(Refusal::CostCount);
    }
    if total_of(costs).is_none() {
        return Err(Refusal::CostsTooLarge);
    }
    let mut priced = graph;
    priced.set_costs(costs);
    dispatch_core::laws::is_graph(&priced);
    Ok(priced)
}

/// The total of some costs, where it is within the limit.
fn total_of(costs: &[u64]) -> Option<u64>
    ensures { MatchOption result
        (MOST_WORK < sum costs.now)
        (λ total. (total ≡ sum costs.now) × (total ≤ MOST_WORK)) }
{
    let mut total = 0u64;
    for cost in costs {
        if *cost > MOST_WORK - total {
            return None;
        }
        total += *cost;
    }
    Some(total)
}
