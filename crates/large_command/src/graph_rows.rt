//! The recorded graph of a table, as CSV.
ghost use Rattle.std.specs.Prelude.{◌≡◌, ◌++◌, ◌<◌, IfOk, length};
ghost use Rattle.large_command.specs.GraphReports.{TellsGraph, graph_row, graph_text};

use csv_table::Table;
use dispatch_core::graph::{Graph, graph_of};
use spanprof_command::{Report, Status};
use std::alloc::Global;
use task_program::AllocFault;
use task_segments::table::LargeTable;

/// A row for each segment of a table: its number, its task, its cost, and its kept predecessors,
/// with blanks between them.
pub(crate) fn tell_graph(alloc: Global, table: LargeTable) -> Result<Report, AllocFault>
    ensures { IfOk result (λ report. TellsGraph table report) }
{
    let graph = graph_of(alloc, &table)?;
    let text = graph_text(alloc, &table, &graph)?;
    Ok(Report::new(text, Status::Done))
}

fn graph_text(alloc: Global, table: &LargeTable, graph: &Graph) -> Result<Vec<u8>, AllocFault>
    requires { length graph.now.costs ≡ length table.now.segments }
    ensures { IfOk result (λ text. text.items ≡ graph_text table.now graph.now) }
{
    let header = ["segment", "task", "cost", "predecessors"];
    let mut rows = Table::new(alloc, &header)?;
    for segment in 0..table.len() {
        rows = with_segment(alloc, rows, table, graph, segment)?;
    }
    rows.into_text()
}

/// The rows with one more, of a segment.
fn with_segment(
    alloc: Global,
    rows: Table,
    table: &LargeTable,
    graph: &Graph,
    segment: u32,
) -> Result<Table, AllocFault>
    requires inside { segment < length table.now.segments }
    requires costs { length graph.now.costs ≡ length table.now.segments }
    ensures { IfOk result (λ more. more ≡ rows ++ graph_row table.now graph.now segment) }
{
    let task = table.task_of(segment);
    let fields = [
        Some(u64::from(segment)),
        Some(u64::from(task)),
        Some(table.cost(segment)),
    ];
    rows.with_list(alloc, &fields, graph.preds(segment))
}
