//! What is recorded of a run: which earlier siblings a task is kept after, and a graph.
ghost use Rattle.std.specs.Prelude.{IfOk, IfSome, ◌∷◌, []};
ghost use Rattle.depend_table.specs.Lists.{Lists};
ghost use Rattle.depend_table.specs.Siblings.{IsKept};
ghost use Rattle.dispatch_core.specs.Graph.{IsGraphOf};

use depend_table::table::SiblingTable;
use dispatch_core::event::Event;
use dispatch_core::graph::Graph;
use dispatch_core::replay::replay;
use std::alloc::Global;
use task_program::AllocFault;
use task_program::statement::Item;
use task_segments::table::SegTable;

/// Which earlier siblings the second of two tasks is kept after, by the items of both: the first, or
/// none.
pub fn kept_after(alloc: Global, first: &[Item], second: &[Item]) -> Result<Vec<u32>, AllocFault>
    ensures { IfOk result (λ kept. Lists
        (IsKept (record { task = 1; items = first.now } ∷ []) second.now)
        kept.items) }
{
    let mut siblings = SiblingTable::new(alloc)?;
    siblings.generate(1, first)?;
    siblings.generate(2, second)
}

/// The graph of a run by its log, if the log is legal and the run is finished.
pub fn graph_of_log(alloc: Global, table: SegTable, events: &[Event]) -> Option<Graph>
    ensures { IfSome result (IsGraphOf table) }
{
    match replay(alloc, table, events) {
        Ok(core) => core.into_graph().ok(),
        Err(_) => None,
    }
}
