//! What a core keeps of a run: lists with an entry for each segment or worker.
ghost use Rattle.std.specs.Prelude.{Some, ◌≡◌, ◌<◌, ◌%◌, ◌^◌, length, slice_get};
ghost use Rattle.std.specs.Prelude.{sum_by, unwrap_or};
ghost use Rattle.open_segments.specs.Entry.{entry};
ghost use Rattle.std.specs.Prelude.{IfOk, map, replicate};
ghost use Rattle.dispatch_core.specs.First.{AreFirst};

use crate::event::{Event, MOST_WORKERS};
use crate::graph::{Graph, graph_of};
use crate::successors::successors_of;
use open_segments::entries::value_entry;
use open_segments::flat_lists::FlatLists;
use std::alloc::Global;
use task_program::AllocFault;
use task_segments::table::BoundedTable;

/// What stands at a place, if anything.
pub fn worker_entry(list: &[Option<u32>], at: u32) -> Option<u32>
    ensures { result ≡ entry list.now at }
{
    list.get(at as usize).copied().flatten()
}

/// The flag at a place.
pub fn flag(list: &[bool], at: u32) -> bool
    requires { at < length list.now }
    ensures { slice_get list.now at ≡ Some result }
{
    list[at as usize]
}

/// The sum of the values at these places, modulo 2^64.
pub fn sum_at(places: &[u32], values: &[Option<u64>]) -> u64
    ensures { result ≡ sum_by (λ at. unwrap_or (entry values.now at) 0) places.now % 2 ^ 64 }
{
    let mut total = 0u64;
    for at in places {
        total = total.wrapping_add(value_entry(values, *at).unwrap_or(0));
    }
    total
}

/// What a core keeps besides its table.
#[derive(Drop)]
pub struct RunState {
    pub history: Vec<Event>,
    pub started: Vec<bool>,
    pub running: Vec<Option<u32>>,
    pub values: Vec<Option<u64>>,
    pub graph: Graph,
    pub successors: FlatLists,
    pub counts: Vec<u32>,
}

/// What a core keeps at the start of a run.
pub fn first_state<const SEGMENTS: u32, const TASKS: u32>(
    alloc: Global,
    table: &BoundedTable<SEGMENTS, TASKS>,
) -> Result<RunState, AllocFault>
    ensures { IfOk result (AreFirst table.now) }
{
    open_segments::laws::serves_runs(table);
    let segments = table.len();
    let graph = graph_of(alloc, table)?;
    let successors = successors_of(alloc, &graph)?;
    let counts = predecessor_counts(alloc, &graph)?;
    Ok(RunState {
        history: Vec::with_capacity(alloc, 2 * segments as usize)?,
        started: copies_of(alloc, false, segments)?,
        running: copies_of(alloc, None, MOST_WORKERS)?,
        values: copies_of(alloc, None, segments)?,
        graph,
        successors,
        counts,
    })
}

/// A list of so many copies of one thing.
fn copies_of<T: Copy + Drop>(alloc: Global, one: T, count: u32) -> Result<Vec<T>, AllocFault>
    ensures { IfOk result (λ list. list.items ≡ replicate count one) }
{
    let mut list = Vec::with_capacity(alloc, count as usize)?;
    for _ in 0..count {
        list.push(one)?;
    }
    Ok(list)
}

/// How many predecessors each segment of a graph has.
fn predecessor_counts(alloc: Global, graph: &Graph) -> Result<Vec<u32>, AllocFault>
    ensures { IfOk result (λ counts. counts.items ≡ map length graph.now.predecessors) }
{
    let count = graph.len();
    let mut counts = Vec::with_capacity(alloc, count as usize)?;
    for segment in 0..count {
        counts.push(graph.preds(segment).len() as u32)?;
    }
    Ok(counts)
}
