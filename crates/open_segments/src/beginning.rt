//! The kept predecessors of the first segment of a task.
ghost use Rattle.std.specs.Prelude.{ℕ, ◌≡◌, ◌<◌, ◌≤◌, map, vec_len, vec_capacity};
ghost use Rattle.std.specs.Prelude.{Contains};
ghost use Rattle.task_segments.specs.Table.{task};
ghost use Rattle.task_segments.specs.Precedence.{IsTask};
ghost use Rattle.depend_table.specs.KeptEdges.{IsKeptEdge};
ghost use Rattle.depend_table.specs.Lists.{Lists};
ghost use Rattle.open_segments.specs.WaysToOpen.{AreKeptSiblings, last_segment};

use task_segments::table::BoundedTable;

/// The kept predecessors of a child's first segment: the last segments of its kept siblings, and
/// then its creator.
pub fn first_predecessors<const SEGMENTS: u32, const TASKS: u32>(
    table: &BoundedTable<SEGMENTS, TASKS>,
    child: u32,
    kept: Vec<u32>,
) -> Vec<u32>
    requires kept { AreKeptSiblings table.now child kept.items }
    requires room { vec_len kept < vec_capacity kept }
    ensures { Lists (λ p. IsKeptEdge table.now p (task table.now child).first) result.items }
{
    task_segments::laws::reads_in_place(table);
    let mut preds = kept;
    to_last_segments(table, &mut preds);
    match table.creator(child) {
        Some(creator) => preds.push_reserved(creator),
        None => {}
    }
    preds
}

/// Puts for each task its last segment.
fn to_last_segments<const SEGMENTS: u32, const TASKS: u32>(
    table: &BoundedTable<SEGMENTS, TASKS>,
    tasks: &mut Vec<u32>,
)
    requires { (u : ℕ) → Contains tasks.old.items u → IsTask table.now u }
    ensures items { tasks.new.items ≡ map (last_segment table.now) tasks.old.items }
    ensures capacity { vec_capacity tasks.old ≤ vec_capacity tasks.new }
{
    for at in 0..tasks.len() {
        tasks[at] = table.last(tasks[at]);
    }
}
