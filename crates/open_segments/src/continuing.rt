//! The kept predecessors of a segment that goes on after another one of its task.
//!
//! They are gathered ascending, by how the one before it closes:
//! - Where it creates a task: that segment, and then the task's last one if the task is undeferred.
//! - At a wait: the last segments of the children since the previous wait, and then the segment
//!   before. A walk along the task's own segments, from `wait_begin` on, meets these children where
//!   it creates them.
//! - At the end of a group: the last segments of the tasks whose innermost group it is, which
//!   `waiting_groups` has found for all groups, and then the segment before.
//!
//! `beginning` has those of the first segment of a task: the last segments of the kept siblings, as
//! the table of its parent's children has them (`depend_table`), and then its creator.
ghost use Rattle.std.specs.Prelude.{ℕ, Some, ◌≡◌, ◌<◌, ◌≤◌, ◌↔◌, IfOk};
ghost use Rattle.task_segments.specs.Table.{segment, task};
ghost use Rattle.task_segments.specs.declared.table.Closing.TheVariants as closings;
ghost use Rattle.task_segments.specs.InPlace.{IsOf};
ghost use Rattle.task_segments.specs.Precedence.{Continues, IsEarlierChild, IsSegment};
ghost use Rattle.depend_table.specs.KeptEdges.{IsKeptEdge, KeptWait};
ghost use Rattle.depend_table.specs.Lists.{Lists};
ghost use Rattle.open_segments.specs.Members.{AreMembers};

use crate::opener::opener;
use crate::waiting_groups::{Members, after_members};
use std::alloc::Global;
use task_program::AllocFault;
use task_segments::table::{BoundedTable, Closing};

/// The kept predecessors of the segment that goes on after `before` in its task, ascending.
pub fn next_predecessors<const SEGMENTS: u32, const TASKS: u32>(
    alloc: Global,
    table: &BoundedTable<SEGMENTS, TASKS>,
    members: &Members,
    before: u32,
    next: u32,
) -> Result<Vec<u32>, AllocFault>
    requires follows { Continues table.now before next }
    requires members { AreMembers table.now members.now }
    ensures { IfOk result (λ preds. Lists (λ p. IsKeptEdge table.now p next) preds.items) }
{
    task_segments::laws::reads_in_place(table);
    match table.closing(before) {
        Closing::Creates(child) => after_task(alloc, table, before, next, child),
        Closing::Waits => after_wait(alloc, table, before, next),
        Closing::EndsGroup => after_members(alloc, table, members, before, next),
        Closing::EndsTask => unreachable!(),
    }
}

/// After a segment that creates a task: that segment, and the task's last one if the task is
/// undeferred.
fn after_task<const SEGMENTS: u32, const TASKS: u32>(
    alloc: Global,
    table: &BoundedTable<SEGMENTS, TASKS>,
    before: u32,
    next: u32,
    child: u32,
) -> Result<Vec<u32>, AllocFault>
    requires follows { Continues table.now before next }
    requires creates { (segment table.now before).closing ≡ closings.Creates child }
    ensures { IfOk result (λ preds. Lists (λ p. IsKeptEdge table.now p next) preds.items) }
{
    task_segments::laws::reads_in_place(table);
    let last = table.last(child);
    let mut preds = Vec::new(alloc);
    preds.push(before)?;
    if !table.undeferred(child) {
        return Ok(preds);
    }
    preds.push(last)?;
    Ok(preds)
}

/// After a wait: the last segments of the children since the task's previous wait, and then the one
/// that waits. Of the segments between only the task's own are looked at.
fn after_wait<const SEGMENTS: u32, const TASKS: u32>(
    alloc: Global,
    table: &BoundedTable<SEGMENTS, TASKS>,
    before: u32,
    next: u32,
) -> Result<Vec<u32>, AllocFault>
    requires follows { Continues table.now before next }
    requires waits { (segment table.now before).closing ≡ closings.Waits }
    ensures { IfOk result (λ preds. Lists (λ p. IsKeptEdge table.now p next) preds.items) }
{
    task_segments::laws::reads_in_place(table);
    let mut preds = Vec::new(alloc);
    let mut segment = wait_begin(table, before, next);
    while segment < before {
        if let Closing::Creates(child) = table.closing(segment) {
            preds.push(table.last(child))?;
        }
        segment = table.next(segment).unwrap();
    }
    preds.push(before)?;
    Ok(preds)
}

/// The first segment of the task after its previous wait. The children that end from there on are
/// those that the wait after `before` waits for.
fn wait_begin<const SEGMENTS: u32, const TASKS: u32>(
    table: &BoundedTable<SEGMENTS, TASKS>,
    before: u32,
    next: u32,
) -> u32
    requires follows { Continues table.now before next }
    requires waits { (segment table.now before).closing ≡ closings.Waits }
    ensures of_task { IsOf table.now (segment table.now before).task result }
    ensures up_to { result ≤ before }
    ensures reached { (s : ℕ) → KeptWait table.now s next → result ≤ s }
    ensures waited { (c : ℕ) → IsEarlierChild table.now c next → result ≤ (task table.now c).last
        → KeptWait table.now (task table.now c).last next }
{
    task_segments::laws::reads_in_place(table);
    let mut from = before;
    while let Some(earlier) = previous_segment(table, from) {
        match table.closing(earlier) {
            Closing::Waits => return from,
            _ => from = earlier,
        }
    }
    from
}

/// The segment before one in its task, if there is one.
fn previous_segment<const SEGMENTS: u32, const TASKS: u32>(
    table: &BoundedTable<SEGMENTS, TASKS>,
    segment: u32,
) -> Option<u32>
    requires { IsSegment table.now segment }
    ensures { (s : ℕ) → (result ≡ Some s) ↔ Continues table.now s segment }
{
    task_segments::laws::reads_in_place(table);
    if table.first(table.task_of(segment)) == segment {
        return None;
    }
    opener(table, segment)
}
