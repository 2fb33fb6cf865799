//! The kept predecessors of all segments of a program, without a run.
ghost use Rattle.std.specs.Prelude.{◌≡◌, ◌<◌, ◌+◌, ◌-◌, IfOk, OnOk, length};
ghost use Rattle.task_segments.specs.Table.{segment};
ghost use Rattle.task_segments.specs.declared.table.Closing.TheVariants as closings;
ghost use Rattle.task_segments.specs.Precedence.{IsSegment};
ghost use Rattle.depend_table.specs.KeptEdges.{IsKeptEdge};
ghost use Rattle.depend_table.specs.Lists.{Lists};
ghost use Rattle.open_segments.specs.Families.{AreInFamilies};
ghost use Rattle.open_segments.specs.KeptLists.{AreFirstLists};
ghost use Rattle.open_segments.specs.Members.{AreMembers};

use crate::beginning::first_predecessors;
use crate::continuing::next_predecessors;
use crate::families::{Families, enter_depending, kept_children, no_families};
use crate::flat_lists::FlatLists;
use crate::opener::opener;
use crate::waiting_groups::{Members, group_members};
use std::alloc::Global;
use task_program::AllocFault;
use task_segments::table::{BoundedTable, Closing};

/// For each segment its kept predecessors, ascending. It is refused only when memory runs out.
pub fn all_predecessors<const SEGMENTS: u32, const TASKS: u32>(
    alloc: Global,
    table: &BoundedTable<SEGMENTS, TASKS>,
) -> Result<FlatLists, AllocFault>
    ensures { IfOk result (AreFirstLists table.now (length table.now.segments)) }
{
    crate::laws::serves_runs(table);
    let mut families = no_families(alloc);
    let members = group_members(alloc, table)?;
    let mut lists = FlatLists::with_capacity(alloc, table.len())?;
    lists.push_list(&[])?;
    for segment in 1..table.len() {
        let preds = predecessors(alloc, table, &mut families, &members, segment)?;
        lists.push_list(&preds)?;
    }
    Ok(lists)
}

/// The kept predecessors of a segment that is not the first.
fn predecessors<const SEGMENTS: u32, const TASKS: u32>(
    alloc: Global,
    table: &BoundedTable<SEGMENTS, TASKS>,
    families: &mut Families,
    members: &Members,
    segment: u32,
) -> Result<Vec<u32>, AllocFault>
    requires later { 0 < segment }
    requires known { IsSegment table.now segment }
    requires so_far { AreInFamilies table.now (segment - 1) families.old }
    requires members { AreMembers table.now members.now }
    ensures kept { IfOk result (λ preds.
        Lists (λ p. IsKeptEdge table.now p segment) preds.items) }
    ensures entered { OnOk result (AreInFamilies table.now segment families.new) }
{
    task_segments::laws::reads_in_place(table);
    let before = segment - 1;
    if let Closing::Creates(child) = table.closing(before) {
        return enter_child(alloc, table, families, before, child);
    }
    match opener(table, segment) {
        Some(opener) => next_predecessors(alloc, table, members, opener, segment),
        None => unreachable!(),
    }
}

/// The kept predecessors of the first segment of a child, which is entered among its siblings.
fn enter_child<const SEGMENTS: u32, const TASKS: u32>(
    alloc: Global,
    table: &BoundedTable<SEGMENTS, TASKS>,
    families: &mut Families,
    creator: u32,
    child: u32,
) -> Result<Vec<u32>, AllocFault>
    requires known { IsSegment table.now creator }
    requires creates { (segment table.now creator).closing ≡ closings.Creates child }
    requires so_far { AreInFamilies table.now creator families.old }
    ensures kept { IfOk result (λ preds.
        Lists (λ p. IsKeptEdge table.now p (creator + 1)) preds.items) }
    ensures entered { OnOk result (AreInFamilies table.now (creator + 1) families.new) }
{
    task_segments::laws::reads_in_place(table);
    let kept = kept_children(alloc, table, families, child)?;
    enter_depending(alloc, table, families, child)?;
    Ok(first_predecessors(table, child, kept))
}
