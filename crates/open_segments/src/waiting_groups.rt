//! For each segment that opens after the end of a group the tasks that it waits for, in one pass over
//! all segments.
ghost use Rattle.std.specs.Prelude.{ℕ, Some, ◌≡◌, ◌<◌, ◌+◌, ◌++◌, ◌∷◌, [], ◌↔◌, IfOk, OnOk, length};
ghost use Rattle.std.specs.Prelude.{slice_index_or, slice_set, replicate, Contains, IsTrue};
ghost use Rattle.std.specs.List.Sorted.{IsStrictlyIncreasing};
ghost use Rattle.task_segments.specs.InPlace.{EndsBefore};
ghost use Rattle.task_segments.specs.Precedence.{Continues, IsSegment};
ghost use Rattle.task_segments.specs.Table.{segment};
ghost use Rattle.task_segments.specs.declared.table.Closing.TheVariants as closings;
ghost use Rattle.depend_table.specs.KeptEdges.{IsKeptEdge, KeptGroupEnd};
ghost use Rattle.depend_table.specs.Lists.{Lists};
ghost use Rattle.open_segments.specs.Members.{AreMembers, AreMembersBelow};
ghost use Rattle.open_segments.specs.NumberLists.{lists_of};

use crate::picked::push_if;
use std::alloc::Global;
use task_program::AllocFault;
use task_segments::table::{BoundedTable, Closing};

/// For the segments after the ends of groups, ascending, the last segments of the tasks whose innermost
/// group ends before each, ascending.
#[derive(Drop)]
pub struct Members {
    groups: Vec<u32>,
    lists: Vec<Vec<u32>>,
}

/// The tasks that the ends of groups wait for, in one pass over all segments.
pub fn group_members<const SEGMENTS: u32, const TASKS: u32>(
    alloc: Global,
    table: &BoundedTable<SEGMENTS, TASKS>,
) -> Result<Members, AllocFault>
    ensures { IfOk result (AreMembers table.now) }
{
    let groups = segments_after_groups(alloc, table)?;
    let mut lists = no_lists(alloc, groups.len())?;
    for segment in 0..table.len() {
        enter_member(table, &groups, &mut lists, segment)?;
    }
    Ok(Members { groups, lists })
}

/// As many empty lists.
fn no_lists(alloc: Global, count: usize) -> Result<Vec<Vec<u32>>, AllocFault>
    ensures { IfOk result (λ lists. lists_of lists.items ≡ replicate count []) }
{
    let mut lists = Vec::with_capacity(alloc, count)?;
    for _ in 0..count {
        lists.push(Vec::new(alloc))?;
    }
    Ok(lists)
}

/// The segments after the ends of groups, ascending.
fn segments_after_groups<const SEGMENTS: u32, const TASKS: u32>(
    alloc: Global,
    table: &BoundedTable<SEGMENTS, TASKS>,
) -> Result<Vec<u32>, AllocFault>
    ensures { IfOk result (λ groups. Lists (EndsBefore table.now) groups.items) }
{
    task_segments::laws::reads_in_place(table);
    let mut groups = Vec::new(alloc);
    for before in 0..table.len() {
        push_if(&mut groups, before + 1, ends_group(table, before))?;
    }
    Ok(groups)
}

fn ends_group<const SEGMENTS: u32, const TASKS: u32>(
    table: &BoundedTable<SEGMENTS, TASKS>,
    before: u32,
) -> bool
    requires { IsSegment table.now before }
    ensures { IsTrue result ↔ ((segment table.now before).closing ≡ closings.EndsGroup) }
{
    matches!(table.closing(before), Closing::EndsGroup)
}

/// Where a number stands in a list.
fn place_in(list: &[u32], number: u32) -> usize
    requires ascending { IsStrictlyIncreasing list.now }
    requires among { Contains list.now number }
    ensures within { result < length list.now }
    ensures there { slice_index_or list.now result 0 ≡ number }
{
    match list.binary_search(&number) {
        Ok(place) => place,
        Err(_) => unreachable!(),
    }
}

/// Enters a segment where it is the last one of a task in a group.
fn enter_member<const SEGMENTS: u32, const TASKS: u32>(
    table: &BoundedTable<SEGMENTS, TASKS>,
    groups: &[u32],
    lists: &mut Vec<Vec<u32>>,
    segment: u32,
) -> Result<(), AllocFault>
    requires known { IsSegment table.now segment }
    requires so_far { AreMembersBelow table.now segment groups.now (lists_of lists.old.items) }
    ensures { OnOk result (AreMembersBelow table.now (segment + 1) groups.now
        (lists_of lists.new.items)) }
{
    task_segments::laws::reads_in_place(table);
    match joined_group(table, segment) {
        Some(group) => push_one(lists, place_in(groups, group), segment),
        None => Ok(()),
    }
}

/// The segment after the innermost group of a task, where this is the task's last segment.
fn joined_group<const SEGMENTS: u32, const TASKS: u32>(
    table: &BoundedTable<SEGMENTS, TASKS>,
    segment: u32,
) -> Option<u32>
    requires { IsSegment table.now segment }
    ensures { (t : ℕ) → (result ≡ Some t) ↔ KeptGroupEnd table.now segment t }
{
    task_segments::laws::reads_in_place(table);
    let task = table.task_of(segment);
    if table.last(task) != segment {
        return None;
    }
    table.innermost_group(task)
}

/// Puts a number at the end of the list at a place.
fn push_one(lists: &mut Vec<Vec<u32>>, place: usize, number: u32) -> Result<(), AllocFault>
    requires { place < length lists.old.items }
    ensures { OnOk result (lists_of lists.new.items ≡ slice_set (lists_of lists.old.items) place
        (slice_index_or (lists_of lists.old.items) place [] ++ number ∷ [])) }
{
    lists[place].push(number)?;
    Ok(())
}

/// The kept predecessors of a segment that goes on after the end of a group: those that it waits
/// for, and then the one that ends the group.
pub fn after_members<const SEGMENTS: u32, const TASKS: u32>(
    alloc: Global,
    table: &BoundedTable<SEGMENTS, TASKS>,
    members: &Members,
    before: u32,
    next: u32,
) -> Result<Vec<u32>, AllocFault>
    requires follows { Continues table.now before next }
    requires ends { (segment table.now before).closing ≡ closings.EndsGroup }
    requires members { AreMembers table.now members.now }
    ensures { IfOk result (λ preds. Lists (λ p. IsKeptEdge table.now p next) preds.items) }
{
    task_segments::laws::reads_in_place(table);
    let place = place_in(&members.groups, next);
    let mut preds = Vec::from_slice(alloc, members.lists[place].as_slice())?;
    preds.push(before)?;
    Ok(preds)
}
