//! Depend items of a task, with one for each name.
ghost use Rattle.std.specs.Prelude.{◌≡◌, ◌++◌, ◌∷◌, [], IfOk};
ghost use Rattle.depend_table.specs.Generations.{is_kind};
ghost use Rattle.depend_table.specs.Merged.{AreMerged, both, merged_with, with_last};
ghost use Rattle.std.specs.List.Sorted.{IsNonDecreasingBy};

use crate::table::is_kind;
use std::alloc::Global;
use task_program::AllocFault;
use task_program::statement::{DependKind, Item};

/// One item for each name of these, ascending by name, for a task that shares the same.
pub(crate) fn merged_items(alloc: Global, items: &[Item]) -> Result<Vec<Item>, AllocFault>
    ensures { IfOk result (λ merged. AreMerged items.now merged.items) }
{
    let mut sorted = Vec::from_slice(alloc, items)?;
    sorted.sort_unstable_by_key(|item| item.name);
    merged_in_order(alloc, &sorted)
}

/// The same of items in the order of their names.
fn merged_in_order(alloc: Global, items: &[Item]) -> Result<Vec<Item>, AllocFault>
    requires { IsNonDecreasingBy (λ item. item.name) items.now }
    ensures { IfOk result (λ merged. AreMerged items.now merged.items) }
{
    let mut merged = Vec::with_capacity(alloc, items.len())?;
    let mut last = None;
    for item in items {
        let next = next_item(&mut merged, last, *item)?;
        last = Some(next);
    }
    complete(merged, last)
}

/// The merged items and the last one, where there is one.
fn complete(mut merged: Vec<Item>, last: Option<Item>) -> Result<Vec<Item>, AllocFault>
    ensures { IfOk result (λ whole. whole.items ≡ with_last merged.items last) }
{
    if let Some(last) = last {
        merged.push(last)?;
    }
    Ok(merged)
}

/// The last item once this one has followed: they are merged where both are on one name.
fn next_item(merged: &mut Vec<Item>, last: Option<Item>, item: Item) -> Result<Item, AllocFault>
    ensures whole { IfOk result (λ next. merged.new.items ++ next ∷ []
        ≡ merged_with merged.old.items last item) }
    ensures name { IfOk result (λ next. next.name ≡ item.name) }
{
    let Some(last) = last else {
        return Ok(item);
    };
    if last.name != item.name {
        merged.push(last)?;
        return Ok(item);
    }
    let kind = both(last.kind, item.kind);
    Ok(Item { kind, ..item })
}

/// The type of one item in place of two on a name.
fn both(one: DependKind, other: DependKind) -> DependKind
    ensures { result ≡ both one other }
{
    if is_kind(one, other) {
        one
    } else {
        DependKind::DependInOut
    }
}
