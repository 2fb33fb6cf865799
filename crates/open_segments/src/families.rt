//! The children with depend items, by their parents. A child without them is kept after none of its
//! siblings, and none is kept after it. So most tasks have no table here.
ghost use Rattle.std.specs.Prelude.{ℕ, ◌≡◌, ◌≢◌, ◌<◌, ◌∷◌, [], Some, All, IfOk, OnOk};
ghost use Rattle.std.specs.Prelude.{vec_len, vec_capacity};
ghost use Rattle.task_segments.specs.Table.{task};
ghost use Rattle.task_segments.specs.Precedence.{IsTask};
ghost use Rattle.depend_table.specs.KeptEdges.{children_below};
ghost use Rattle.depend_table.specs.Lists.{Lists};
ghost use Rattle.depend_table.specs.Siblings.{IsKept};
ghost use Rattle.open_segments.specs.Families.{depending, family_at};
ghost use Rattle.open_segments.specs.WaysToOpen.{AreKeptSiblings};

use depend_table::table::SiblingTable;
use std::alloc::Global;
use std::collections::HashMap;
use task_program::AllocFault;
use task_program::statement::Item;
use task_segments::table::BoundedTable;

/// The tables of the parents that have such children.
pub(crate) type Families = HashMap<u32, SiblingTable>;

pub(crate) fn no_families(alloc: Global) -> Families
    ensures { (p : ℕ) → family_at result p ≡ [] }
{
    HashMap::new(alloc)
}

/// The kept siblings of a child, with room for one more.
pub(crate) fn kept_children<const SEGMENTS: u32, const TASKS: u32>(
    alloc: Global,
    table: &BoundedTable<SEGMENTS, TASKS>,
    families: &Families,
    child: u32,
) -> Result<Vec<u32>, AllocFault>
    requires known { IsTask table.now child }
    requires later { 0 < child }
    requires so_far { (parent : ℕ) → (task table.now child).parent ≡ Some parent
        → family_at families.now parent ≡ depending (children_below table.now parent child) }
    ensures kept { IfOk result (λ kept. AreKeptSiblings table.now child kept.items) }
    ensures room { IfOk result (λ kept. vec_len kept < vec_capacity kept) }
{
    task_segments::laws::reads_in_place(table);
    match table.parent(child) {
        Some(parent) => kept_in_family(alloc, families, parent, table.items(child)),
        None => unreachable!(),
    }
}

/// The kept siblings of a child of this task with these items, with room for one more.
fn kept_in_family(
    alloc: Global,
    families: &Families,
    parent: u32,
    items: &[Item],
) -> Result<Vec<u32>, AllocFault>
    ensures kept { IfOk result (λ kept.
        Lists (IsKept (family_at families.now parent) items.now) kept.items) }
    ensures room { IfOk result (λ kept. vec_len kept < vec_capacity kept) }
{
    match families.get(&parent) {
        Some(family) => with_room(family.kept_siblings(items)?),
        None => with_room(Vec::new(alloc)),
    }
}

/// The list, with room for one more.
fn with_room(list: Vec<u32>) -> Result<Vec<u32>, AllocFault>
    ensures same { IfOk result (λ roomy. roomy.items ≡ list.items) }
    ensures room { IfOk result (λ roomy. vec_len roomy < vec_capacity roomy) }
{
    let mut roomy = list;
    roomy.reserve(1)?;
    Ok(roomy)
}

/// Enters a child, where it has depend items, among those of its parent.
pub(crate) fn enter_depending<const SEGMENTS: u32, const TASKS: u32>(
    alloc: Global,
    table: &BoundedTable<SEGMENTS, TASKS>,
    families: &mut Families,
    child: u32,
) -> Result<(), AllocFault>
    requires known { IsTask table.now child }
    requires later { 0 < child }
    requires so_far { (parent : ℕ) → (task table.now child).parent ≡ Some parent
        → family_at families.old parent ≡ depending (children_below table.now parent child) }
    ensures entered { OnOk result ((parent : ℕ) → (task table.now child).parent ≡ Some parent
        → family_at families.new parent ≡ depending
        (record { task = child; items = (task table.now child).items }
        ∷ children_below table.now parent child)) }
    ensures others { OnOk result ((parent other : ℕ)
        → (task table.now child).parent ≡ Some parent → other ≢ parent
        → family_at families.new other ≡ family_at families.old other) }
{
    task_segments::laws::reads_in_place(table);
    let items = table.items(child);
    if items.is_empty() {
        return Ok(());
    }
    match table.parent(child) {
        Some(parent) => enter_in_family(alloc, families, parent, child, items),
        None => unreachable!(),
    }
}

/// Enters a child among those of this task.
fn enter_in_family(
    alloc: Global,
    families: &mut Families,
    parent: u32,
    child: u32,
    items: &[Item],
) -> Result<(), AllocFault>
    requires { All (λ sibling. sibling.task < child) (family_at families.old parent) }
    ensures entered { OnOk result (family_at families.new parent
        ≡ record { task = child; items = items.now } ∷ family_at families.old parent) }
    ensures others { OnOk result ((other : ℕ) → other ≢ parent
        → family_at families.new other ≡ family_at families.old other) }
{
    if let Some(family) = families.get_mut(&parent) {
        return family.add(child, items);
    }
    let mut family = SiblingTable::new(alloc)?;
    family.add(child, items)?;
    families.insert(parent, family)?;
    Ok(())
}
