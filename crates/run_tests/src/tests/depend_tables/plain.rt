//! The kept siblings by their definition: all siblings, each item with its task's rank at the
//! item's name. The tests compare the table with it.
use std::alloc::Global;
use task_program::AllocFault;
use task_program::statement::{Item, conflicts};

#[derive(Clone, Copy)]
struct RankedItem {
    item: Item,
    rank: u32,
}

#[derive(Drop)]
struct RankedTask {
    task: u32,
    items: Vec<RankedItem>,
}

/// The siblings that one task has created so far.
#[derive(Drop)]
pub struct PlainTable {
    alloc: Global,
    tasks: Vec<RankedTask>,
}

impl PlainTable {
    /// A table of no siblings.
    pub(crate) fn new(alloc: Global) -> PlainTable {
        PlainTable {
            alloc,
            tasks: Vec::new(alloc),
        }
    }

    /// The earlier siblings that a new task is kept after.
    pub(crate) fn generate(&mut self, task: u32, items: &[Item]) -> Result<Vec<u32>, AllocFault> {
        let mut ranked = Vec::new(self.alloc);
        for item in items {
            ranked.push(RankedItem {
                item: *item,
                rank: self.rank(item.name, items),
            })?;
        }
        let mut kept = Vec::new(self.alloc);
        for earlier in &self.tasks {
            if is_kept(&earlier.items, &ranked) {
                kept.push(earlier.task)?;
            }
        }
        self.tasks.push(RankedTask {
            task,
            items: ranked,
        })?;
        Ok(kept)
    }

    /// One more than the greatest rank at the name among the siblings that conflict there with
    /// these items, else 0.
    fn rank(&self, name: u32, items: &[Item]) -> u32 {
        let mut rank = 0;
        for earlier in &self.tasks {
            rank = rank.max(rank_after(&earlier.items, name, items));
        }
        rank
    }
}

/// One more than the greatest rank at the name among the earlier items that conflict with the later
/// ones, else 0.
fn rank_after(earlier: &[RankedItem], name: u32, later: &[Item]) -> u32 {
    let mut rank = 0;
    for one in earlier {
        if one.item.name == name && conflicts(&[one.item], later) {
            rank = rank.max(one.rank.saturating_add(1));
        }
    }
    rank
}

/// Whether two items conflict where the earlier task's rank is one less.
fn is_kept(earlier: &[RankedItem], later: &[RankedItem]) -> bool {
    earlier
        .iter()
        .any(|one| later.iter().any(|other| goes_before(*one, *other)))
}

fn goes_before(one: RankedItem, other: RankedItem) -> bool {
    conflicts(&[one.item], &[other.item]) && one.rank.saturating_add(1) == other.rank
}
