//! Copies of a table, and whether two tables are the same.
ghost use Rattle.std.specs.Prelude.{◌↔◌, ◌≡◌, IfOk, IsTrue};
ghost use Rattle.task_segments.specs.Copies.{facts_of};
ghost use Rattle.task_segments.specs.Precedence.{IsTask};
ghost use Rattle.task_segments.specs.Table.{task};

use crate::table::{BoundedTable, TaskRow};
use task_program::AllocFault;

/// What the table says of a task, but for its depend items.
#[derive(Clone, Copy, PartialEq, Eq)]
pub struct TaskFacts {
    pub parent: Option<u32>,
    pub creator: Option<u32>,
    pub undeferred: bool,
    pub first: u32,
    pub last: u32,
    pub innermost_group: Option<u32>,
    pub siblings_before: u32,
}

impl<const SEGMENTS: u32, const TASKS: u32> BoundedTable<SEGMENTS, TASKS> {
    /// An equal table. The error is out of memory.
    pub fn copy(&self) -> Result<BoundedTable<SEGMENTS, TASKS>, AllocFault>
        ensures { IfOk result (λ table. table ≡ self.now) }
    {
        Ok(BoundedTable {
            segments: self.segments.clone()?,
            tasks: copy_rows(&self.tasks)?,
            groups: self.groups.clone()?,
        })
    }

    /// Whether two tables are equal: exactly where all other calls but `copy` answer the same of
    /// both (`laws::equal_where_alike`).
    pub fn same(&self, other: &BoundedTable<SEGMENTS, TASKS>) -> bool
        ensures { IsTrue result ↔ (self.now ≡ other.now) }
    {
        self.same_segments(other) && self.same_tasks(other)
    }

    fn same_segments(&self, other: &BoundedTable<SEGMENTS, TASKS>) -> bool
        ensures { IsTrue result ↔ (self.now.segments ≡ other.now.segments) }
    {
        self.segments == other.segments
    }

    fn same_tasks(&self, other: &BoundedTable<SEGMENTS, TASKS>) -> bool
        ensures { IsTrue result ↔ (self.now.tasks ≡ other.now.tasks) }
    {
        if self.tasks() != other.tasks() {
            return false;
        }
        for t in 0..self.tasks() {
            if !self.same_task(other, t) {
                return false;
            }
        }
        true
    }

    fn same_task(&self, other: &BoundedTable<SEGMENTS, TASKS>, t: u32) -> bool
        requires one { IsTask self.now t }
        requires other { IsTask other.now t }
        ensures { IsTrue result ↔ (task self.now t ≡ task other.now t) }
    {
        self.facts(t) == other.facts(t) && self.items(t) == other.items(t)
    }

    fn facts(&self, t: u32) -> TaskFacts
        requires { IsTask self.now t }
        ensures { result ≡ facts_of (task self.now t) }
    {
        TaskFacts {
            parent: self.parent(t),
            creator: self.creator(t),
            undeferred: self.undeferred(t),
            first: self.first(t),
            last: self.last(t),
            innermost_group: self.innermost_group(t),
            siblings_before: self.siblings_before(t),
        }
    }
}

impl TaskRow {
    fn copy(&self) -> Result<TaskRow, AllocFault>
        ensures { IfOk result (λ row. row ≡ self.now) }
    {
        Ok(TaskRow {
            items: self.items.copy()?,
            ..*self
        })
    }
}

fn copy_rows(rows: &Vec<TaskRow>) -> Result<Vec<TaskRow>, AllocFault>
    ensures { IfOk result (λ copies. copies.items ≡ rows.now.items) }
{
    let mut copies = Vec::with_capacity(*rows.allocator(), rows.len())?;
    for row in rows {
        copies.push(row.copy()?)?;
    }
    Ok(copies)
}
