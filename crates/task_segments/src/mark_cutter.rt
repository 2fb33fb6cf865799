//! The cutting of a program whose marks come one after another.
ghost use Rattle.std.specs.Prelude.{◌≡◌, ◌<◌, ◌∷◌, [], false, IfOk, OnOk, List};
ghost use Rattle.std.specs.Prelude.{◌↔◌, IsTrue, OnErr};
ghost use Rattle.task_program.specs.Marks.{Mark};
ghost use Rattle.task_program.specs.Marks.Mark.{Begins, Ends, GroupBegins, GroupEnds, Waits, Works};
ghost use Rattle.task_segments.specs.MarkCutting.{AreWithin, CanTake, IsWhole, Tables, HasRoomForOne};
ghost use Rattle.task_segments.specs.MarksTable.{IsReading};
ghost use Rattle.task_segments.specs.Moments.{last_moment};
ghost use Rattle.task_segments.specs.Table.{table_of};
ghost use Rattle.task_segments.specs.Cutting.{innermost_open};

use crate::cutter::Cutter;
use crate::limits::MOST_ROWS;
use crate::table::LargeTable;
use std::alloc::Global;
use task_program::AllocFault;
use task_program::statement::{Body, Items, TaskStmt};

/// A group that is open: its number, and how many children its task had created before it.
#[derive(Clone, Copy)]
struct GroupRow {
    number: u32,
    children_before: u32,
}

/// Takes the marks of a program one by one, and makes its table. What it keeps are the rows so far,
/// and which tasks and groups are open.
#[derive(Drop)]
pub struct MarkCutter {
    alloc: Global,
    cutter: Cutter,
    /// The task whose code is read.
    running: u32,
    /// The other open tasks, the innermost last.
    outer: Vec<u32>,
    /// The open groups, the innermost last.
    groups: Vec<GroupRow>,
}

impl MarkCutter {
    /// The rows where the root has begun.
    pub fn new(alloc: Global) -> Result<MarkCutter, AllocFault>
        ensures { IfOk result (λ cutter. Tables cutter (Begins false [] ∷ [])) }
    {
        Ok(MarkCutter {
            alloc,
            cutter: Cutter::new(alloc)?,
            running: 0,
            outer: Vec::new(alloc),
            groups: Vec::new(alloc),
        })
    }

    /// Whether there is room for one more row of each kind.
    pub fn has_room(&self) -> bool
        ensures { IsTrue result ↔ HasRoomForOne self.now }
    {
        self.cutter.segments.len() < MOST_ROWS as usize
            && self.cutter.tasks.len() < MOST_ROWS as usize
            && self.cutter.groups.len() < MOST_ROWS as usize
    }

    /// Whether the rows are within the limit of a table.
    pub fn is_within(&self) -> bool
        ensures { IsTrue result ↔ AreWithin self.now }
    {
        self.cutter.segments.len() <= MOST_ROWS as usize
            && self.cutter.tasks.len() <= MOST_ROWS as usize
    }

    /// Takes work of the running task.
    pub fn work(&mut self, cost: u64)
        requires { CanTake self.old (Works cost) }
        ensures { (moment : List Mark) → Tables self.old moment
            → Tables self.new (Works cost ∷ moment) }
    {
        self.cutter.work(cost);
    }

    /// Takes a wait of the running task for its children.
    pub fn wait(&mut self) -> Result<(), AllocFault>
        requires { CanTake self.old Waits }
        ensures ok { OnOk result ((moment : List Mark) → Tables self.old moment
            → Tables self.new (Waits ∷ moment)) }
        ensures err { OnErr result ((moment : List Mark) → Tables self.old moment
            → Tables self.new moment) }
    {
        self.cutter.wait(self.running)
    }

    /// Takes the beginning of a group.
    pub fn begin_group(&mut self) -> Result<(), AllocFault>
        requires { CanTake self.old GroupBegins }
        ensures ok { OnOk result ((moment : List Mark) → Tables self.old moment
            → Tables self.new (GroupBegins ∷ moment)) }
        ensures err { OnErr result ((moment : List Mark) → Tables self.old moment
            → Tables self.new moment) }
    {
        let children_before = self.cutter.children(self.running);
        self.groups.reserve(1)?;
        let number = self.cutter.begin_group()?;
        self.groups.push_reserved(GroupRow {
            number,
            children_before,
        });
        Ok(())
    }

    /// Takes the end of the innermost group.
    pub fn end_group(&mut self) -> Result<(), AllocFault>
        requires { CanTake self.old GroupEnds }
        ensures ok { OnOk result ((moment : List Mark) → Tables self.old moment
            → Tables self.new (GroupEnds ∷ moment)) }
        ensures err { OnErr result ((moment : List Mark) → Tables self.old moment
            → Tables self.new moment) }
    {
        let group = self.groups[self.groups.len() - 1];
        self.cutter
            .end_group(self.running, group.number, group.children_before)?;
        self.groups.pop();
        Ok(())
    }

    /// Takes the beginning of a child of the running task.
    pub fn begin_task(&mut self, undeferred: bool, items: Items) -> Result<(), AllocFault>
        requires { CanTake self.old (Begins undeferred items) }
        ensures ok { OnOk result ((moment : List Mark) → Tables self.old moment
            → Tables self.new (Begins undeferred items ∷ moment)) }
        ensures err { OnErr result ((moment : List Mark) → Tables self.old moment
            → Tables self.new moment) }
    {
        let group = self.innermost();
        let statement = TaskStmt {
            undeferred,
            items,
            body: Body::new(Vec::new(self.alloc)),
        };
        self.outer.reserve(1)?;
        let child = self.cutter.begin_task(&statement, self.running, group)?;
        self.outer.push_reserved(self.running);
        self.running = child;
        Ok(())
    }

    /// Takes the end of the running task.
    pub fn end_task(&mut self) -> Result<(), AllocFault>
        requires { CanTake self.old Ends }
        ensures ok { OnOk result ((moment : List Mark) → Tables self.old moment
            → Tables self.new (Ends ∷ moment)) }
        ensures err { OnErr result ((moment : List Mark) → Tables self.old moment
            → Tables self.new moment) }
    {
        let parent = self.outer[self.outer.len() - 1];
        self.cutter.end_task(parent)?;
        self.outer.pop();
        self.running = parent;
        Ok(())
    }

    // The innermost open group, by its number.
    fn innermost(&self) -> Option<u32>
        ensures { (moment : List Mark) → Tables self.now moment
            → innermost_open moment ≡ result }
    {
        match self.groups.last() {
            Some(group) => Some(group.number),
            None => None,
        }
    }

    /// The table, where all marks have been taken.
    pub fn finish(self) -> LargeTable
        requires { IsWhole self }
        ensures { (marks : List Mark) → IsReading marks → Tables self (last_moment marks)
            → result ≡ table_of marks }
    {
        LargeTable {
            segments: self.cutter.segments,
            tasks: self.cutter.tasks,
            groups: self.cutter.groups,
        }
    }
}
