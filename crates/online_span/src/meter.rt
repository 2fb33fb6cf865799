//! The meter: work and span of the marks taken so far.
ghost use Rattle.std.specs.Prelude.{ℕ, ◌≡◌, ◌+◌, ◌<◌, ◌^◌, [], ◌∷◌, length, reverse, true, false};
ghost use Rattle.std.specs.Prelude.{max, if◌then◌else◌, OnOk, OnErr, List, nat_eq, ◌≤◌, vec_capacity};
ghost use Rattle.std.specs.HashMap.{get};
ghost use Rattle.program_text.specs.declared.statement.DependKind.{DependKind};
ghost use Rattle.task_program.specs.Marks.{Mark};
ghost use Rattle.task_program.specs.Marks.Mark.{Begins, Ends, Works, Waits, GroupBegins, GroupEnds};
ghost use Rattle.online_span.specs.Measuring.{Measures, CanTake, raised, Resumes, AreCounted};
ghost use Rattle.online_span.specs.NameEnds.{ends_at, ends_named, with_items, mentions, IsThere};

mod numbers;

use crate::ends_by_kind::EndsByKind;
use crate::name_ends::{latest_conflicting, make_all_room, note_all};
use std::alloc::Global;
use std::collections::HashMap;
use std::mem::replace;
use task_program::AllocFault;
use task_program::statement::Item;

/// A task that has begun and not ended.
#[derive(Drop)]
struct OpenTask {
    undeferred: bool,
    items: Vec<Item>,
    /// The earliest end of its current segment, as far as that one is read.
    end: u64,
    /// The greatest end of a child that has ended.
    children: u64,
    names: HashMap<u32, EndsByKind>,
}

/// Takes the marks of a program one by one, and answers its work and span.
#[derive(Drop)]
pub struct Meter {
    alloc: Global,
    running: OpenTask,
    outer: Vec<OpenTask>,
    groups: Vec<u64>,
    segments: u64,
    tasks: u64,
    work: u64,
    span: u64,
}

impl OpenTask {
    fn new(alloc: Global, undeferred: bool, items: Vec<Item>, end: u64) -> OpenTask
        ensures undeferred { result.undeferred ≡ undeferred }
        ensures items { result.items.items ≡ items.items }
        ensures end { result.end ≡ end }
        ensures children { result.children ≡ 0 }
        ensures names { (name : ℕ) (kind : DependKind) → ends_at result.names name kind ≡ 0 }
    {
        OpenTask {
            undeferred,
            items,
            end,
            children: 0,
            names: HashMap::new(alloc),
        }
    }

    /// Goes on after the end of a child, for whose items there is room.
    fn resume(&mut self, child: &OpenTask)
        requires { (name : ℕ) → mentions name child.now.items.items ≡ true
            → IsThere (get nat_eq self.old.names name) }
        ensures undeferred { self.new.undeferred ≡ self.old.undeferred }
        ensures items { self.new.items ≡ self.old.items }
        ensures end { self.new.end
            ≡ if child.now.undeferred then max self.old.end child.now.end else self.old.end }
        ensures children { self.new.children ≡ max self.old.children child.now.end }
        ensures names { (name : ℕ)
            → ends_named self.new.names name
            ≡ with_items name child.now.items.items child.now.end
            (ends_named self.old.names name) }
    {
        self.children = self.children.max(child.end);
        if child.undeferred {
            self.end = self.end.max(child.end);
        }
        note_all(&mut self.names, &child.items, child.end);
    }
}

impl Meter {
    /// The meter where the root has begun.
    pub fn new(alloc: Global) -> Meter
        ensures { Measures result (Begins false [] ∷ []) }
    {
        Meter {
            alloc,
            running: OpenTask::new(alloc, false, Vec::new(alloc), 0),
            outer: Vec::new(alloc),
            groups: Vec::new(alloc),
            segments: 1,
            tasks: 0,
            work: 0,
            span: 0,
        }
    }

    /// Takes work of the running task.
    pub fn work(&mut self, cost: u64)
        requires { CanTake self.old (Works cost) }
        ensures { (moment : List Mark) → Measures self.old moment
            → Measures self.new (Works cost ∷ moment) }
    {
        self.work += cost;
        self.running.end += cost;
        self.span = self.span.max(self.running.end);
    }

    /// Takes a wait of the running task for its children.
    pub fn wait(&mut self)
        requires { CanTake self.old Waits }
        ensures { (moment : List Mark) → Measures self.old moment
            → Measures self.new (Waits ∷ moment) }
    {
        self.segments += 1;
        self.running.end = self.running.end.max(self.running.children);
    }

    /// Takes the beginning of a group.
    pub fn begin_group(&mut self) -> Result<(), AllocFault>
        ensures ok { OnOk result ((moment : List Mark) → Measures self.old moment
            → Measures self.new (GroupBegins ∷ moment)) }
        ensures err { OnErr result ((moment : List Mark) → Measures self.old moment
            → Measures self.new moment) }
    {
        self.groups.push(0)?;
        Ok(())
    }

    /// Takes the end of the innermost group.
    pub fn end_group(&mut self)
        requires { CanTake self.old GroupEnds }
        ensures { (moment : List Mark) → Measures self.old moment
            → Measures self.new (GroupEnds ∷ moment) }
    {
        let latest = self.groups.pop().unwrap();
        self.segments += 1;
        self.running.end = self.running.end.max(latest);
        raise_last(&mut self.groups, latest);
    }

    /// Takes the beginning of a child of the running task.
    pub fn begin_task(&mut self, undeferred: bool, items: &[Item]) -> Result<(), AllocFault>
        requires { CanTake self.old (Begins undeferred items.now) }
        ensures ok { OnOk result ((moment : List Mark) → Measures self.old moment
            → Measures self.new (Begins undeferred items.now ∷ moment)) }
        ensures err { OnErr result ((moment : List Mark) → Measures self.old moment
            → Measures self.new moment) }
    {
        let copy = Vec::from_slice(self.alloc, items)?;
        self.outer.reserve(1)?;
        self.begin(undeferred, copy);
        Ok(())
    }

    fn begin(&mut self, undeferred: bool, items: Vec<Item>)
        requires room { length self.old.outer.items + 1 ≤ vec_capacity self.old.outer }
        requires segments { self.old.segments + 1 < 2 ^ 64 }
        requires tasks { self.old.tasks + 1 < 2 ^ 64 }
        ensures { (moment : List Mark) → Measures self.old moment
            → Measures self.new (Begins undeferred items.items ∷ moment) }
    {
        let conflicting = latest_conflicting(&self.running.names, &items);
        let start = self.running.end.max(conflicting);
        let child = OpenTask::new(self.alloc, undeferred, items, start);
        let parent = replace(&mut self.running, child);
        self.outer.push_reserved(parent);
        self.segments += 1;
        self.tasks += 1;
    }

    /// Takes the end of the running task, which is not the root.
    pub fn end_task(&mut self) -> Result<(), AllocFault>
        requires { CanTake self.old Ends }
        ensures ok { OnOk result ((moment : List Mark) → Measures self.old moment
            → Measures self.new (Ends ∷ moment)) }
        ensures err { OnErr result ((moment : List Mark) → Measures self.old moment
            → Measures self.new moment) }
    {
        let mut parent = self.outer.pop().unwrap();
        match make_all_room(&mut parent.names, &self.running.items) {
            Ok(()) => {
                self.end(parent);
                Ok(())
            }
            Err(fault) => {
                self.outer.push_reserved(parent);
                Err(fault)
            }
        }
    }

    fn end(&mut self, parent: OpenTask)
        requires room { (name : ℕ) → mentions name self.old.running.items.items ≡ true
            → IsThere (get nat_eq parent.names name) }
        requires few { self.old.segments + 1 < 2 ^ 64 }
        ensures running { Resumes self.old.running parent self.new.running }
        ensures outer { self.new.outer ≡ self.old.outer }
        ensures groups { reverse self.new.groups.items
            ≡ raised self.old.running.end (reverse self.old.groups.items) }
        ensures others { AreCounted self.old self.new }
    {
        let child = replace(&mut self.running, parent);
        self.running.resume(&child);
        raise_last(&mut self.groups, child.end);
        self.segments += 1;
    }
}

/// Raises the last number, if there is one and it is lower.
fn raise_last(numbers: &mut Vec<u64>, floor: u64)
    ensures { reverse numbers.new.items ≡ raised floor (reverse numbers.old.items) }
{
    if let Some(last) = numbers.pop() {
        numbers.push_reserved(last.max(floor));
    }
}
