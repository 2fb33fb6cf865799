//! The statements of a program, as a tree. Contracts see a body as the list of its marks.
ghost use Rattle.std.specs.Prelude.{◌≡◌, IsTrue};
ghost use Rattle.std.specs.List.{list_all, list_any};
ghost use Rattle.program_text.specs.Conflict.{items_conflict, conflicts_with, kinds_conflict};
ghost use Rattle.program_text.specs.Quick.{AreApart, AreFrom, AreUpTo, is_read};

use crate::AllocFault;
use std::alloc::Global;
use std::marker::Model;

/// The type of a depend item: the dependence type of a `depend` clause.
#[derive(Clone, Copy, Debug, PartialEq, Eq)]
pub enum DependKind {
    /// `in`
    DependIn,
    /// `out`
    DependOut,
    /// `inout`
    DependInOut,
    /// `inoutset`
    DependInOutSet,
}

/// A depend item: a location, by the number of its name, and how the task depends on it.
#[derive(Clone, Copy, Debug, PartialEq, Eq)]
pub struct Item {
    pub kind: DependKind,
    pub name: u32,
}

/// The depend items of a task, clause by clause in the order of the text, repeated ones too. A
/// program has at most `MOST_ITEMS` for each task.
#[derive(Drop)]
pub struct Items {
    items: Vec<Item>,
}

impl Model for Items {
    ghost use Rattle.std.specs.Prelude.{List};
    ghost use Rattle.program_text.specs.declared.statement.Item.{Item};

    ghost Value = { List Item };

    ghost view = { λ a. a.items.items };
}

impl Items {
    ghost use Rattle.std.specs.Prelude.{[], ◌∷◌, ◌++◌, length, IfOk, OnOk, OnErr};

    /// No items.
    pub fn new(alloc: Global) -> Items
        ensures { result ≡ [] }
    {
        Items {
            items: Vec::new(alloc),
        }
    }

    /// Puts an item last.
    pub fn push(&mut self, item: Item) -> Result<(), AllocFault>
        ensures ok { OnOk result (self.new ≡ self.old ++ item ∷ []) }
        ensures err { OnErr result (self.new ≡ self.old) }
    {
        self.items.push(item)?;
        Ok(())
    }

    /// How many items there are.
    pub fn len(&self) -> usize
        ensures { result ≡ length self.now }
    {
        self.items.len()
    }

    /// The items, in their order.
    pub fn as_slice(&self) -> &[Item]
        ensures { result.now ≡ self.now }
    {
        self.items.as_slice()
    }

    /// An equal list. The one error is out of memory.
    pub fn copy(&self) -> Result<Items, AllocFault>
        ensures { IfOk result (λ items. items ≡ self.now) }
    {
        Ok(Items {
            items: self.items.clone()?,
        })
    }
}

/// A statement of a task.
#[derive(Drop)]
#[cycle(body)]
pub enum Stmt {
    /// `work`: this cost, at most `LARGEST_COST` in a program.
    Work(u64),
    /// The construct `task`.
    Task(TaskStmt),
    /// The construct `taskwait`, without clauses.
    Wait,
    /// The construct `taskgroup`, with its statements.
    Group(Body),
}

/// A task that is created here: whether it is undeferred (an `if` clause of value 0, or a task with
/// `final(1)` around it), its depend items, and its code.
#[derive(Drop)]
#[cycle(body)]
pub struct TaskStmt {
    pub undeferred: bool,
    pub items: Items,
    pub body: Body,
}

/// The statements of a task or of a group. Contracts see the list of their marks: a task or a group
/// is a mark where it begins, the marks of its statements, and a mark where it ends; any other
/// statement is one mark.
#[derive(Drop)]
#[cycle(body)]
pub struct Body {
    statements: Vec<Stmt>,
}

impl Model for Body {
    ghost use Rattle.std.specs.Prelude.{List, length};
    ghost use Rattle.program_text.specs.Marks.{Mark};

    ghost Value = { List Mark };

    ghost use Rattle.program_text.specs.Statements.{marks_of};

    ghost view = { λ a. marks_of a.statements.items };

    ghost size = { length };

    ghost use Rattle.program_text.specs.Shrinking.{marks_shrink};

    ghost size_decreases = { λ a h. marks_shrink a.statements.items };
}

impl Body {
    ghost use Rattle.program_text.specs.Statements.{marks_of};

    /// The body that has these statements.
    pub fn new(statements: Vec<Stmt>) -> Body
        ensures { result ≡ marks_of statements.items }
    {
        Body { statements }
    }

    /// The statements, in their order.
    pub fn as_slice(&self) -> &[Stmt]
        ensures { self.now ≡ marks_of result.now }
    {
        self.statements.as_slice()
    }
}

/// Whether some item of one list conflicts with some item of the other. Two items conflict where
/// they name one location, unless both are `in` or both are `inoutset`: the dependence rules of the
/// OpenMP API 5.2, `depend` clause. It takes no memory. Where both lists only read, or the names of
/// the one are all numbered below those of the other, each item is looked at a few times; else each
/// pair of items.
#[tactic(auto, using(crate::proofs::Quick::reads_apart, crate::proofs::Quick::names_apart))]
pub fn conflicts(earlier: &[Item], later: &[Item]) -> bool
    ensures { result ≡ items_conflict earlier.now later.now }
{
    if only_read(earlier) && only_read(later) || names_apart(earlier, later) {
        return false;
    }
    earlier.iter().any(|one| conflicts_with(*one, later))
}

fn only_read(items: &[Item]) -> bool
    ensures { result ≡ list_all is_read items.now }
{
    items.iter().all(|item| reads(*item))
}

fn reads(item: Item) -> bool
    ensures { result ≡ is_read item }
{
    item.kind == DependKind::DependIn
}

/// Whether the names of one list are all numbered below those of the other.
fn names_apart(earlier: &[Item], later: &[Item]) -> bool
    ensures { IsTrue result → AreApart earlier.now later.now }
{
    greatest_name(earlier) < least_name(later) || greatest_name(later) < least_name(earlier)
}

/// No item has a greater name.
fn greatest_name(items: &[Item]) -> u32
    ensures { AreUpTo result items.now }
{
    let mut greatest = 0;
    for item in items {
        if item.name > greatest {
            greatest = item.name;
        }
    }
    greatest
}

/// No item has a lesser name.
fn least_name(items: &[Item]) -> u32
    ensures { AreFrom result items.now }
{
    let mut least = u32::MAX;
    for item in items {
        if item.name < least {
            least = item.name;
        }
    }
    least
}

fn conflicts_with(one: Item, others: &[Item]) -> bool
    ensures { result ≡ list_any (conflicts_with one) others.now }
{
    others.iter().any(|other| item_conflicts(one, *other))
}

fn item_conflicts(one: Item, other: Item) -> bool
    ensures { result ≡ conflicts_with one other }
{
    one.name == other.name && kinds_conflict(one.kind, other.kind)
}

fn kinds_conflict(one: DependKind, other: DependKind) -> bool
    ensures { result ≡ kinds_conflict one other }
{
    match (one, other) {
        (DependKind::DependIn, DependKind::DependIn) => false,
        (DependKind::DependInOutSet, DependKind::DependInOutSet) => false,
        _ => true,
    }
}
