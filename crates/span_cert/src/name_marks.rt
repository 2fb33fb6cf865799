//! Marks at the names of one task's items: they show of most tasks that they do not conflict with it.
ghost use Rattle.std.specs.Prelude.{◌≡◌, ℕ, OnOk, true, false};
ghost use Rattle.std.specs.List.{list_any};
ghost use Rattle.span_cert.specs.NameMarks.{AreMarked, has_mark, is_in, is_set, meets};

use std::alloc::Global;
use task_program::AllocFault;
use task_program::statement::{DependKind, Item};

/// For each name the segment that has marked it last. So a new segment needs no other marks to be
/// taken away. A list ends with the last name that was marked.
#[derive(Drop)]
pub struct NameMarks {
    /// By an item that is not `in`.
    pub not_read: Vec<u32>,
    /// By an item that is not `inoutset`.
    pub not_set: Vec<u32>,
}

impl NameMarks {
    /// No marks.
    pub(crate) fn new(alloc: Global) -> NameMarks {
        NameMarks {
            not_read: Vec::new(alloc),
            not_set: Vec::new(alloc),
        }
    }

    /// Marks the items of a segment's task.
    pub(crate) fn put(&mut self, t: u32, items: &[Item]) -> Result<(), AllocFault>
        ensures { OnOk result (AreMarked self.new t items.now) }
    {
        for item in items {
            mark_unless(is_in(item.kind), &mut self.not_read, item.name, t)?;
            mark_unless(is_set(item.kind), &mut self.not_set, item.name, t)?;
        }
        Ok(())
    }

    /// Whether some item stands where the segment has put a mark that a conflict would leave.
    pub(crate) fn meet(&self, t: u32, items: &[Item]) -> bool
        ensures { result ≡ list_any (meets self.now t) items.now }
    {
        items.iter().any(|item| self.meets(t, *item))
    }

    fn meets(&self, t: u32, item: Item) -> bool
        ensures { result ≡ meets self.now t item }
    {
        match item.kind {
            DependKind::DependIn => has_mark(&self.not_read, item.name, t),
            DependKind::DependInOutSet => has_mark(&self.not_set, item.name, t),
            _ => has_mark(&self.not_read, item.name, t) || has_mark(&self.not_set, item.name, t),
        }
    }
}

/// Puts a segment's mark at a name, unless it is passed over.
fn mark_unless(passed_over: bool, marks: &mut Vec<u32>, name: u32, t: u32) -> Result<(), AllocFault>
    ensures marked { OnOk result
        (passed_over ≡ false → has_mark marks.new.items name t ≡ true) }
    ensures kept { OnOk result ((other : ℕ) → has_mark marks.old.items other t ≡ true
        → has_mark marks.new.items other t ≡ true) }
{
    if passed_over {
        return Ok(());
    }
    let place = name as usize;
    let count = marks.len().max(place + 1);
    marks.resize(count, 0)?;
    marks[place] = t;
    Ok(())
}

/// Whether the segment's mark stands at a name.
fn has_mark(marks: &[u32], name: u32, t: u32) -> bool
    ensures { result ≡ has_mark marks.now name t }
{
    let place = name as usize;
    place < marks.len() && marks[place] == t
}

fn is_in(kind: DependKind) -> bool
    ensures { result ≡ is_in kind }
{
    kind == DependKind::DependIn
}

fn is_set(kind: DependKind) -> bool
    ensures { result ≡ is_set kind }
{
    kind == DependKind::DependInOutSet
}
