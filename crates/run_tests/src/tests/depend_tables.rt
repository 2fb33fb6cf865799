//! The kept siblings of worked lists and of random ones, compared with the plain form.
ghost use Rattle.std.specs.Prelude.{◌<◌, ◌≤◌, All};

mod plain;

use crate::tests::depend_tables::plain::PlainTable;
use depend_table::table::SiblingTable;
use std::alloc::Global;
use std::process::Abort;
use std::test::Fail;
use task_program::AllocFault;
use task_program::statement::DependKind::{DependIn, DependInOut, DependInOutSet, DependOut};
use task_program::statement::{DependKind, Item};

/// Both forms of a table, with the last task's number.
#[derive(Drop)]
struct Siblings {
    task: u32,
    table: SiblingTable,
    plain: PlainTable,
    ghost older: { All (λ sibling. sibling.task ≤ task) table },
}

impl Siblings {
    fn new(alloc: Global) -> Result<Siblings, AllocFault> {
        Ok(Siblings {
            task: 0,
            table: SiblingTable::new(alloc)?,
            plain: PlainTable::new(alloc),
        })
    }

    /// What the next task is kept after, as both forms say, and as the table says before.
    fn next(&mut self, rt: &impl Abort, items: &[Item]) -> Result<Vec<u32>, AllocFault> {
        assert!(rt; self.task < 100000);
        let task = self.task + 1;
        self.task = task;
        let siblings = self.table.kept_siblings(items)?;
        let kept = self.table.generate(task, items)?;
        check_siblings(rt, task, siblings.as_slice(), kept.as_slice());
        assert!(rt; kept.capacity() > kept.len(), "room for one more");
        let plain = self.plain.generate(task, items)?;
        check_siblings(rt, task, kept.as_slice(), plain.as_slice());
        Ok(kept)
    }
}

/// The task's siblings are these.
fn check_siblings(rt: &impl Abort, task: u32, siblings: &[u32], wanted: &[u32]) {
    assert_eq!(rt; siblings, wanted, "of task {task}");
}

fn item(kind: DependKind, name: u32) -> Item {
    Item { kind, name }
}

/// The answers for tasks 1, 2, .. with these items are these lists.
fn check_list(
    rt: &impl Abort,
    alloc: Global,
    calls: &[&[Item]],
    want: &[&[u32]],
) -> Result<(), Fail> {
    let mut siblings = Siblings::new(alloc)?;
    for (items, kept) in calls.iter().zip(want) {
        assert_eq!(rt; siblings.next(rt, items)?.as_slice(), *kept);
    }
    Ok(())
}

#[test]
fn keeps_the_siblings_of_the_last_rank(rt: HostRuntime) -> Result<(), Fail> {
    let set = item(DependInOutSet, 0);
    let reads = item(DependIn, 0);
    let writes = item(DependOut, 0);
    check_list(
        &rt,
        rt.alloc(),
        &[&[set], &[set], &[reads], &[set], &[writes]],
        &[&[], &[], &[1, 2], &[3], &[4]],
    )?;
    check_list(
        &rt,
        rt.alloc(),
        &[&[writes], &[writes], &[writes]],
        &[&[], &[1], &[2]],
    )
}

#[test]
fn keeps_by_each_name(rt: HostRuntime) -> Result<(), Fail> {
    check_list(
        &rt,
        rt.alloc(),
        &[
            &[item(DependOut, 0), item(DependOut, 1)],
            &[item(DependOut, 0)],
            &[item(DependIn, 0), item(DependIn, 1)],
        ],
        &[&[], &[1], &[1, 2]],
    )
}

#[test]
fn a_task_that_is_neither_shares_with_none(rt: HostRuntime) -> Result<(), Fail> {
    let both: [Item; 2] = [item(DependIn, 0), item(DependInOutSet, 0)];
    check_list(&rt, rt.alloc(), &[&[], &both, &both], &[&[], &[], &[2]])
}

#[test]
fn many_writers_then_many_readers(rt: HostRuntime) -> Result<(), Fail> {
    let writers: Vec<u32> = (1..2048).collect(rt.alloc())?;
    let mut table = SiblingTable::new(rt.alloc())?;
    for task in 1..2048 {
        let kept = table.generate(task, &[item(DependInOutSet, 0)])?;
        assert!(rt; kept.is_empty());
    }
    for task in 2048..4096 {
        let kept = table.generate(task, &[item(DependIn, 0)])?;
        check_siblings(&rt, task, kept.as_slice(), writers.as_slice());
    }
    Ok(())
}

/// The first of many siblings and the last, whose places stand far apart.
#[test]
fn keeps_a_near_one_and_a_far_one(rt: HostRuntime) -> Result<(), Fail> {
    let mut siblings = Siblings::new(rt.alloc())?;
    for name in 0..40 {
        siblings.next(&rt, &[item(DependOut, name)])?;
    }
    let both = [item(DependOut, 39), item(DependIn, 0)];
    let kept = siblings.next(&rt, &both)?;
    check_siblings(&rt, 41, kept.as_slice(), &[1, 40]);
    let kept = siblings.next(&rt, &both)?;
    check_siblings(&rt, 42, kept.as_slice(), &[1, 41]);
    Ok(())
}

/// Two writers that are added without being asked for: a reader is kept after the later one.
#[test]
fn added_siblings(rt: HostRuntime) -> Result<(), Fail> {
    let mut table = SiblingTable::new(rt.alloc())?;
    table.add(1, &[item(DependOut, 0)])?;
    table.add(2, &[item(DependOut, 0)])?;
    let kept = table.kept_siblings(&[item(DependIn, 0)])?;
    check_siblings(&rt, 3, kept.as_slice(), &[2]);
    Ok(())
}

/// A generator of numbers that look random.
#[derive(Drop)]
struct Dice {
    state: u32,
}

impl Dice {
    /// A number below a limit.
    fn below(&mut self, limit: u32) -> u32
        requires { 0 < limit }
    {
        self.state = self.state.wrapping_mul(1664525).wrapping_add(1013904223);
        (self.state >> 16) % limit
    }

    fn kind(&mut self) -> DependKind {
        match self.below(6) {
            0 => DependOut,
            1 => DependInOut,
            2 | 3 => DependIn,
            _ => DependInOutSet,
        }
    }
}

#[test]
fn random_lists_beside_the_plain_form(rt: HostRuntime) -> Result<(), Fail> {
    let mut dice = Dice { state: 1 };
    for _ in 0..60 {
        let mut siblings = Siblings::new(rt.alloc())?;
        for _ in 0..25 {
            let mut items = Vec::new(rt.alloc());
            for _ in 0..dice.below(4) {
                items.push(item(dice.kind(), dice.below(3)))?;
            }
            siblings.next(&rt, &items)?;
        }
    }
    Ok(())
}
