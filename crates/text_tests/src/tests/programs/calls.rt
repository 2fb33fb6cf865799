//! What the calls on a program answer.
use super::{assert_named, assert_names};
use std::alloc::Global;
use std::process::Abort;
use std::test::Fail;
use task_program::fault::{ReadFault, ReadKind};
use task_program::read::read_program;
use task_program::statement::{Body, DependKind, Item, Items, Stmt, conflicts};

/// Whether these are the items, in this order.
fn are_items(items: &Items, wanted: &[Item]) -> bool {
    items.as_slice() == wanted
}

/// Whether a body works 3 and then waits.
fn works_and_waits(body: &Body) -> bool {
    matches!(body.as_slice(), [Stmt::Work(3), Stmt::Wait])
}

/// Whether a body works 4.
fn works(body: &Body) -> bool {
    matches!(body.as_slice(), [Stmt::Work(4)])
}

#[test]
fn statements(rt: HostRuntime) -> Result<(), Fail> {
    let text =
        b"omptasks 1 task if(0) depend(in: b, a) depend(inoutset: b) { work 3 taskwait } taskgroup \
        { work 4 }";
    let program = read_program(rt.alloc(), text)?;
    let [Stmt::Task(task), Stmt::Group(group)] = program.body() else {
        return Err(Fail::new("a task and a group"));
    };
    assert!(rt; task.undeferred && works_and_waits(&task.body));
    let items = [
        Item {
            kind: DependKind::DependIn,
            name: 0,
        },
        Item {
            kind: DependKind::DependIn,
            name: 1,
        },
        Item {
            kind: DependKind::DependInOutSet,
            name: 0,
        },
    ];
    assert!(rt; are_items(&task.items, &items) && works(group));
    Ok(())
}

/// Whether the one task of a text is undeferred.
fn undeferred_of(alloc: Global, text: &[u8]) -> Result<bool, Fail> {
    let program = read_program(alloc, text)?;
    let [Stmt::Task(task)] = program.body() else {
        return Err(Fail::new("a task"));
    };
    Ok(task.undeferred)
}

/// The text of one task, and whether it is undeferred.
const TASKS: &[(&[u8], bool)] = &[
    (b"omptasks 1 task { }", false),
    (b"omptasks 1 task if(1) { }", false),
    (b"omptasks 1 task if(0) { }", true),
    (b"omptasks 1 task depend(in: a) if(00) { }", true),
];

#[test]
fn undeferred(rt: HostRuntime) -> Result<(), Fail> {
    for (text, wanted) in TASKS {
        assert_eq!(rt; undeferred_of(rt.alloc(), *text)?, *wanted);
    }
    Ok(())
}

/// Whether the program of a text has no statement.
fn is_empty(alloc: Global, text: &str) -> Result<bool, Fail> {
    Ok(read_program(alloc, text.as_bytes())?.body().is_empty())
}

const FIVE_NAMES: &str =
    "omptasks 1 task depend(in: b, a) { task depend(out: a, c) { } } task depend(in: B, b, d) { }";

const NO_NAMES: &str = "omptasks 1";

/// A text, a number, and the name under it.
const NAMED: &[(&str, u32, Option<&str>)] = &[
    (FIVE_NAMES, 0, Some("b")),
    (FIVE_NAMES, 1, Some("a")),
    (FIVE_NAMES, 2, Some("c")),
    (FIVE_NAMES, 3, Some("B")),
    (FIVE_NAMES, 4, Some("d")),
    (FIVE_NAMES, 5, None),
    (FIVE_NAMES, u32::MAX, None),
    (NO_NAMES, 0, None),
];

#[test]
fn names_by_first_mention(rt: HostRuntime) -> Result<(), Fail> {
    assert_names(&rt, rt.alloc(), FIVE_NAMES, 5)?;
    assert_names(&rt, rt.alloc(), NO_NAMES, 0)?;
    for (text, number, name) in NAMED {
        assert_named(&rt, rt.alloc(), text, *number, *name)?;
    }
    assert!(rt; is_empty(rt.alloc(), NO_NAMES)?);
    Ok(())
}

/// Whether an item of name 3 conflicts with a later one of this name.
fn kinds_conflict(earlier: DependKind, later: DependKind, name: u32) -> bool {
    let one = [Item {
        kind: earlier,
        name: 3,
    }];
    conflicts(&one, &[Item { kind: later, name }])
}

const KINDS: &[DependKind; 4] = &[
    DependKind::DependIn,
    DependKind::DependOut,
    DependKind::DependInOut,
    DependKind::DependInOutSet,
];

/// Rows are the later item's kind, columns the earlier item's.
const CONFLICTS: &[&[bool; 4]; 4] = &[
    &[false, true, true, true],
    &[true, true, true, true],
    &[true, true, true, true],
    &[true, true, true, false],
];

/// Asserts what these kinds do at one name, and that they do not conflict at two.
fn assert_conflict(rt: &impl Abort, earlier: DependKind, later: DependKind, wanted: bool) {
    assert_eq!(rt;
        (
            kinds_conflict(earlier, later, 3),
            kinds_conflict(earlier, later, 4)
        ),
        (wanted, false),
        "{earlier:?} {later:?}"
    );
}

/// Asserts what an item of each kind does with a later one of this kind.
fn assert_row(rt: &impl Abort, later: DependKind, row: &[bool; 4]) {
    for (earlier, wanted) in KINDS.iter().zip(row.iter()) {
        assert_conflict(rt, *earlier, later, *wanted);
    }
}

#[test]
fn conflicts_by_kind(rt: HostRuntime) {
    for (later, row) in KINDS.iter().zip(CONFLICTS.iter()) {
        assert_row(&rt, *later, *row);
    }
}

#[test]
fn conflicts_of_lists(rt: HostRuntime) {
    let read = Item {
        kind: DependKind::DependIn,
        name: 0,
    };
    let set = Item {
        kind: DependKind::DependInOutSet,
        name: 0,
    };
    let elsewhere = Item {
        kind: DependKind::DependOut,
        name: 1,
    };
    assert!(rt; conflicts(&[read, set], &[read, set]));
    assert!(rt; conflicts(&[elsewhere, read], &[set]));
    assert!(rt; !conflicts(&[elsewhere, read], &[read]));
    assert!(rt; !conflicts(&[], &[read]) && !conflicts(&[elsewhere], &[]));
}

/// The faults in the order of their numbers, from 1 on.
const FAULTS: &[ReadKind] = &[
    ReadKind::TooLong,
    ReadKind::BadHeader,
    ReadKind::BadByte,
    ReadKind::BadWord,
    ReadKind::BadNumber,
    ReadKind::Unclosed,
    ReadKind::Unopened,
    ReadKind::TooDeep,
    ReadKind::TooManyTasks,
    ReadKind::TooManySegments,
    ReadKind::TooManyItems,
    ReadKind::WorkTooLarge,
    ReadKind::OutOfMemory,
    ReadKind::TooManyTurns,
];

/// The message of a fault.
fn told(alloc: Global, fault: ReadFault) -> Result<String, Fail> {
    Ok(format!(in alloc; "{fault}")?)
}

#[test]
fn numbers_of_the_faults(rt: HostRuntime) -> Result<(), Fail> {
    for (before, kind) in FAULTS.iter().enumerate() {
        assert_eq!(rt; *kind as usize, before + 1);
    }
    let fault = ReadFault {
        kind: ReadKind::Unclosed,
        line: 2,
    };
    assert_eq!(rt; told(rt.alloc(), fault)?.as_str(), "line 2: Unclosed");
    Ok(())
}

/// Whether the copy of a list has these items.
fn copies_to(items: &Items, wanted: &[Item]) -> Result<bool, Fail> {
    Ok(are_items(&items.copy()?, wanted))
}

#[test]
fn items_copied(rt: HostRuntime) -> Result<(), Fail> {
    let read = Item {
        kind: DependKind::DependIn,
        name: 4,
    };
    let written = Item {
        kind: DependKind::DependOut,
        name: 0,
    };
    let mut items = Items::new(rt.alloc());
    assert!(rt; copies_to(&items, &[])?);
    items.push(read)?;
    items.push(written)?;
    assert!(rt; copies_to(&items, &[read, written])?);
    assert!(rt; are_items(&items, &[read, written]));
    Ok(())
}
