//! Texts with loops: numbers past the limits of the commands, the canonical text, and each fault. Within
//! the limits the expected values are those of `spanprof`.
ghost use Rattle.std.specs.Prelude.{◌≤◌, length};
ghost use Rattle.large_text.specs.declared.limits.TheConstants.{LARGEST_PIECE};

use super::Numbers;
use super::texts::{fault_of, measured};
use large_text::TextMeter;
use large_text::fault::LargeFault;
use std::alloc::Global;
use std::test::Fail;
use task_program::fault::ReadKind;
use task_program::name_key::NameKey;

const NUMBERS: &[(&str, Numbers)] = &[
    ("omptasks 2\n", (0, 1, 0, 0)),
    ("omptasks 2 for i 2 1 { work 9 }", (0, 1, 0, 0)),
    (
        "omptasks 2 for i 1 30 { for j 1 30 { task depend(in: a[i]) depend(inout: b[j]) { work 1 } } \
            taskwait }",
        (900, 1831, 900, 30),
    ),
    // more tasks than the commands take, more turns, and a name for each
    (
        "omptasks 2 for i 1 20000 { task { work 2 } } taskwait work 1",
        (20_000, 40_002, 40_001, 3),
    ),
    ("omptasks 2 for i 1 70000 { taskwait }", (0, 70_001, 0, 0)),
    (
        "omptasks 2 for i 1 20000 { task depend(out: a[i]) depend(in: a[i-1]) { work 1 } }",
        (20_000, 40_001, 20_000, 20_000),
    ),
];

#[test]
fn numbers(rt: HostRuntime) -> Result<(), Fail> {
    for (text, wanted) in NUMBERS {
        assert_eq!(&rt; measured(rt.alloc(), text)?, *wanted, "{text}");
    }
    Ok(())
}

const FAULTS: &[(&str, ReadKind, u64)] = &[
    ("omptasks 2\nwork $", ReadKind::BadByte, 2),
    ("omptasks 2\nfor i 0 3 {\nwork 1\n", ReadKind::Unclosed, 2),
    ("omptasks 2\n\n}", ReadKind::Unopened, 3),
    ("omptasks 2\nfor i 0\n", ReadKind::BadWord, 3),
    (
        "omptasks 2\nfor i 0 1 {\nfor i 0 1 { }\n}",
        ReadKind::BadWord,
        3,
    ),
    ("omptasks 2\nfor i 0 1000001 { }", ReadKind::BadNumber, 2),
    (
        "omptasks 2\nfor i 0 1 {\ntask depend(in:\na[\ni+1000000\n]) { } }",
        ReadKind::BadNumber,
        5,
    ),
    (
        "omptasks 2\nfor i 0 1000 {\nwork 1000000000000\n}",
        ReadKind::WorkTooLarge,
        3,
    ),
];

#[test]
fn faults(rt: HostRuntime) {
    for (text, kind, line) in FAULTS {
        assert_eq!(&rt; fault_of(rt.alloc(), text), Some((*kind, *line)), "{text}");
    }
}

/// A text with a task of so many items.
fn with_items(alloc: Global, count: usize) -> Result<String, Fail> {
    let mut text = String::from_str(alloc, "omptasks 2\ntask depend(in: a")?;
    for _ in 1..count {
        text.push_str(", a")?;
    }
    text.push_str(") { }")?;
    Ok(text)
}

#[test]
fn most_items(rt: HostRuntime) -> Result<(), Fail> {
    let most = with_items(rt.alloc(), 65_536)?;
    assert_eq!(&rt; fault_of(rt.alloc(), most.as_str()), None);
    let more = with_items(rt.alloc(), 65_537)?;
    assert_eq!(&rt;
        fault_of(rt.alloc(), more.as_str()),
        Some((ReadKind::TooManyItems, 2))
    );
    Ok(())
}

/// The canonical text of a text.
fn canonical(alloc: Global, text: &[u8]) -> Result<Option<Vec<u8>>, LargeFault>
    requires { length text.now ≤ LARGEST_PIECE }
{
    let mut meter = TextMeter::with_text(alloc, NameKey::fixed())?;
    meter.take(text)?;
    let (text, _table) = meter.finish_text()?;
    Ok(text)
}

const WITH_LOOPS: &str = "omptasks 2 for i 1 2 { task depend(out: a[i]) depend(in: a[i-1], x) \
    final(1) { task { work 3 } taskgroup { taskwait } } } task depend(in: a[-0], a[2]) if(0) { } \
    for i 2 1 { work 9 } taskwait";

const WITHOUT: &str = "omptasks 2\n\
    task depend(out: a[1]) depend(in: a[0], x) {\ntask if(0) {\nwork 3\n}\n\
    taskgroup {\ntaskwait\n}\n}\n\
    task depend(out: a[2]) depend(in: a[1], x) {\ntask if(0) {\nwork 3\n}\n\
    taskgroup {\ntaskwait\n}\n}\n\
    task if(0) depend(in: a[0], a[2]) {\n}\ntaskwait\n";

#[test]
fn canonical_text(rt: HostRuntime) -> Result<(), Fail> {
    let bytes = WITH_LOOPS.as_bytes();
    assert!(&rt; bytes.len() < 1000);
    let told = canonical(rt.alloc(), bytes)?;
    assert!(&rt; told.is_some());
    if let Some(told) = told {
        assert_eq!(&rt; told.as_slice(), WITHOUT.as_bytes());
    }
    Ok(())
}
