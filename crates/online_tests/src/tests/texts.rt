//! Texts of any size: the same numbers as of the programs that are read, texts past the limits of
//! the commands, and each fault.
use super::{Numbers, WORKED, assert_worked, numbers_of};
use large_text::fault::LargeFault;
use large_text::limits::MOST_LARGE_NESTING;
use large_text::measure_text;
use std::alloc::Global;
use std::process::Abort;
use std::test::Fail;
use task_program::AllocFault;
use task_program::fault::ReadKind;

/// The numbers of a text.
pub(super) fn measured(alloc: Global, text: &str) -> Result<Numbers, LargeFault> {
    if text.len() > 1_000_000_000 {
        return Err(LargeFault {
            kind: ReadKind::TooLong,
            line: 1,
        });
    }
    Ok(numbers_of(&measure_text(alloc, text.as_bytes())?))
}

/// The fault of a text and its line; none where it is whole.
pub(super) fn fault_of(alloc: Global, text: &str) -> Option<(ReadKind, u64)> {
    match measured(alloc, text) {
        Ok(_) => None,
        Err(fault) => Some((fault.kind, fault.line)),
    }
}

/// Each of these parts so many times.
type Parts = &'static [(&'static str, usize)];

/// A header, and then each of these parts so many times.
fn repeated(alloc: Global, parts: Parts) -> Result<String, AllocFault> {
    let mut text = String::from_str(alloc, "omptasks 1\n")?;
    for (part, count) in parts {
        for _ in 0..*count {
            text.push_str(part)?;
        }
    }
    Ok(text)
}

/// Asserts the numbers of a text of these parts.
fn assert_numbers(
    rt: &impl Abort,
    alloc: Global,
    parts: Parts,
    wanted: Numbers,
) -> Result<(), Fail> {
    let text = repeated(alloc, parts)?;
    assert_eq!(rt; measured(alloc, text.as_str())?, wanted, "{parts:?}");
    Ok(())
}

/// Asserts the fault of a text of these parts, on its second line.
fn assert_fault(
    rt: &impl Abort,
    alloc: Global,
    parts: Parts,
    wanted: ReadKind,
) -> Result<(), Fail> {
    let text = repeated(alloc, parts)?;
    assert_eq!(rt;
        fault_of(alloc, text.as_str()),
        Some((wanted, 2)),
        "{parts:?}"
    );
    Ok(())
}

#[test]
fn as_programs(rt: HostRuntime) -> Result<(), Fail> {
    for worked in &WORKED {
        assert_worked(&rt, worked, measured(rt.alloc(), worked.text)?);
    }
    Ok(())
}

/// Many tasks, a chain of them, and deep blocks: the commands take 4,096 tasks and 64 open blocks.
const PAST_THE_COMMANDS: &[(Parts, Numbers)] = &[
    (
        &[("task{work 2}", 20_000), ("taskwait work 1", 1)],
        (20_000, 40_002, 40_001, 3),
    ),
    (
        &[("task depend(inout: a) {work 1}", 20_000)],
        (20_000, 40_001, 20_000, 20_000),
    ),
    (
        &[("task{work 1 ", 1000), ("}", 1000)],
        (1000, 2001, 1000, 1000),
    ),
];

#[test]
fn past_the_commands(rt: HostRuntime) -> Result<(), Fail> {
    for (parts, numbers) in PAST_THE_COMMANDS {
        assert_numbers(&rt, rt.alloc(), *parts, *numbers)?;
    }
    Ok(())
}

/// The deepest text, the most work, and the most items.
const AT_THE_LIMITS: &[(Parts, Numbers)] = &[
    (
        &[
            ("taskgroup{", MOST_LARGE_NESTING),
            ("}", MOST_LARGE_NESTING),
        ],
        (0, 1_048_577, 0, 0),
    ),
    (
        &[("work 1000000000000 ", 1000)],
        (0, 1, 1_000_000_000_000_000, 1_000_000_000_000_000),
    ),
    (
        &[("task depend(in: a", 1), (", a", 65_535), (") {}", 1)],
        (1, 3, 0, 0),
    ),
];

/// One more of each.
const PAST_THE_LIMITS: &[(Parts, ReadKind)] = &[
    (&[("taskgroup{", MOST_LARGE_NESTING + 1)], ReadKind::TooDeep),
    (
        &[("work 1000000000000 ", 1000), ("work 1", 1)],
        ReadKind::WorkTooLarge,
    ),
    (
        &[("task depend(in: a", 1), (", a", 65_536), (") {}", 1)],
        ReadKind::TooManyItems,
    ),
];

#[test]
fn limits(rt: HostRuntime) -> Result<(), Fail> {
    for (parts, numbers) in AT_THE_LIMITS {
        assert_numbers(&rt, rt.alloc(), *parts, *numbers)?;
    }
    for (parts, kind) in PAST_THE_LIMITS {
        assert_fault(&rt, rt.alloc(), *parts, *kind)?;
    }
    Ok(())
}

const FAULTS: &[(&str, ReadKind, u64)] = &[
    ("", ReadKind::BadHeader, 1),
    ("omptasks 3\nwork 1", ReadKind::BadHeader, 1),
    ("omptasks 1\nwork 5 $", ReadKind::BadByte, 2),
    ("omptasks 1\nwork 5x", ReadKind::BadNumber, 2),
    ("omptasks 1\nwork 1000000000001", ReadKind::BadNumber, 2),
    ("omptasks 1\n\n}", ReadKind::Unopened, 3),
    ("omptasks 1\nwork work", ReadKind::BadWord, 2),
    ("omptasks 1\ntask if(0) if(1) { }", ReadKind::BadWord, 2),
    (
        "omptasks 1\na2345678901234567890123456789012",
        ReadKind::BadWord,
        2,
    ),
    ("omptasks 1\nwork\n", ReadKind::BadWord, 3),
    ("omptasks 1\ntask {\ntask {\n}\n", ReadKind::Unclosed, 2),
];

#[test]
fn faults(rt: HostRuntime) {
    for (text, kind, line) in FAULTS {
        assert_eq!(&rt; fault_of(rt.alloc(), text), Some((*kind, *line)), "{text}");
    }
}
