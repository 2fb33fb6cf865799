//! Each limit of a program, at it and one past it.
use super::{assert_fault, fault_of, lines};
use std::alloc::Global;
use std::process::Abort;
use std::test::Fail;
use task_program::AllocFault;
use task_program::fault::ReadKind;

/// A text is a header and then each of these lines so many times.
type Lines = &'static [(&'static str, u32)];

const AT_THE_LIMITS: &[Lines] = &[
    &[("work 1000000000000", 1000), ("work 0", 1)],
    &[("task {", 64), ("}", 64)],
    &[("taskgroup {", 64), ("}", 64)],
    &[("task {", 32), ("taskgroup {", 32), ("}", 64)],
    &[("task { }", 4096)],
    &[("taskwait", 16_383)],
    &[("taskgroup { }", 16_383)],
    &[("taskwait", 16_381), ("task { }", 1)],
    &[("task if(1) { }", 1), ("task if(01) { }", 1)],
];

const PAST_THE_LIMITS: &[(Lines, ReadKind, u32)] = &[
    (
        &[("work 1000000000000", 1001)],
        ReadKind::WorkTooLarge,
        1002,
    ),
    (
        &[("work 1000000000000", 1000), ("work 1", 1)],
        ReadKind::WorkTooLarge,
        1002,
    ),
    (
        &[("work 1000000000000", 1000), ("work 1000000000001", 1)],
        ReadKind::BadNumber,
        1002,
    ),
    (&[("task {", 65)], ReadKind::TooDeep, 66),
    (&[("taskgroup {", 65)], ReadKind::TooDeep, 66),
    (
        &[("task {", 32), ("taskgroup {", 33)],
        ReadKind::TooDeep,
        66,
    ),
    (&[("task { }", 4097)], ReadKind::TooManyTasks, 4098),
    (
        &[("task { }", 4096), ("taskwait", 8191), ("task", 1)],
        ReadKind::TooManyTasks,
        12_289,
    ),
    (&[("taskwait", 16_384)], ReadKind::TooManySegments, 16_385),
    (
        &[("taskgroup { }", 16_384)],
        ReadKind::TooManySegments,
        16_385,
    ),
    (
        &[("taskwait", 16_382), ("task { }", 1)],
        ReadKind::TooManySegments,
        16_384,
    ),
    (&[("task if(2) { }", 1)], ReadKind::BadNumber, 2),
];

/// Asserts that this is the fault of a text and its line; none where it is a program.
fn assert_lines(
    rt: &impl Abort,
    alloc: Global,
    parts: Lines,
    wanted: Option<(ReadKind, u32)>,
) -> Result<(), Fail> {
    let text = lines(alloc, parts)?;
    assert_eq!(rt; fault_of(alloc, text.as_bytes()), wanted, "{parts:?}");
    Ok(())
}

#[test]
fn accepted_at_the_limits(rt: HostRuntime) -> Result<(), Fail> {
    for parts in AT_THE_LIMITS {
        assert_lines(&rt, rt.alloc(), *parts, None)?;
    }
    Ok(())
}

#[test]
fn refused_past_the_limits(rt: HostRuntime) -> Result<(), Fail> {
    for (parts, kind, line) in PAST_THE_LIMITS {
        assert_lines(&rt, rt.alloc(), *parts, Some((*kind, *line)))?;
    }
    Ok(())
}

/// A task with so many items.
fn with_items(alloc: Global, items: u32) -> Result<String, AllocFault> {
    let mut text = String::from_str(alloc, "omptasks 1\ntask depend(out: a) depend(in: a")?;
    for _ in 1..items.saturating_sub(1) {
        text.push_str(", a")?;
    }
    text.push_str(") { }")?;
    Ok(text)
}

#[test]
fn items_of_a_task(rt: HostRuntime) -> Result<(), Fail> {
    let alloc = rt.alloc();
    let mut text = with_items(alloc, 32)?;
    assert_fault(&rt, alloc, text.as_str(), None);
    // Another task has its own 32.
    text.push_str(" task depend(in: a) { }")?;
    assert_fault(&rt, alloc, text.as_str(), None);
    let text = with_items(alloc, 33)?;
    assert_fault(&rt, alloc, text.as_str(), Some((ReadKind::TooManyItems, 2)));
    Ok(())
}

/// A text, its fault and the line; none where it is a program.
const WORDS: &[(&str, Option<(ReadKind, u32)>)] = &[
    (
        "omptasks 1 task depend(in: a234567890123456789012345678901) { }",
        None,
    ),
    (
        "omptasks 1 task depend(in: a2345678901234567890123456789012) { }",
        Some((ReadKind::BadWord, 1)),
    ),
    // Two of 31 bytes that differ in the last.
    (
        "omptasks 1 task depend(in: a23456789012345678901234567890x, \
            a23456789012345678901234567890y) { }",
        None,
    ),
    (
        "omptasks 1 a234567890123456789012345678901",
        Some((ReadKind::BadWord, 1)),
    ),
];

#[test]
fn bytes_of_a_word(rt: HostRuntime) {
    for (text, wanted) in WORDS {
        assert_fault(&rt, rt.alloc(), text, *wanted);
    }
}
