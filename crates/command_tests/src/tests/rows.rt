//! Texts and what the commands write of them.

use super::{all_give, gives, repeated};
use spanprof_command::Status;
use std::alloc::AllocGlobal;
use std::sync::Wait;
use std::test::Fail;
use std::thread::Threads;

/// Of a program of version 1.
const HEADER: &str = "omptasks 1\n";

/// Whether the words give this text and status on a program of version 1 with this body.
fn body_gives<H: AllocGlobal + Threads + Wait + Sync>(
    rt: &H,
    words: &[&str],
    body: &str,
    text: &str,
    status: Status,
) -> Result<bool, Fail> {
    let program = format!(in rt.alloc(); "{HEADER}{body}")?;
    gives(rt, words, program.as_str(), text, status)
}

/// Whether the program gives this text and status on a line so many times.
fn lines_give<H: AllocGlobal + Threads + Wait + Sync>(
    rt: &H,
    (line, times): (&str, u32),
    text: &str,
    status: Status,
) -> Result<bool, Fail> {
    let body = repeated(rt.alloc(), line, times)?;
    body_gives(rt, &["spanprof"], body.as_str(), text, status)
}

/// A body, and the report on it.
const MEASURES: &[(&str, &str)] = &[
    ("", "segments 1\nwork 0\nspan 0\n"),
    (
        "work 5 task { work 3 } work 2 taskwait work 1",
        "segments 4\nwork 11\nspan 9\n",
    ),
    (
        "work 5 task { work 3 } work 2 work 1",
        "segments 3\nwork 11\nspan 8\n",
    ),
    (
        "work 5 task { work 3 } work 2 taskwait",
        "segments 4\nwork 10\nspan 8\n",
    ),
    ("taskgroup { } taskwait", "segments 3\nwork 0\nspan 0\n"),
    (
        "task depend(inoutset: x) { work 4 } task depend(inoutset: x) { work 6 } task \
            depend(in: x) { work 1 } task depend(inoutset: x) { work 2 } task depend(out: x) { \
            work 1 }",
        "segments 11\nwork 14\nspan 10\n",
    ),
    (
        "task depend(in: x) depend(inoutset: x) { work 3 } task depend(in: x) depend(inoutset: \
            x) { work 3 }",
        "segments 5\nwork 6\nspan 6\n",
    ),
    (
        "task depend(out: x) { work 9 } task if(0) depend(in: x) { work 1 } work 1",
        "segments 5\nwork 11\nspan 11\n",
    ),
    (
        "task if(0) { task { work 8 } work 1 } work 2",
        "segments 5\nwork 11\nspan 8\n",
    ),
    (
        "task { task { work 8 } } taskwait work 2",
        "segments 6\nwork 10\nspan 8\n",
    ),
    (
        "taskgroup { task { task { work 8 } } } work 2",
        "segments 6\nwork 10\nspan 10\n",
    ),
    (
        "task { work 7 } taskgroup { task { work 1 } } work 1",
        "segments 6\nwork 9\nspan 7\n",
    ),
    (
        "task { task depend(out: x) { work 5 } } task { task depend(in: x) { work 5 } }",
        "segments 9\nwork 10\nspan 5\n",
    ),
    (
        "task { work 1 } task { work 1 } task { work 2 }",
        "segments 7\nwork 4\nspan 2\n",
    ),
];

#[test]
fn measures(rt: HostRuntime) -> Result<(), Fail> {
    all_give(&rt, &["spanprof", "span"], HEADER, MEASURES, Status::Done)?;
    Ok(())
}

/// A body, and its canonical text.
const CANONICAL_TEXTS: &[(&str, &str)] = &[
    ("", "omptasks 1\n"),
    (
        "work 5 task { work 3 } work 2 taskwait work 1",
        "omptasks 1\nwork 5\ntask {\nwork 3\n}\nwork 2\ntaskwait\nwork 1\n",
    ),
    (
        "task depend(out: x) { work 9 } task if(0) depend(in: x) { work 1 } work 1",
        "omptasks 1\ntask depend(out: x) {\nwork 9\n}\ntask if(0) depend(in: x) {\nwork 1\n}\n\
            work 1\n",
    ),
    (
        "task if(1) depend(in: a) depend(in: b) depend(out: a) { }",
        "omptasks 1\ntask depend(in: a, b) depend(out: a) {\n}\n",
    ),
    (
        "# a comment\nwork 007 taskwait work 0",
        "omptasks 1\nwork 7\ntaskwait\nwork 0\n",
    ),
    (
        "taskgroup { } taskwait",
        "omptasks 1\ntaskgroup {\n}\ntaskwait\n",
    ),
];

#[test]
fn canonical_texts(rt: HostRuntime) -> Result<(), Fail> {
    all_give(
        &rt,
        &["spanprof", "show"],
        HEADER,
        CANONICAL_TEXTS,
        Status::Done,
    )?;
    Ok(())
}

/// A body, and the line that is printed.
const REFUSED_TEXTS: &[(&str, &str)] = &[
    ("task {", "error: line 2: Unclosed\n"),
    ("}", "error: line 2: Unopened\n"),
    ("work", "error: line 2: BadWord\n"),
    ("work 5x", "error: line 2: BadNumber\n"),
    ("work 1.5", "error: line 2: BadByte\n"),
    ("work 1000000000001", "error: line 2: BadNumber\n"),
    ("task if(2) { }", "error: line 2: BadNumber\n"),
    ("task if(0) if(0) { }", "error: line 2: BadWord\n"),
    ("task depend(in: a", "error: line 2: BadWord\n"),
    (
        "task depend(in: a2345678901234567890123456789012) { }",
        "error: line 2: BadWord\n",
    ),
    (";", "error: line 2: BadByte\n"),
    ("work 5 task { work", "error: line 2: BadWord\n"),
    ("work 5 task { work 3", "error: line 2: Unclosed\n"),
    (
        "work 5 task { work 3 } work 2 taskw",
        "error: line 2: BadWord\n",
    ),
];

/// The lines that both commands write of texts that are no programs.
#[test]
fn refused_texts(rt: HostRuntime) -> Result<(), Fail> {
    all_give(
        &rt,
        &["spanprof", "span"],
        HEADER,
        REFUSED_TEXTS,
        Status::Refused,
    )?;
    all_give(
        &rt,
        &["spanprof", "show"],
        HEADER,
        REFUSED_TEXTS,
        Status::Refused,
    )?;
    Ok(())
}

/// A text, and the line that is printed.
const BAD_HEADERS: &[(&str, &str)] = &[
    ("", "error: line 1: BadHeader\n"),
    ("omptasks 3", "error: line 1: BadHeader\n"),
    ("omptasks", "error: line 1: BadHeader\n"),
    ("tasks 1", "error: line 1: BadHeader\n"),
];

#[test]
fn bad_headers(rt: HostRuntime) -> Result<(), Fail> {
    all_give(&rt, &["spanprof"], "", BAD_HEADERS, Status::Refused)?;
    Ok(())
}

/// A line, how often it stands in a program, and the report.
const PAST_LIMITS: &[(&str, u32, &str)] = &[
    (
        "work 1000000000000\n",
        1001,
        "error: line 1002: WorkTooLarge\n",
    ),
    ("task {\n", 65, "error: line 66: TooDeep\n"),
    ("task { }\n", 4097, "error: line 4098: TooManyTasks\n"),
    ("taskwait\n", 16384, "error: line 16385: TooManySegments\n"),
];

#[test]
fn limits_of_lines(rt: HostRuntime) -> Result<(), Fail> {
    for (line, times, text) in PAST_LIMITS {
        assert!(rt;
            lines_give(&rt, (line, *times), text, Status::Refused)?,
            "{line}"
        );
    }
    Ok(())
}

/// A line, how often it stands in a program, and the report.
const AT_LIMITS: &[(&str, u32, &str)] = &[
    (
        "work 1000000000000\n",
        1000,
        "segments 1\nwork 1000000000000000\nspan 1000000000000000\n",
    ),
    ("task { }\n", 4096, "segments 8193\nwork 0\nspan 0\n"),
    ("taskwait\n", 16383, "segments 16384\nwork 0\nspan 0\n"),
];

/// So many times is accepted.
#[test]
fn lines_within_limits(rt: HostRuntime) -> Result<(), Fail> {
    for (line, times, report) in AT_LIMITS {
        assert!(rt;
            lines_give(&rt, (line, *times), report, Status::Done)?,
            "{line}"
        );
    }
    Ok(())
}

/// Whether a number of so many zeros gives this text and status.
fn zeros_give<H: AllocGlobal + Threads + Wait + Sync>(
    rt: &H,
    zeros: u32,
    text: &str,
    status: Status,
) -> Result<bool, Fail> {
    let number = repeated(rt.alloc(), "0", zeros)?;
    let body = format!(in rt.alloc(); "work {number}")?;
    body_gives(rt, &["spanprof"], body.as_str(), text, status)
}

#[test]
fn long_numbers(rt: HostRuntime) -> Result<(), Fail> {
    for (zeros, status, text) in [
        (1_048_563, Status::Done, "segments 1\nwork 0\nspan 0\n"),
        (1_048_564, Status::Refused, "error: line 2: TooLong\n"),
    ] {
        assert!(rt; zeros_give(&rt, zeros, text, status)?, "{zeros}");
    }
    Ok(())
}

#[test]
fn limits_of_a_text(rt: HostRuntime) -> Result<(), Fail> {
    let blanks = repeated(rt.alloc(), " ", 4_194_305)?;
    let line = "error: line 1: TooLong\n";
    assert!(rt; gives(&rt, &["spanprof"], blanks.as_str(), line, Status::Refused)?);
    Ok(())
}

/// A task with 33 items.
#[test]
fn many_items(rt: HostRuntime) -> Result<(), Fail> {
    let items = repeated(rt.alloc(), ", a", 32)?;
    let body = format!(in rt.alloc(); "task depend(in: a{items}) {{ }}")?;
    let line = "error: line 2: TooManyItems\n";
    assert!(rt;
        body_gives(
            &rt,
            &["spanprof", "show"],
            body.as_str(),
            line,
            Status::Refused
        )?
    );
    Ok(())
}
