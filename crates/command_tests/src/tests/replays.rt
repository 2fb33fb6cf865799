//! Replay documents and their reports.

use super::examples::{WORKED, WORKED_BEGUN};
use super::{all_give, repeated};
use spanprof_command::Status;
use std::test::Fail;

const REPLAY: [&str; 2] = ["spanprof", "replay"];

const WHOLE: &str = "events 8\nfinished 4\npreds 0\npreds 1 0\npreds 2 0\npreds 3 1 2\n";

/// Events, and the report on them.
const WORKED_REPLAYS: &[(&str, &str)] = &[
    (
        "start 0 0\nfinish 0 0\nstart 0 2\nfinish 0 2\nstart 1 1\nfinish 1 1\nstart 0 3\n\
            finish 0 3\n",
        WHOLE,
    ),
    (
        "start 0 0\nfinish 0 0\nstart 1 1\nfinish 1 1\nstart 0 2\nfinish 0 2\nstart 0 3\n\
            finish 0 3\n",
        WHOLE,
    ),
    (
        "start 0 0\nfinish 0 0\nstart 1 1\nstart 0 2\nfinish 0 2\nfinish 1 1\nstart 0 3\n\
            finish 0 3",
        WHOLE,
    ),
    (
        "start 0 0\nfinish 0 0\nstart 0 2\nstart 1 1\nfinish 0 2\nfinish 1 1\nstart 0 3\n\
            finish 0 3",
        WHOLE,
    ),
    (
        "start 0 0\nfinish 0 0\n",
        "events 2\nfinished 1\npreds 0\npreds 1 0\npreds 2 0\n",
    ),
    ("", "events 0\nfinished 0\npreds 0\n"),
];

#[test]
fn worked_replays(rt: HostRuntime) -> Result<(), Fail> {
    all_give(&rt, &REPLAY, WORKED_BEGUN, WORKED_REPLAYS, Status::Done)?;
    Ok(())
}

/// Events, and which is refused.
const REFUSED_EVENTS: &[(&str, &str)] = &[
    ("start 64 0", "error: event 0: UnknownWorker\n"),
    ("start 0 4", "error: event 0: UnknownSegment\n"),
    ("start 0 3", "error: event 0: NotReady 1\n"),
    ("start 0 0 start 0 0", "error: event 1: WorkerBusy\n"),
    ("start 0 0 start 1 0", "error: event 1: AlreadyStarted\n"),
    (
        "start 0 0 finish 0 0 start 0 2 finish 0 2 start 0 3",
        "error: event 4: NotReady 1\n",
    ),
    (
        "start 0 0 finish 0 0 finish 0 0",
        "error: event 2: NotRunning\n",
    ),
    ("finish 0 9", "error: event 0: NotRunning\n"),
    (
        "finish 4294967295 4294967295",
        "error: event 0: NotRunning\n",
    ),
];

#[test]
fn refused_events(rt: HostRuntime) -> Result<(), Fail> {
    all_give(&rt, &REPLAY, WORKED_BEGUN, REFUSED_EVENTS, Status::Refused)?;
    Ok(())
}

const BAD_FORM: &str = "error: BadForm\n";

/// Texts that are no events.
const WRONG_FORMS: &[(&str, &str)] = &[
    ("start 0", BAD_FORM),
    ("start 0 0 0", BAD_FORM),
    ("start start", BAD_FORM),
    ("go", BAD_FORM),
    ("start 0 4294967296", BAD_FORM),
    ("start 0 0 # begins", BAD_FORM),
    ("start 0 9 finish", BAD_FORM),
];

#[test]
fn wrong_forms(rt: HostRuntime) -> Result<(), Fail> {
    all_give(&rt, &REPLAY, WORKED_BEGUN, WRONG_FORMS, Status::Refused)?;
    Ok(())
}

/// Documents, and the report.
const REFUSED: &[(&str, &str)] = &[
    (WORKED, "error: BadForm\n"),
    ("omptasks 1\ntask {\n---\ngo", "error: line 2: Unclosed\n"),
    ("omptasks 1\n----\n", "error: line 2: BadByte\n"),
    ("", "error: line 1: BadHeader\n"),
];

/// The line `---`: none, one with a CR, one that ends the text; and the program's own fault, which
/// comes first.
#[test]
fn dividers(rt: HostRuntime) -> Result<(), Fail> {
    let none = "events 0\nfinished 0\npreds 0\n";
    all_give(&rt, &REPLAY, "", REFUSED, Status::Refused)?;
    let done = [("omptasks 1\n---", none), ("omptasks 1\r\n---\r\n", none)];
    all_give(&rt, &REPLAY, "", &done, Status::Done)?;
    Ok(())
}

#[test]
fn too_many_events(rt: HostRuntime) -> Result<(), Fail> {
    let events = repeated(rt.alloc(), "start 0 0\n", 65_537)?;
    let rows = [(events.as_str(), "error: BadForm\n")];
    all_give(&rt, &REPLAY, WORKED_BEGUN, &rows, Status::Refused)?;
    Ok(())
}
