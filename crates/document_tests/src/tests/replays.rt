//! The worked program with events behind it.

use super::command_gives;
use super::rows::BEGUN;
use spanprof_command::Status;
use std::alloc::AllocGlobal;
use std::process::Abort;
use std::test::Fail;
use std::thread::Threads;

/// Events, and the report on them.
const RUNS: &[(&str, &str)] = &[
    (
        "start 0 0\nfinish 0 0\nstart 0 2\nstart 1 1\nfinish 0 2\nfinish 1 1\nstart 0 3\nfinish 0 3",
        "events 8\nfinished 4\npreds 0\npreds 1 0\npreds 2 0\npreds 3 1 2\n",
    ),
    (
        "start 0 0\nfinish 0 0\n",
        "events 2\nfinished 1\npreds 0\npreds 1 0\npreds 2 0\n",
    ),
    ("", "events 0\nfinished 0\npreds 0\n"),
];

/// Events, and why they are refused.
const REFUSED: &[(&str, &str)] = &[
    ("start", "error: BadForm\n"),
    ("start 0 0 # later", "error: BadForm\n"),
    ("start 64 0", "error: event 0: UnknownWorker\n"),
    ("start 0 4", "error: event 0: UnknownSegment\n"),
    ("start 0 0 start 0 0", "error: event 1: WorkerBusy\n"),
    ("start 0 0 start 1 0", "error: event 1: AlreadyStarted\n"),
    (
        "start 0 0 finish 0 0 start 0 2 finish 0 2 start 0 3",
        "error: event 4: NotReady 1\n",
    ),
    ("finish 0 9", "error: event 0: NotRunning\n"),
];

/// Whether each list of events behind the worked program gives its text.
fn all_give<H: AllocGlobal + Threads + Abort + Sync>(
    rt: &H,
    rows: &[(&str, &str)],
    status: Status,
) -> Result<(), Fail> {
    for (events, text) in rows {
        let document = format!(in rt.alloc(); "{BEGUN}{events}")?;
        assert!(rt;
            command_gives(rt, "replay", &[], document.as_str(), text, status)?,
            "{text}"
        );
    }
    Ok(())
}

#[test]
fn runs(rt: HostRuntime) -> Result<(), Fail> {
    all_give(&rt, RUNS, Status::Done)
}

#[test]
fn refused_runs(rt: HostRuntime) -> Result<(), Fail> {
    all_give(&rt, REFUSED, Status::Refused)
}

#[test]
fn no_divider(rt: HostRuntime) -> Result<(), Fail> {
    let text = "error: BadForm\n";
    assert!(&rt; command_gives(&rt, "replay", &[], "omptasks 1\n", text, Status::Refused)?);
    Ok(())
}
