//! The worked program with changes of costs behind it.

use super::command_gives;
use super::rows::BEGUN;
use spanprof_command::Status;
use std::alloc::AllocGlobal;
use std::process::Abort;
use std::test::Fail;
use std::thread::Threads;

/// Lines of changes, and the report on them.
const LISTS: &[(&str, &str)] = &[
    ("2=4\n1=5\n", "work 15\nspan 11\nwas 9\n"),
    ("2=4\r\n\n \t\n 1=5", "work 15\nspan 11\nwas 9\n"),
    ("1=9\n1=3\n", "work 11\nspan 9\nwas 9\n"),
    ("0=000\n", "work 6\nspan 4\nwas 9\n"),
    (
        "3=999999999999990\n",
        "work 1000000000000000\nspan 999999999999998\nwas 9\n",
    ),
    ("\n", "work 11\nspan 9\nwas 9\n"),
    ("", "work 11\nspan 9\nwas 9\n"),
];

/// Lines, and which is wrong.
const REFUSED: &[(&str, &str)] = &[
    ("2\n", "error: line 4: BadForm\n"),
    ("2=4\n\n=5\n", "error: line 6: BadForm\n"),
    ("2=4 1=5\n", "error: line 4: BadForm\n"),
    ("2=4 # later\n", "error: line 4: BadForm\n"),
    ("2=4=5\n", "error: line 4: BadForm\n"),
    ("2=-4\n", "error: line 4: BadForm\n"),
    ("4294967296=1\n", "error: line 4: BadForm\n"),
    ("2=18446744073709551616\n", "error: line 4: BadForm\n"),
    ("2=4\n---\n", "error: line 5: BadForm\n"),
    ("2=\u{e4}\n", "error: line 4: BadForm\n"),
    ("2=4\n4=1\nx\n", "error: line 5: UnknownSegment\n"),
    ("2=18446744073709551615\n", "error: line 4: CostTooLarge\n"),
    ("2=4\n2=1000000000000001\n", "error: line 5: CostTooLarge\n"),
    ("3=999999999999990\n2=3\n", "error: line 5: WorkTooLarge\n"),
];

/// Whether each list behind the worked program gives its text.
fn all_give<H: AllocGlobal + Threads + Abort + Sync>(
    rt: &H,
    rows: &[(&str, &str)],
    status: Status,
) -> Result<(), Fail> {
    for (lines, text) in rows {
        let document = format!(in rt.alloc(); "{BEGUN}{lines}")?;
        assert!(rt;
            command_gives(rt, "whatif", &["--listed"], document.as_str(), text, status)?,
            "{lines}"
        );
    }
    Ok(())
}

#[test]
fn lists(rt: HostRuntime) -> Result<(), Fail> {
    all_give(&rt, LISTS, Status::Done)
}

#[test]
fn refused_lists(rt: HostRuntime) -> Result<(), Fail> {
    all_give(&rt, REFUSED, Status::Refused)
}

#[test]
fn no_divider(rt: HostRuntime) -> Result<(), Fail> {
    let (words, text) = (&["--listed"], "error: BadForm\n");
    assert!(&rt; command_gives(&rt, "whatif", words, "omptasks 1\n", text, Status::Refused)?);
    Ok(())
}

#[test]
fn no_program(rt: HostRuntime) -> Result<(), Fail> {
    let (document, text) = ("omptasks 1\n}\n---\nx\n", "error: line 2: Unopened\n");
    assert!(&rt;
        command_gives(
            &rt,
            "whatif",
            &["--listed"],
            document,
            text,
            Status::Refused
        )?
    );
    Ok(())
}
