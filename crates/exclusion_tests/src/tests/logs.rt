//! What a log says.
use exclusive_tasks::Event::{Finish, Start};
use exclusive_tasks::{Claim, Event, Reading, read_log};
use std::alloc::Global;
use std::process::Abort;
use std::test::Fail;

const CLAIM: Claim = Claim {
    parent: 5,
    location: 6,
    first: 7,
    last: 8,
};

const LARGEST: Claim = Claim {
    parent: u32::MAX,
    location: u32::MAX,
    first: u32::MAX,
    last: u32::MAX,
};

/// A text, and its claims and events.
type Row = (&'static str, &'static [Claim], &'static [Event]);

const LOGS: &[Row] = &[
    ("", &[], &[]),
    ("\n", &[], &[]),
    (" \t\r\n\n \n", &[], &[]),
    ("exclusive 5 6 7 8", &[CLAIM], &[]),
    ("exclusive 5 6 7 8\n", &[CLAIM], &[]),
    ("start 5 6", &[], &[Start(6)]),
    ("finish 5 6\n", &[], &[Finish(6)]),
    // blanks, ends of lines of another system, leading zeros
    (
        "\texclusive  5 6 7\t8 \r\n\r\n  start 0005 006\r\n",
        &[CLAIM],
        &[Start(6)],
    ),
    // in any order
    (
        "start 1 2\nexclusive 5 6 7 8\nfinish 3 2\nexclusive 0 0 0 0\n\nexclusive 5 6 7 8\nstart 1 0",
        &[
            CLAIM,
            Claim {
                parent: 0,
                location: 0,
                first: 0,
                last: 0,
            },
            CLAIM,
        ],
        &[Start(2), Finish(2), Start(0)],
    ),
    (
        "exclusive 4294967295 4294967295 4294967295 4294967295\nstart 4294967295 4294967295\n\
         finish 4294967295 4294967295",
        &[LARGEST],
        &[Start(u32::MAX), Finish(u32::MAX)],
    ),
];

/// Asserts that a text has these claims and events.
fn assert_tells(rt: &impl Abort, alloc: Global, row: &Row) -> Result<(), Fail> {
    let (text, claims, events) = row;
    match read_log(alloc, text.as_bytes())? {
        Reading::Log(log) => {
            assert_eq!(rt; log.claims.as_slice(), *claims, "{text}");
            assert_eq!(rt; log.events.as_slice(), *events, "{text}");
            Ok(())
        }
        Reading::BadForm { line: _ } => Err("a wrong line".into()),
    }
}

#[test]
fn logs(rt: HostRuntime) -> Result<(), Fail> {
    for row in LOGS {
        assert_tells(&rt, rt.alloc(), row)?;
    }
    Ok(())
}

/// The index of a text's first wrong line.
pub(super) fn wrong_line(alloc: Global, text: &[u8]) -> Result<Option<usize>, Fail> {
    match read_log(alloc, text)? {
        Reading::Log(_) => Ok(None),
        Reading::BadForm { line } => Ok(Some(line)),
    }
}

/// Lines that say nothing that a line can say.
const WRONG: &[&[u8]] = &[
    // too few words or too many
    b"start",
    b"start 0",
    b"start 0 1 2",
    b"start 0 1 2 3",
    b"finish",
    b"finish 0",
    b"finish 0 1 2",
    b"exclusive",
    b"exclusive 0",
    b"exclusive 0 0",
    b"exclusive 0 0 1",
    b"exclusive 0 0 1 2 3",
    b"exclusive 0 0 1 2 3 4",
    b"exclusive 0 0 1 2 3 4 5",
    // another first word
    b"begin 0 1",
    b"Start 0 1",
    b"starts 0 1",
    b"star 0 1",
    b"exclusive 0 1",
    b"0 start 1",
    b"exclude 0 0 1 2",
    b"exclusives 0 0 1 2",
    b"start 0 0 1 2",
    b"# 0 1",
    b"\xef\xbb\xbfstart 0 1",
    // no number
    b"start x 1",
    b"start 0 x",
    b"start 0 1x",
    b"start 0 -1",
    b"start +0 1",
    b"finish 0x1 1",
    b"finish 0 1.0",
    b"exclusive x 0 1 2",
    b"exclusive 0 x 1 2",
    b"exclusive 0 0 x 2",
    b"exclusive 0 0 1 x",
    b"exclusive 0 0 1 \xff",
    // a number that is too large
    b"start 4294967296 1",
    b"start 0 4294967296",
    b"finish 0 18446744073709551616",
    b"exclusive 4294967296 0 1 2",
    b"exclusive 0 4294967296 1 2",
    b"exclusive 0 0 4294967296 2",
    b"exclusive 0 0 1 4294967296",
    // other bytes
    b"\0",
    b"start\x0b0 1",
    b"start\xa00 1",
];

#[test]
fn wrong_lines(rt: HostRuntime) -> Result<(), Fail> {
    for (row, line) in WRONG.iter().enumerate() {
        assert_eq!(rt; wrong_line(rt.alloc(), line)?, Some(0), "row {row}");
    }
    Ok(())
}

/// Texts, and their first wrong lines.
const PLACES: &[(&[u8], usize)] = &[
    (b"x\nstart 0 1\nfinish 0 1\n", 0),
    (b"start 0 1\nx\nfinish 0 1\n", 1),
    (b"start 0 1\nfinish 0 1\nx\n", 2),
    (b"start 0 1\nfinish 0 1\nx", 2),
    (b"\n\n\nx", 3),
    (b"\r\nexclusive 0 0 1 2\r\nx\r\n", 2),
    (b"start 0 1\nx\ny\nz", 1),
    (b"start 0\n1\n", 0),
    (b"start 0 1 # first", 0),
];

#[test]
fn first_wrong_lines(rt: HostRuntime) -> Result<(), Fail> {
    for (row, (text, line)) in PLACES.iter().enumerate() {
        assert_eq!(rt; wrong_line(rt.alloc(), text)?, Some(*line), "row {row}");
    }
    Ok(())
}
