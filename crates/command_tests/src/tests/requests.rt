//! What the arguments ask for.

use super::examples::place_asked;
use super::words_of;
use command_words::changes::Change;
use command_words::request::{Request, WordsFault, read_words};
use std::alloc::{AllocGlobal, Global};
use std::process::Abort;
use std::test::Fail;

/// Whether the arguments are refused.
fn are_wrong(alloc: Global, words: &[&str]) -> Result<bool, Fail> {
    let list = words_of(alloc, words)?;
    Ok(match read_words(alloc, list.as_slice()) {
        Err(fault) => fault == WordsFault::WrongWords,
        Ok(_) => false,
    })
}

/// These words with each of the last words are wrong.
fn all_are_wrong<H: AllocGlobal + Abort>(
    rt: &H,
    words: &[&str],
    last_words: &[&str],
) -> Result<(), Fail> {
    for last in last_words {
        let mut whole = Vec::new(rt.alloc());
        whole.extend_from_slice(words)?;
        whole.push(last)?;
        assert!(rt; are_wrong(rt.alloc(), whole.as_slice())?, "{last}");
    }
    Ok(())
}

/// The command and its number, where the words ask for one that has a number.
fn number_asked(alloc: Global, words: &[&str]) -> Result<Option<(&'static str, u32)>, Fail> {
    let list = words_of(alloc, words)?;
    Ok(match read_words(alloc, list.as_slice()) {
        Ok(Request::Run { workers }) => Some(("run", workers)),
        Ok(Request::Greedy { threads }) => Some(("greedy", threads)),
        Ok(Request::Curve { upto }) => Some(("curve", upto)),
        _ => None,
    })
}

/// Whether the words ask for these changes of costs.
fn ask_for_changes(alloc: Global, words: &[&str], wanted: &[Change]) -> Result<bool, Fail> {
    let list = words_of(alloc, words)?;
    Ok(match read_words(alloc, list.as_slice()) {
        Ok(Request::WhatIf { changes }) => changes.as_slice() == wanted,
        _ => false,
    })
}

/// Words, and the place of the example.
const COMMANDS: &[(&[&str], usize)] = &[
    (&[], 0),
    (&["spanprof"], 0),
    (&["spanprof", "span"], 0),
    (&["spanprof", "show"], 1),
    (&["spanprof", "replay"], 2),
    (&["spanprof", "slack"], 4),
    (&["spanprof", "certify"], 5),
    (&["spanprof", "check"], 6),
];

/// At the places of their examples.
#[test]
fn commands(rt: HostRuntime) -> Result<(), Fail> {
    for (words, place) in COMMANDS {
        assert!(rt; place_asked(rt.alloc(), *words)? == Some(*place), "{place}");
    }
    command_words::laws::worked_words();
    Ok(())
}

/// Words, their command, and its number.
const OPTIONS: &[(&[&str], &str, u32)] = &[
    (&["spanprof", "run", "--workers", "002"], "run", 2),
    (
        &["spanprof", "greedy", "--threads", "4294967295"],
        "greedy",
        u32::MAX,
    ),
    (&["spanprof", "curve", "--upto=0"], "curve", 0),
];

#[test]
fn options(rt: HostRuntime) -> Result<(), Fail> {
    for (words, command, number) in OPTIONS {
        let asked = number_asked(rt.alloc(), *words)?;
        assert!(rt; asked == Some((*command, *number)), "{command}");
    }
    Ok(())
}

const WRONG_NUMBERS: &[&str] = &[
    "4294967296",
    "99999999999999999999999",
    "-1",
    "+1",
    "1.0",
    " 1",
    "two",
    "",
];

#[test]
fn wrong_options(rt: HostRuntime) -> Result<(), Fail> {
    all_are_wrong(&rt, &["spanprof", "run", "--workers"], WRONG_NUMBERS)?;
    all_are_wrong(&rt, &["spanprof", "run", "--threads"], &["2"])?;
    all_are_wrong(&rt, &["spanprof", "run", "2"], &["--workers"])?;
    all_are_wrong(&rt, &["spanprof", "slack", "--workers"], &["2"])?;
    all_are_wrong(&rt, &["spanprof", "--workers", "2"], &["run"])?;
    Ok(())
}

#[test]
fn changes(rt: HostRuntime) -> Result<(), Fail> {
    let words = [
        "spanprof",
        "whatif",
        "2=4",
        "007=000",
        "4294967295=18446744073709551615",
    ];
    let wanted = [
        Change {
            segment: 2,
            cost: 4,
        },
        Change {
            segment: 7,
            cost: 0,
        },
        Change {
            segment: u32::MAX,
            cost: u64::MAX,
        },
    ];
    assert!(rt; ask_for_changes(rt.alloc(), &words, &wanted)?);
    Ok(())
}

const WRONG_CHANGES: &[&str] = &[
    "2",
    "2=",
    "=4",
    "=",
    "2==4",
    "2=4=5",
    "2=-4",
    "2=+4",
    "x=4",
    "2=4x",
    "2=18446744073709551616",
    "4294967296=4",
    "2 =4",
    "",
];

#[test]
fn wrong_changes(rt: HostRuntime) -> Result<(), Fail> {
    all_are_wrong(&rt, &["spanprof", "whatif", "1=1"], WRONG_CHANGES)?;
    Ok(())
}

const WRONG_WORDS: &[&str] = &[
    "help",
    "--help",
    "-h",
    "--version",
    "-V",
    "spam",
    "Span",
    "sho",
    "",
    "run",
    "greedy",
    "curve",
    "whatif",
    "replays",
];

#[test]
fn wrong_words(rt: HostRuntime) -> Result<(), Fail> {
    all_are_wrong(&rt, &["spanprof"], WRONG_WORDS)?;
    Ok(())
}

/// Each after the word of a command.
#[test]
fn wrong_words_of_commands(rt: HostRuntime) -> Result<(), Fail> {
    let helps = ["help", "--help", "-h"];
    all_are_wrong(&rt, &["spanprof", "slack"], &["span", "1"])?;
    all_are_wrong(&rt, &["spanprof", "slack"], &helps)?;
    all_are_wrong(&rt, &["spanprof", "run"], &helps)?;
    all_are_wrong(&rt, &["spanprof", "whatif"], &helps)?;
    Ok(())
}
