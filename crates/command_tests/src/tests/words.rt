//! Wrong arguments.

use super::{gives, run, sink, source};
use spanprof_command::Status;
use std::alloc::AllocGlobal;
use std::sync::Wait;
use std::test::Fail;
use std::thread::Threads;

/// Whether these arguments are refused, and nothing is read.
fn are_wrong<H: AllocGlobal + Threads + Wait + Sync>(rt: &H, row: &[&str]) -> Result<bool, Fail> {
    let mut words = vec![in rt.alloc(); "spanprof"]?;
    words.extend_from_slice(row)?;
    let reader = source(b"omptasks 1");
    let (status, text, reader) = run(rt, words.as_slice(), reader, sink(rt.alloc()))?;
    let is_told = text.as_slice() == b"error: wrong words\n".as_slice();
    Ok(status == Status::Usage && is_told && reader.calls == 0)
}

const WRONG_WORDS: &[&[&str]] = &[
    &["help"],
    &["--help"],
    &["-h"],
    &["--version"],
    &["help", "span"],
    &["spam"],
    &["Span"],
    &[""],
    &["span", "span"],
    &["show", "--help"],
    &["replay", "-h"],
    &["slack", "0"],
    &["certify", "--version"],
    &["check", "certificate"],
    &["run"],
    &["run", "--workers"],
    &["run", "--workers", "two"],
    &["run", "--workers", "4294967296"],
    &["run", "--threads", "2"],
    &["greedy", "2"],
    &["greedy", "--threads", "-1"],
    &["curve", "--upto", "1", "--upto", "1"],
    &["whatif"],
    &["whatif", "2"],
    &["whatif", "2=4", "=1"],
    &["whatif", "4294967296=1"],
    &["whatif", "1=18446744073709551616"],
];

/// They read nothing.
#[test]
fn wrong_words(rt: HostRuntime) -> Result<(), Fail> {
    for (place, row) in WRONG_WORDS.iter().enumerate() {
        assert!(rt; are_wrong(&rt, row)?, "{place}");
    }
    Ok(())
}

/// Without an argument after the name, and without a name, the command is `span`.
#[test]
fn no_words(rt: HostRuntime) -> Result<(), Fail> {
    let rows: [&[&str]; 2] = [&["spanprof"], &[]];
    let report = "segments 1\nwork 3\nspan 3\n";
    for words in rows {
        assert!(rt;
            gives(&rt, words, "omptasks 1\nwork 3", report, Status::Done)?,
            "{}",
            words.len()
        );
    }
    Ok(())
}
