//! A graph of 4,200,446 edges: siblings that read after as many that share.
use super::{add_log, assert_certified, assert_report, line_count, report};
use std::alloc::{AllocGlobal, Global};
use std::process::Abort;
use std::sync::Wait;
use std::test::Fail;
use std::thread::Threads;

/// The canonical text: 2,047 children that share a name, and then 2,048 that read it.
fn fan(alloc: Global) -> Result<String, Fail> {
    let mut text = String::from_str(alloc, "omptasks 1\n")?;
    for _ in 0..2047u32 {
        text.push_str("task depend(inoutset: x) {\nwork 1\n}\n")?;
    }
    for _ in 0..2048u32 {
        text.push_str("task depend(in: x) {\nwork 1\n}\n")?;
    }
    Ok(text)
}

/// Words, and what is written.
const REPORTS: &[(&[&str], &str)] = &[
    (&["span"], "segments 8191\nwork 4095\nspan 2\n"),
    (
        &["curve", "--upto", "2"],
        "threads,end,least,bound\n1,4095,4095,4095\n2,2048,2048,2048\n",
    ),
    (&["whatif", "1=3"], "work 4097\nspan 4\nwas 2\n"),
];

/// All that share run first, and then all that read.
#[test]
fn analysed(rt: HostRuntime) -> Result<(), Fail> {
    let text = fan(rt.alloc())?;
    for (words, wanted) in REPORTS {
        assert_report(&rt, *words, text.as_bytes(), wanted.as_bytes())?;
    }
    assert_report(&rt, &["show"], text.as_bytes(), text.as_bytes())
}

/// A table of the fan has a line for its header and one for each segment, and ends so.
fn assert_rows<H: AllocGlobal + Threads + Wait + Abort + Sync>(
    rt: &H,
    words: &[&str],
    end: &[u8],
) -> Result<(), Fail> {
    let text = fan(rt.alloc())?;
    let written = report(rt, words, text.as_bytes())?;
    assert_eq!(rt; line_count(&written), 8192);
    assert!(rt; written.as_slice().ends_with(end));
    Ok(())
}

/// The parent's last segment waits for nobody, and nobody waits for it.
#[test]
fn rows(rt: HostRuntime) -> Result<(), Fail> {
    assert_rows(&rt, &["slack"], b"\n8190,0,0,0,2,0\n")?;
    let words = ["greedy", "--threads", "64"];
    assert_rows(&rt, &words, b"\n8189,63,64,63\n8190,0,0,\n")
}

#[test]
fn certified(rt: HostRuntime) -> Result<(), Fail> {
    let text = fan(rt.alloc())?;
    assert_certified(&rt, text.as_bytes(), b"accepted\nsegments 8191\nend 2\n")
}

/// Three lines stand before the record of a run.
fn assert_runs<H: AllocGlobal + Threads + Wait + Abort + Sync>(rt: &H) -> Result<(), Fail> {
    let text = fan(rt.alloc())?;
    let alone = report(rt, &["run", "--workers", "1"], text.as_bytes())?;
    let start = b"segments 8191\nedges 4200446\n";
    assert!(rt; alone.as_slice().starts_with(start));
    assert_eq!(rt; line_count(&alone), 8194);
    let words = ["run", "--workers", "4"];
    assert_report(rt, &words, text.as_bytes(), alone.as_slice())
}

/// Two lines stand before the record of a replay.
fn assert_replay<H: AllocGlobal + Threads + Wait + Abort + Sync>(rt: &H) -> Result<(), Fail> {
    let mut log = fan(rt.alloc())?;
    add_log(rt.alloc(), &mut log, 8191)?;
    let replayed = report(rt, &["replay"], log.as_bytes())?;
    let start = b"events 16382\nfinished 8191\npreds 0\npreds 1 0\n";
    assert!(rt; replayed.as_slice().starts_with(start));
    assert_eq!(rt; line_count(&replayed), 8193);
    Ok(())
}

/// Any number of workers records the same, and so does a log of the segments one after another.
#[test]
fn recorded(rt: HostRuntime) -> Result<(), Fail> {
    assert_runs(&rt)?;
    assert_replay(&rt)
}
