//! As many segments as a program can have, and all events of a run of it.
use super::{add_log, assert_certified, assert_report, line_count, report};
use std::alloc::Global;
use std::test::Fail;

/// One task that waits 16,383 times, with a work of 1 before each.
fn waits(alloc: Global) -> Result<String, Fail> {
    let mut text = String::from_str(alloc, "omptasks 1\n")?;
    for _ in 0..16383u32 {
        text.push_str("work 1\ntaskwait\n")?;
    }
    Ok(text)
}

#[test]
fn segments(rt: HostRuntime) -> Result<(), Fail> {
    let text = waits(rt.alloc())?;
    let wanted = b"segments 16384\nwork 16383\nspan 16383\n";
    assert_report(&rt, &["span"], text.as_bytes(), wanted)?;
    let verdict = b"accepted\nsegments 16384\nend 16383\n";
    assert_certified(&rt, text.as_bytes(), verdict)
}

#[test]
fn events(rt: HostRuntime) -> Result<(), Fail> {
    let mut log = waits(rt.alloc())?;
    add_log(rt.alloc(), &mut log, 16384)?;
    let replayed = report(&rt, &["replay"], log.as_bytes())?;
    assert_eq!(rt; line_count(&replayed), 16386);
    let start = b"events 32768\nfinished 16384\npreds 0\npreds 1 0\n";
    assert!(rt; replayed.as_slice().starts_with(start));
    assert!(rt; replayed.as_slice().ends_with(b"\npreds 16383 16382\n"));
    Ok(())
}
