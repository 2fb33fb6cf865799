//! Each command over devices that are slow, are interrupted, or fail.

use super::examples::{EXAMPLES, Example};
use super::fake_devices::{Endless, Faults};
use super::{run_on, sink, slow_sink, slow_source, source};
use spanprof_command::Status;
use std::alloc::AllocGlobal;
use std::io::ErrorKind;
use std::sync::Wait;
use std::test::Fail;
use std::thread::Threads;

/// Whether an example gives its text on devices that move a byte in each call, and one flush.
fn is_done_slowly<H: AllocGlobal + Threads + Wait + Sync>(
    rt: &H,
    example: Example,
) -> Result<bool, Fail> {
    let Example { words, input, text } = example;
    let reader = slow_source(input.as_bytes(), 1, Faults::NONE);
    let writer = slow_sink(rt.alloc(), 1, Faults::NONE);
    let (status, reader, writer) = run_on(rt, words, reader, writer)?;
    let is_read = reader.calls.saturating_sub(1) == input.len();
    let is_written = writer.calls == text.len() && writer.taken.as_slice() == text.as_bytes();
    Ok(status == Status::Done && writer.flushes == 1 && is_read && is_written)
}

/// A byte in each call, to read and to write, and one flush.
#[test]
fn slow_devices(rt: HostRuntime) -> Result<(), Fail> {
    for example in EXAMPLES {
        assert!(rt; is_done_slowly(&rt, *example)?, "{}", example.text);
    }
    Ok(())
}

/// Two kinds of failure by turns.
fn kind_at(call: usize) -> ErrorKind {
    if call % 2 == 0 {
        ErrorKind::Other
    } else {
        ErrorKind::WouldBlock
    }
}

/// Whether an example ends at a read that fails: it is not tried again, and the line that reports
/// it is written whole and flushed once.
fn ends_at_read<H: AllocGlobal + Threads + Wait + Sync>(
    rt: &H,
    example: Example,
    call: usize,
) -> Result<bool, Fail> {
    let faults = Faults::fail_call(call, kind_at(call));
    let reader = slow_source(example.input.as_bytes(), 1, faults);
    let writer = slow_sink(rt.alloc(), 8, Faults::interrupt_calls(1, 3));
    let (status, reader, writer) = run_on(rt, example.words, reader, writer)?;
    let is_last = reader.calls.saturating_sub(1) == call;
    let is_told = writer.taken.as_slice() == b"error: read fault\n".as_slice();
    Ok(status == Status::Fault && writer.flushes == 1 && is_last && is_told)
}

/// A failure at each read in turn, which is not tried again. The line that reports it is written
/// whole and flushed once, also where its writes are interrupted.
#[test]
fn failing_readers(rt: HostRuntime) -> Result<(), Fail> {
    for example in EXAMPLES {
        for call in 0..=example.input.len() {
            assert!(rt;
                ends_at_read(&rt, *example, call)?,
                "{call} {}",
                example.text
            );
        }
    }
    Ok(())
}

/// Whether an example ends at a write that fails: it is not tried again, and nothing is flushed.
fn ends_at_write<H: AllocGlobal + Threads + Wait + Sync>(
    rt: &H,
    example: Example,
    call: usize,
) -> Result<bool, Fail> {
    let Example { words, input, text } = example;
    let writer = slow_sink(rt.alloc(), 1, Faults::fail_call(call, kind_at(call)));
    let (status, _, writer) = run_on(rt, words, source(input.as_bytes()), writer)?;
    let taken = writer.taken.as_slice();
    let is_start = taken.len() == call && text.as_bytes().starts_with(taken);
    let is_last = writer.calls.saturating_sub(1) == call;
    Ok(status == Status::Fault && writer.flushes == 0 && is_last && is_start)
}

/// A failure at each write in turn, which is not tried again; nothing is flushed then.
#[test]
fn failing_writers(rt: HostRuntime) -> Result<(), Fail> {
    for example in EXAMPLES {
        for call in 0..example.text.len() {
            assert!(rt;
                ends_at_write(&rt, *example, call)?,
                "{call} {}",
                example.text
            );
        }
    }
    Ok(())
}

/// Whether an example ends where a writer takes no byte.
fn ends_when_full<H: AllocGlobal + Threads + Wait + Sync>(
    rt: &H,
    example: Example,
) -> Result<bool, Fail> {
    let full = slow_sink(rt.alloc(), 0, Faults::NONE);
    let (status, _, writer) = run_on(rt, example.words, source(example.input.as_bytes()), full)?;
    let is_left = writer.taken.is_empty() && writer.flushes == 0;
    Ok(status == Status::Fault && writer.calls == 1 && is_left)
}

/// Whether an example ends at a flush that fails so.
fn ends_at_flush<H: AllocGlobal + Threads + Wait + Sync>(
    rt: &H,
    example: Example,
    kind: ErrorKind,
) -> Result<bool, Fail> {
    let Example { words, input, text } = example;
    let mut stuck = sink(rt.alloc());
    stuck.flush_fault = Some(kind);
    let (status, _, writer) = run_on(rt, words, source(input.as_bytes()), stuck)?;
    let is_written = writer.taken.as_slice() == text.as_bytes();
    Ok(status == Status::Fault && writer.flushes == 1 && is_written)
}

const FLUSH_FAULTS: &[ErrorKind] = &[
    ErrorKind::Interrupted,
    ErrorKind::WouldBlock,
    ErrorKind::Other,
];

/// A writer that takes no byte, and a flush that fails, which is not tried again.
#[test]
fn stuck_writers(rt: HostRuntime) -> Result<(), Fail> {
    for example in EXAMPLES {
        assert!(rt; ends_when_full(&rt, *example)?, "{}", example.text);
        for kind in FLUSH_FAULTS {
            assert!(rt; ends_at_flush(&rt, *example, *kind)?, "{}", example.text);
        }
    }
    Ok(())
}

/// How many calls come before interruptions, how many reads and writes are interrupted, and what is
/// written: the example's text where the budget suffices, and else the report of a fault.
const INTERRUPTIONS: &[(usize, usize, usize, Option<&str>)] = &[
    (0, 1000, 0, None),
    (1, 1000, 0, None),
    (0, 0, 1000, None),
    (1, 0, 1000, None),
    (1, 600, 400, None),
    (0, 1001, 0, Some("error: read fault\n")),
    (1, 1001, 0, Some("error: read fault\n")),
    (0, 0, 1001, Some("")),
    (0, 600, 401, Some("")),
];

/// Whether an example ends with this status under such interruptions, and writes this. What is
/// written whole is flushed once, and nothing else is.
fn is_interrupted<H: AllocGlobal + Threads + Wait + Sync>(
    rt: &H,
    example: Example,
    (before, reads, writes): (usize, usize, usize),
    status: Status,
    written: &str,
) -> Result<bool, Fail> {
    let faults = Faults::interrupt_calls(before, reads);
    let reader = slow_source(example.input.as_bytes(), 16, faults);
    let writer = slow_sink(rt.alloc(), 8, Faults::interrupt_calls(before, writes));
    let (got, _, writer) = run_on(rt, example.words, reader, writer)?;
    let flushes = usize::from(!written.is_empty());
    let is_written = writer.taken.as_slice() == written.as_bytes();
    Ok(got == status && writer.flushes == flushes && is_written)
}

/// Whether an example does what a row of `INTERRUPTIONS` says.
fn goes_as_told<H: AllocGlobal + Threads + Wait + Sync>(
    rt: &H,
    example: Example,
    calls: (usize, usize, usize),
    fault: Option<&str>,
) -> Result<bool, Fail> {
    match fault {
        None => is_interrupted(rt, example, calls, Status::Done, example.text),
        Some(line) => is_interrupted(rt, example, calls, Status::Fault, line),
    }
}

/// Interruptions of reads and of writes have one budget, wherever they come. What is written whole
/// is flushed once, and nothing else is.
#[test]
fn interruptions(rt: HostRuntime) -> Result<(), Fail> {
    for example in EXAMPLES {
        for (before, reads, writes, fault) in INTERRUPTIONS {
            assert!(rt;
                goes_as_told(&rt, *example, (*before, *reads, *writes), *fault)?,
                "{before} {reads} {writes} {}",
                example.text
            );
        }
    }
    Ok(())
}

/// Arguments, the line that is printed, and the status.
const LINES: &[(&[&str], &str, Status)] = &[
    (
        &["spanprof", "slack"],
        "error: line 2: Unopened\n",
        Status::Refused,
    ),
    (
        &["spanprof", "check"],
        "error: line 2: Unopened\n",
        Status::Refused,
    ),
    (&["spanprof", "run"], "error: wrong words\n", Status::Usage),
];

/// Whether a line ends with this status where so many of its writes are interrupted, and this is
/// written. What is written whole is flushed once, and nothing else is.
fn is_line_interrupted<H: AllocGlobal + Threads + Wait + Sync>(
    rt: &H,
    words: &[&str],
    writes: usize,
    status: Status,
    written: &str,
) -> Result<bool, Fail> {
    let writer = slow_sink(rt.alloc(), 8, Faults::interrupt_calls(0, writes));
    let (got, _, writer) = run_on(rt, words, source(b"omptasks 1\n}\n---\n"), writer)?;
    let flushes = usize::from(!written.is_empty());
    let is_written = writer.taken.as_slice() == written.as_bytes();
    Ok(got == status && writer.flushes == flushes && is_written)
}

/// Interruptions of writes have the same budget where an input is refused, and where words are wrong.
#[test]
fn interrupted_lines(rt: HostRuntime) -> Result<(), Fail> {
    for (words, line, status) in LINES {
        assert!(rt;
            is_line_interrupted(&rt, *words, 1000, *status, line)?,
            "1000 {line}"
        );
        assert!(rt;
            is_line_interrupted(&rt, *words, 1001, Status::Fault, "")?,
            "1001 {line}"
        );
    }
    Ok(())
}

/// A program text, and a certificate, that never end.
#[test]
fn endless_inputs(rt: HostRuntime) -> Result<(), Fail> {
    let line = b"error: input too long\n".as_slice();
    for word in ["span", "check"] {
        let (status, _, writer) = run_on(&rt, &["spanprof", word], Endless, sink(rt.alloc()))?;
        assert!(rt; status == Status::Refused && writer.flushes == 1, "{word}");
        assert!(rt; writer.taken.as_slice() == line, "{word}");
    }
    Ok(())
}
