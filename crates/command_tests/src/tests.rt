//! Counted devices, words, tables, and commands over devices in memory.
mod certificates;
mod counted;
mod devices;
mod events;
mod examples;
mod fake_devices;
mod graphs;
mod long_inputs;
mod loops;
mod replays;
mod requests;
mod rows;
mod starts;
mod tables;
mod words;

use crate::tests::fake_devices::{Faults, Sink, Source};
use counted_io::Counted;
use spanprof_command::{Status, command};
use std::alloc::{AllocGlobal, Global};
use std::io::Read;
use std::process::Abort;
use std::sync::Wait;
use std::test::Fail;
use std::thread::Threads;

/// The words of a command line.
fn words_of(alloc: Global, words: &[&str]) -> Result<Vec<String>, Fail> {
    let mut list = Vec::new(alloc);
    for word in words {
        list.push(String::from_str(alloc, word)?)?;
    }
    Ok(list)
}

/// A text so many times.
fn repeated(alloc: Global, piece: &str, times: u32) -> Result<String, Fail> {
    let mut text = String::new(alloc);
    for _ in 0..times {
        text.push_str(piece)?;
    }
    Ok(text)
}

/// A reader that gives a text at once.
fn source(text: &[u8]) -> Source<'_> {
    slow_source(text, usize::MAX, Faults::NONE)
}

/// A reader that gives so many bytes of a text in each call, with these faults.
fn slow_source(text: &[u8], piece: usize, faults: Faults) -> Source<'_> {
    Source {
        left: text,
        piece,
        faults,
        calls: 0,
    }
}

/// A writer that takes all it is given.
fn sink(alloc: Global) -> Sink {
    slow_sink(alloc, usize::MAX, Faults::NONE)
}

/// A writer that takes so many bytes in each call, with these faults.
fn slow_sink(alloc: Global, piece: usize, faults: Faults) -> Sink {
    Sink {
        taken: Vec::new(alloc),
        piece,
        faults,
        calls: 0,
        flush_fault: None,
        flushes: 0,
    }
}

/// What the words give on these devices: the status, and the devices as they are left.
fn run_on<H: AllocGlobal + Threads + Wait + Sync, R: Read + Drop>(
    rt: &H,
    words: &[&str],
    reader: R,
    writer: Sink,
) -> Result<(Status, R, Sink), Fail> {
    let words = words_of(rt.alloc(), words)?;
    let mut reader = Counted::new(reader);
    let mut writer = Counted::new(writer);
    let status = command(rt, words.as_slice(), &mut reader, &mut writer);
    Ok((status, reader.into_inner(), writer.into_inner()))
}

/// The status, what was written, and the reader as it is left.
fn run<H: AllocGlobal + Threads + Wait + Sync, R: Read + Drop>(
    rt: &H,
    words: &[&str],
    reader: R,
    writer: Sink,
) -> Result<(Status, Vec<u8>, R), Fail> {
    let (status, reader, writer) = run_on(rt, words, reader, writer)?;
    let Sink { taken, .. } = writer;
    Ok((status, taken, reader))
}

/// Whether the words give this text and status on an input.
fn gives<H: AllocGlobal + Threads + Wait + Sync>(
    rt: &H,
    words: &[&str],
    input: &str,
    text: &str,
    status: Status,
) -> Result<bool, Fail> {
    let (got, written, _) = run(rt, words, source(input.as_bytes()), sink(rt.alloc()))?;
    Ok(got == status && written.as_slice() == text.as_bytes())
}

/// The words give the text of each row, and this status, on the row's input after this beginning.
fn all_give<H: AllocGlobal + Threads + Wait + Abort + Sync>(
    rt: &H,
    words: &[&str],
    begin: &str,
    rows: &[(&str, &str)],
    status: Status,
) -> Result<(), Fail> {
    for (input, text) in rows {
        let whole = format!(in rt.alloc(); "{begin}{input}")?;
        assert!(rt; gives(rt, words, whole.as_str(), text, status)?, "{input}");
    }
    Ok(())
}

/// These words with each row's further words give the row's text and status on an input.
fn all_answer<H: AllocGlobal + Threads + Wait + Abort + Sync>(
    rt: &H,
    words: &[&str],
    input: &str,
    rows: &[(&[&str], &str, Status)],
) -> Result<(), Fail> {
    for (place, (more, text, status)) in rows.iter().enumerate() {
        let mut whole = Vec::new(rt.alloc());
        whole.extend_from_slice(words)?;
        whole.extend_from_slice(more)?;
        assert!(rt;
            gives(rt, whole.as_slice(), input, text, *status)?,
            "{place}"
        );
    }
    Ok(())
}
