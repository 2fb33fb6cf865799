//! Commands on large inputs, in memory.
mod any_size;
mod edges;
mod names;
mod segments;
mod streams;

use counted_io::Counted;
use spanprof_command::{Status, command};
use std::alloc::{AllocGlobal, Global};
use std::io;
use std::io::Write;
use std::process::Abort;
use std::sync::Wait;
use std::test::Fail;
use std::thread::Threads;

/// Keeps what it takes.
#[derive(Drop)]
struct Sink {
    taken: Vec<u8>,
}

impl Write for Sink {
    fn write(&mut self, bytes: &[u8]) -> io::Result<usize> {
        self.taken.extend_from_slice(bytes)?;
        Ok(bytes.len())
    }

    fn flush(&mut self) -> io::Result<()> {
        Ok(())
    }
}

/// The words of a command line.
fn line_of(alloc: Global, words: &[&str]) -> Result<Vec<String>, Fail> {
    let mut line = Vec::new(alloc);
    line.push(String::from_str(alloc, "spanprof")?)?;
    for word in words {
        line.push(String::from_str(alloc, word)?)?;
    }
    Ok(line)
}

/// What these words write on an input that is not refused.
fn report<H: AllocGlobal + Threads + Wait + Abort + Sync>(
    rt: &H,
    words: &[&str],
    input: &[u8],
) -> Result<Vec<u8>, Fail> {
    let line = line_of(rt.alloc(), words)?;
    let mut reader = Counted::new(input);
    let mut writer = Counted::new(Sink {
        taken: Vec::new(rt.alloc()),
    });
    let status = command(rt, line.as_slice(), &mut reader, &mut writer);
    assert!(rt; status == Status::Done, "{words:?}");
    let Sink { taken } = writer.into_inner();
    Ok(taken)
}

/// These words write this text.
fn assert_report<H: AllocGlobal + Threads + Wait + Abort + Sync>(
    rt: &H,
    words: &[&str],
    input: &[u8],
    wanted: &[u8],
) -> Result<(), Fail> {
    let written = report(rt, words, input)?;
    assert!(rt; written.as_slice() == wanted, "{words:?}");
    Ok(())
}

/// The certificate of a program is accepted with this verdict.
fn assert_certified<H: AllocGlobal + Threads + Wait + Abort + Sync>(
    rt: &H,
    text: &[u8],
    verdict: &[u8],
) -> Result<(), Fail> {
    let certificate = report(rt, &["certify"], text)?;
    assert_report(rt, &["check"], certificate.as_slice(), verdict)
}

/// Adds a log of so many segments, one after another.
fn add_log(alloc: Global, text: &mut String, segments: u32) -> Result<(), Fail> {
    text.push_str("---\n")?;
    for segment in 0..segments {
        text.push_str(&format!(in alloc; "start 0 {segment}\nfinish 0 {segment}\n")?)?;
    }
    Ok(())
}

/// How many lines a text has.
fn line_count(text: &[u8]) -> usize {
    text.iter().filter(|byte| **byte == b'\n').count()
}
