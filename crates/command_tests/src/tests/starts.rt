//! The program's way in.

use super::fake_devices::{Faults, Sink};
use super::{slow_sink, source, words_of};
use counted_io::Counted;
use spanprof_command::start;
use std::alloc::AllocGlobal;
use std::io;
use std::io::ErrorKind;
use std::process::ExitCode;
use std::sync::Wait;
use std::test::Fail;
use std::thread::Threads;

/// The exit status, what is written and how often the reader is asked, where these are the words.
fn started<H: AllocGlobal + Threads + Wait + Sync>(
    rt: &H,
    words: io::Result<Vec<String>>,
    faults: Faults,
) -> Result<(ExitCode, Vec<u8>, usize), Fail> {
    let mut reader = Counted::new(source(b"omptasks 1\nwork 3"));
    let mut writer = Counted::new(slow_sink(rt.alloc(), usize::MAX, faults));
    let code = start(rt, words, &mut reader, &mut writer);
    let Sink { taken, .. } = writer.into_inner();
    Ok((code, taken, reader.into_inner().calls))
}

/// Whether this word gives this exit status and text.
fn word_starts<H: AllocGlobal + Threads + Wait + Sync>(
    rt: &H,
    word: &str,
    code: u8,
    text: &str,
) -> Result<bool, Fail> {
    let words = words_of(rt.alloc(), &["spanprof", word])?;
    let (got, written, _) = started(rt, Ok(words), Faults::NONE)?;
    Ok(got == ExitCode::from(code) && written.as_slice() == text.as_bytes())
}

/// Whether words that are no text give this exit status and text, and nothing is read.
fn none_starts<H: AllocGlobal + Threads + Wait + Sync>(
    rt: &H,
    kind: ErrorKind,
    code: u8,
    text: &str,
) -> Result<bool, Fail> {
    let (got, written, calls) = started(rt, Err(io::Error::from(kind)), Faults::NONE)?;
    let is_written = written.as_slice() == text.as_bytes();
    Ok(got == ExitCode::from(code) && calls == 0 && is_written)
}

/// Whether nothing is written where the first write fails.
fn is_silent<H: AllocGlobal + Threads + Wait + Sync>(
    rt: &H,
    words: io::Result<Vec<String>>,
) -> Result<bool, Fail> {
    let (code, written, _) = started(rt, words, Faults::fail_call(0, ErrorKind::Other))?;
    Ok(code == ExitCode::from(3) && written.is_empty())
}

/// A word, the exit status, and what is written.
const STARTED: &[(&str, u8, &str)] = &[
    ("span", 0, "segments 1\nwork 3\nspan 3\n"),
    ("replay", 1, "error: BadForm\n"),
    ("--help", 2, "error: wrong words\n"),
];

#[test]
fn given_words(rt: HostRuntime) -> Result<(), Fail> {
    for (word, code, text) in STARTED {
        assert!(rt; word_starts(&rt, word, *code, text)?, "{code}");
    }
    assert!(rt; is_silent(&rt, Ok(words_of(rt.alloc(), &["spanprof"])?))?);
    Ok(())
}

/// Why there are no words, the exit status, and what is written.
const UNREAD: &[(ErrorKind, u8, &str)] = &[
    (ErrorKind::InvalidData, 2, "error: wrong words\n"),
    (ErrorKind::Other, 2, "error: wrong words\n"),
    (ErrorKind::OutOfMemory, 3, "error: out of memory\n"),
];

/// Arguments that are no text are wrong, and nothing is read.
#[test]
fn no_words(rt: HostRuntime) -> Result<(), Fail> {
    for (kind, code, text) in UNREAD {
        assert!(rt; none_starts(&rt, *kind, *code, text)?, "{code}");
        assert!(rt; is_silent(&rt, Err(io::Error::from(*kind)))?, "{code}");
    }
    Ok(())
}
