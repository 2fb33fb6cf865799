//! The program for texts of any size, over a reader that gives a few bytes at a time, is
//! interrupted, or fails.
use super::{Sink, line_of};
use counted_io::Counted;
use large_command::command;
use spanprof_command::{MOST_RETRIES, Status};
use std::alloc::AllocGlobal;
use std::io;
use std::io::{ErrorKind, Read};
use std::process::Abort;
use std::test::Fail;
use std::thread::Threads;
use task_program::name_key::NameKey;

/// Gives the bytes of a text, a few in each call. Once so few are left, it fails for some calls.
#[derive(Drop)]
struct Stream<'a> {
    left: &'a [u8],
    piece: usize,
    fails_at: usize,
    failures: u32,
    kind: ErrorKind,
}

impl Stream<'_> {
    /// Gives all, and never fails.
    fn of(text: &[u8], piece: usize) -> Stream<'_> {
        Stream {
            left: text,
            piece,
            fails_at: 0,
            failures: 0,
            kind: ErrorKind::Other,
        }
    }
}

impl Read for Stream<'_> {
    fn read(&mut self, buffer: &mut [u8]) -> io::Result<usize> {
        if self.failures > 0 && self.left.len() <= self.fails_at {
            self.failures -= 1;
            return Err(io::Error::from(self.kind));
        }
        let given = buffer.len().min(self.piece).min(self.left.len());
        buffer[..given].copy_from_slice(&self.left[..given]);
        self.left = &self.left[given..];
        Ok(given)
    }
}

/// What the program writes of this text, with this status.
fn is_told<H: AllocGlobal + Threads + Sync>(
    rt: &H,
    stream: Stream<'_>,
    wanted: (Status, &str),
) -> Result<bool, Fail> {
    let alloc = rt.alloc();
    let line = line_of(alloc, &[])?;
    let mut reader = Counted::new(stream);
    let mut writer = Counted::new(Sink {
        taken: Vec::new(alloc),
    });
    let status = command(
        rt,
        NameKey::fixed(),
        line.as_slice(),
        &mut reader,
        &mut writer,
    );
    let Sink { taken } = writer.into_inner();
    let (wanted_status, text) = wanted;
    Ok(status == wanted_status && taken.as_slice() == text.as_bytes())
}

const TEXT: &str =
    "omptasks 1 # } is not\n\ntask depend(inout: x) { work 3\n} work 2\ttaskwait # end";

const NUMBERS: &str = "tasks 1\nsegments 4\nwork 5\nspan 3\n";

const READ_FAULT: (Status, &str) = (Status::Fault, "error: read fault\n");

/// A text with a fault, behind which more comes.
const WRONG: &str = "omptasks 1\nwork 1 # 2\n}\nworm }\n";

/// A text, and the status and what is written.
const ENDS: &[(&str, (Status, &str))] = &[
    (TEXT, (Status::Done, NUMBERS)),
    (WRONG, (Status::Refused, "error: line 3: Unopened\n")),
];

#[test]
fn cut_anywhere(rt: HostRuntime) -> Result<(), Fail> {
    for (text, wanted) in ENDS {
        for piece in 1..100 {
            let stream = Stream::of(text.as_bytes(), piece);
            assert!(rt; is_told(&rt, stream, *wanted)?, "{piece} {text}");
        }
    }
    Ok(())
}

#[test]
fn interrupted(rt: HostRuntime) -> Result<(), Fail> {
    for fails_at in 0..100 {
        let mut stream = Stream::of(TEXT.as_bytes(), 7);
        stream.fails_at = fails_at;
        stream.kind = ErrorKind::Interrupted;
        stream.failures = MOST_RETRIES;
        assert!(rt;
            is_told(&rt, stream, (Status::Done, NUMBERS))?,
            "{fails_at}"
        );
        let mut stream = Stream::of(TEXT.as_bytes(), 7);
        stream.fails_at = fails_at;
        stream.kind = ErrorKind::Interrupted;
        stream.failures = MOST_RETRIES + 1;
        assert!(rt; is_told(&rt, stream, READ_FAULT)?, "{fails_at}");
    }
    Ok(())
}

/// Also where the text's fault is known before.
#[test]
fn failing(rt: HostRuntime) -> Result<(), Fail> {
    for text in [TEXT, WRONG] {
        for fails_at in 0..100 {
            let mut stream = Stream::of(text.as_bytes(), 7);
            stream.fails_at = fails_at;
            stream.failures = 1;
            assert!(rt; is_told(&rt, stream, READ_FAULT)?, "{fails_at} {text}");
        }
    }
    Ok(())
}
