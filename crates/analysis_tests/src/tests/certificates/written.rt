//! Certificates as they are written, to writers that take all, take little, or fail.
ghost use Rattle.std.specs.Prelude.{◌≡◌, IfOk};
ghost use Rattle.counted_io.specs.Counted.{faults_of};
ghost use Rattle.span_cert.specs.Analysed.{IsAnalysisOf};

use super::{ACCEPTED, PROGRAM, answer_to, assert_answer, worked};
use counted_io::Counted;
use dispatch_core::replay::in_order;
use span_analysis::analysis::{Analysis, analyse};
use span_cert::{Checked, WriteFault, write_certificate};
use std::alloc::Global;
use std::io;
use std::io::{ErrorKind, Write};
use std::process::Abort;
use std::test::Fail;
use std::thread::Threads;
use task_program::AllocFault;
use task_program::program::Program;
use task_program::read::read_program;
use task_segments::cut;

/// Keeps what it takes, so many bytes in each call; one call fails.
#[derive(Drop)]
struct Sink {
    taken: Vec<u8>,
    piece: usize,
    /// The call, counted from 0, that fails, and how.
    failing: Option<(u32, ErrorKind)>,
    calls: u32,
}

impl Sink {
    fn new(alloc: Global, piece: usize, failing: Option<(u32, ErrorKind)>) -> Counted<Sink>
        ensures { faults_of result ≡ 0 }
    {
        Counted::new(Sink {
            taken: Vec::new(alloc),
            piece,
            failing,
            calls: 0,
        })
    }
}

impl Write for Sink {
    fn write(&mut self, bytes: &[u8]) -> io::Result<usize> {
        let call = self.calls;
        self.calls = call.saturating_add(1);
        if let Some((failing, kind)) = self.failing
            && failing == call
        {
            return Err(io::Error::from(kind));
        }
        let piece = self.piece.min(bytes.len());
        self.taken.extend_from_slice(&bytes[..piece])?;
        Ok(piece)
    }

    fn flush(&mut self) -> io::Result<()> {
        Err(io::Error::from(ErrorKind::Other))
    }
}

/// The analysis of a program's graph.
fn analysis_of(alloc: Global, program: &Program) -> Result<Analysis, AllocFault>
    ensures { IfOk result (λ analysis. IsAnalysisOf program.now analysis) }
{
    let graph = match in_order(alloc, cut(alloc, program)?) {
        Ok(graph) => graph,
        Err(_) => return Err(AllocFault),
    };
    analyse(alloc, &graph)
}

/// The program of a text.
fn program_of(alloc: Global, text: &str) -> Result<Program, Fail> {
    Ok(read_program(alloc, text.as_bytes())?)
}

/// Writes the certificate of a program.
fn write_analysed(
    alloc: Global,
    program: &Program,
    sink: &mut Counted<Sink>,
) -> Result<Result<(), WriteFault>, Fail>
    requires { faults_of sink.old ≡ 0 }
{
    let analysis = analysis_of(alloc, program)?;
    Ok(write_certificate(alloc, program, &analysis, sink))
}

/// Writes the certificate of a text, and answers what was taken too.
fn written(
    alloc: Global,
    text: &str,
    sink: Counted<Sink>,
) -> Result<(Result<(), WriteFault>, Vec<u8>), Fail>
    requires { faults_of sink ≡ 0 }
{
    let mut sink = sink;
    let program = program_of(alloc, text)?;
    let answer = write_analysed(alloc, &program, &mut sink)?;
    Ok((answer, sink.into_inner().taken))
}

/// Asserts that a certificate is written whole, at most so many bytes in each call.
fn assert_written(
    rt: &impl Abort,
    alloc: Global,
    text: &str,
    piece: usize,
    whole: &[u8],
) -> Result<(), Fail> {
    let (answer, taken) = written(alloc, text, Sink::new(alloc, piece, None))?;
    assert_eq!(rt; answer, Ok(()));
    assert_eq!(rt; taken.as_slice(), whole);
    Ok(())
}

#[test]
fn certificates_are_written_whole(rt: HostRuntime) -> Result<(), Fail> {
    let alloc = rt.alloc();
    let whole = worked(alloc)?;
    for piece in [1_000, 1] {
        assert_written(&rt, alloc, PROGRAM, piece, whole.as_bytes())?;
    }
    // a program without statements, and a text that is not canonical
    let empty = b"omptasks 1\n---\nend 0\nstart 0 0\nchain 0\n";
    assert_written(&rt, alloc, "omptasks 01 # nothing", 1_000, empty)
}

/// A text, how many segments it has, and where its run ends.
const TEXTS: &[(&str, u32, u64)] = &[
    ("omptasks 1 work 5 task { work 3 } work 2", 3, 8),
    ("omptasks 1 taskgroup { } taskwait", 3, 0),
    (
        "omptasks 1 task depend(inoutset: x) { work 4 } task depend(inoutset: x) { work 6 } \
            task depend(in: x) { work 1 } task depend(inoutset: x) { work 2 } task depend(out: x) \
            { work 1 }",
        11,
        10,
    ),
    (
        "omptasks 1 task depend(in: x) depend(inoutset: x) { work 3 } task depend(in: x) \
            depend(inoutset: x) { work 3 }",
        5,
        6,
    ),
    (
        "omptasks 1 task depend(out: x) { work 9 } task if(0) depend(in: x) { work 1 } work 1",
        5,
        11,
    ),
    (
        "omptasks 1 task if(0) { task { work 8 } work 1 } work 2",
        5,
        8,
    ),
    (
        "omptasks 1 taskgroup { task { task { work 8 } } } work 2",
        6,
        10,
    ),
    ("omptasks 1 work 1000000000000", 1, 1_000_000_000_000),
];

/// Asserts that the certificate of a text is written and accepted.
fn assert_accepted(
    rt: &(impl Threads + Abort + Sync),
    alloc: Global,
    text: &str,
    wanted: Checked,
) -> Result<(), Fail> {
    let (answer, taken) = written(alloc, text, Sink::new(alloc, 100, None))?;
    let told = (answer, answer_to(rt, alloc, &taken));
    assert_eq!(rt; told, (Ok(()), Ok(wanted)), "{text}");
    Ok(())
}

#[test]
fn written_certificates_are_accepted(rt: HostRuntime) -> Result<(), Fail> {
    for (text, segments, ends_at) in TEXTS {
        let (segments, ends_at) = (*segments, *ends_at);
        assert_accepted(&rt, rt.alloc(), text, Checked { segments, ends_at })?;
    }
    Ok(())
}

/// The bytes of each call, the call that fails, how it fails, and the bytes that are taken.
const FAILED: &[(usize, u32, ErrorKind, usize)] = &[
    (1_000, 0, ErrorKind::Other, 0),
    (50, 0, ErrorKind::Interrupted, 0),
    (50, 1, ErrorKind::Other, 50),
    (50, 2, ErrorKind::Interrupted, 100),
    // it takes no byte
    (0, 9, ErrorKind::Other, 0),
];

/// Asserts that a failed write of the worked certificate leaves so many of its first bytes.
fn assert_prefix(
    rt: &impl Abort,
    alloc: Global,
    sink: Counted<Sink>,
    whole: &[u8],
    taken: usize,
) -> Result<(), Fail>
    requires { faults_of sink ≡ 0 }
{
    let (answer, prefix) = written(alloc, PROGRAM, sink)?;
    assert_eq!(rt; answer, Err(WriteFault::Device));
    assert_eq!(rt; prefix.as_slice(), &whole[..taken.min(whole.len())]);
    Ok(())
}

#[test]
fn failed_writes_leave_a_prefix(rt: HostRuntime) -> Result<(), Fail> {
    let alloc = rt.alloc();
    let whole = worked(alloc)?;
    for (piece, call, kind, taken) in FAILED {
        let sink = Sink::new(alloc, *piece, Some((*call, *kind)));
        assert_prefix(&rt, alloc, sink, whole.as_bytes(), *taken)?;
    }
    assert_answer(&rt, alloc, whole.as_str(), ACCEPTED);
    Ok(())
}
