//! Certificates, written and checked.
ghost use Rattle.std.specs.Prelude.{◌≡◌, IfOk};
ghost use Rattle.counted_io.specs.Counted.{faults_of};
ghost use Rattle.span_cert.specs.Analysed.{IsAnalysisOf};

use super::programs::WORKED;
use super::supply::Supply;
use super::texts::program_of;
use counted_io::Counted;
use dispatch_core::replay::in_order;
use span_analysis::analysis::{Analysis, analyse};
use span_cert::{CheckFault, Checked, WriteFault, certificate_text, check, write_certificate};
use std::alloc::{AllocGlobal, Global};
use std::io;
use std::io::Write;
use std::process::Abort;
use std::test::Fail;
use std::thread::Threads;
use task_program::AllocFault;
use task_program::program::Program;
use task_segments::cut;

pub(super) const CERTIFICATE: &str =
    "omptasks 1\nwork 5\ntask {\nwork 3\n}\nwork 2\ntaskwait\nwork 1\n---\nend 9\nstart 0 0\n\
    start 1 5\nstart 2 5\nstart 3 8\nchain 0 1 3\n";

const ACCEPTED: Result<Checked, CheckFault> = Ok(Checked {
    segments: 4,
    ends_at: 9,
});

/// Has room for so many bytes, and takes no memory.
#[derive(Drop)]
pub(super) struct Room {
    bytes: [u8; 200],
    len: usize,
}

impl Room {
    /// What was written.
    pub(super) fn taken(&self) -> &[u8] {
        &self.bytes[..self.len.min(self.bytes.len())]
    }
}

impl Write for Room {
    fn write(&mut self, bytes: &[u8]) -> io::Result<usize> {
        let start = self.len.min(self.bytes.len());
        let room = &mut self.bytes[start..];
        let taken = bytes.len().min(room.len());
        room[..taken].copy_from_slice(&bytes[..taken]);
        self.len = start + taken;
        Ok(taken)
    }

    fn flush(&mut self) -> io::Result<()> {
        Ok(())
    }
}

pub(super) fn empty_room() -> Counted<Room>
    ensures { faults_of result ≡ 0 }
{
    Counted::new(Room {
        bytes: [0; 200],
        len: 0,
    })
}

fn analysis_of(alloc: Global, program: &Program) -> Result<Analysis, AllocFault>
    ensures { IfOk result (λ analysis. IsAnalysisOf program.now analysis) }
{
    let graph = match in_order(alloc, cut(alloc, program)?) {
        Ok(graph) => graph,
        Err(_) => return Err(AllocFault),
    };
    analyse(alloc, &graph)
}

fn analysed(alloc: Global, supply: &mut Supply, program: &Program) -> Result<Analysis, Fail>
    ensures { IfOk result (λ analysis. IsAnalysisOf program.now analysis) }
{
    supply.before_call();
    match analysis_of(alloc, program) {
        Ok(analysis) => Ok(analysis),
        Err(_) => {
            supply.refused();
            Ok(analysis_of(alloc, program)?)
        }
    }
}

/// Writes a certificate with ample memory.
fn write_again(rt: &impl Abort, alloc: Global, program: &Program, analysis: &Analysis)
    requires { IsAnalysisOf program.now analysis.now }
{
    let mut writer = empty_room();
    assert!(rt; write_certificate(alloc, program, analysis, &mut writer).is_ok());
    assert_eq!(rt; writer.inner().taken(), CERTIFICATE.as_bytes());
}

/// Writes a certificate.
fn write(
    rt: &impl Abort,
    alloc: Global,
    supply: &mut Supply,
    program: &Program,
    analysis: &Analysis,
)
    requires { IsAnalysisOf program.now analysis.now }
{
    let mut writer = empty_room();
    supply.before_call();
    match write_certificate(alloc, program, analysis, &mut writer) {
        Ok(()) => assert_eq!(rt; writer.inner().taken(), CERTIFICATE.as_bytes()),
        Err(fault) => {
            supply.refused();
            assert_eq!(rt; fault, WriteFault::OutOfMemory);
            assert!(rt; writer.inner().taken().is_empty() && writer.faults() == 0);
            write_again(rt, alloc, program, analysis);
        }
    }
}

/// Makes the text of a certificate.
fn make_text(
    rt: &impl Abort,
    alloc: Global,
    supply: &mut Supply,
    program: &Program,
    analysis: &Analysis,
) -> Result<(), Fail> {
    supply.before_call();
    let text = match certificate_text(alloc, program, analysis) {
        Ok(text) => text,
        Err(_) => {
            supply.refused();
            certificate_text(alloc, program, analysis)?
        }
    };
    assert_eq!(rt; text.as_slice(), CERTIFICATE.as_bytes());
    Ok(())
}

fn write_analysed(
    rt: &impl Abort,
    alloc: Global,
    supply: &mut Supply,
    program: &Program,
) -> Result<(), Fail> {
    let analysis = analysed(alloc, supply, program)?;
    make_text(rt, alloc, supply, program, &analysis)?;
    write(rt, alloc, supply, program, &analysis);
    Ok(())
}

/// Nothing is written where an allocation is refused.
pub(super) fn written<H: AllocGlobal + Abort>(rt: &H, supply: &mut Supply) -> Result<(), Fail> {
    let program = program_of(rt, supply, WORKED)?;
    write_analysed(rt, rt.alloc(), supply, &program)
}

/// A certificate that holds, and one whose chain has a false step.
pub(super) fn checked<H: AllocGlobal + Threads + Abort + Sync>(
    rt: &H,
    supply: &mut Supply,
) -> Result<(), Fail> {
    let alloc = rt.alloc();
    let wrong = b"omptasks 1\nwork 5\n---\nend 5\nstart 0 0\nchain 0 0\n".as_slice();
    let step = Err(CheckFault::ChainStep { s: 0, t: 0 });
    for (document, wanted) in [(CERTIFICATE.as_bytes(), ACCEPTED), (wrong, step)] {
        supply.before_call();
        let answer = match check(rt, alloc, document) {
            Err(CheckFault::OutOfMemory) => {
                supply.refused();
                check(rt, alloc, document)
            }
            answer => answer,
        };
        assert!(rt; answer == wanted);
    }
    Ok(())
}
