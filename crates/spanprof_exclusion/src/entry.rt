//! The program's way in, over a reader and a writer: what the process gives and takes is named by no
//! contract.
ghost use Rattle.std.specs.Prelude.{◌≡◌, ◌+◌, ◌-◌, ◌^◌, ◌<◌, ◌≤◌, IfOk, string_bytes};
ghost use Rattle.counted_io.specs.Counted.{faults_of, flushes_of, inner_of};
ghost use Rattle.counted_io.specs.Input.{ConsumesAtMost};
ghost use Rattle.counted_io.specs.declared.input.TheConstants.{LARGEST_INPUT};
ghost use Rattle.spanprof_exclusion.specs.Ends.{Ends, Sends, SendsAnswer};
ghost use Rattle.spanprof_exclusion.specs.Report.{Judges, fault_report};

use counted_io::{Counted, InputFault, LARGEST_INPUT, read_input, write_text};
use exclusive_tasks::{Verdict, judge, verdict_text};
use std::alloc::{AllocError, Global};
use std::io::{Eprint, Read, Write};
use std::process::{ExitCode, Termination};

/// So many interrupted reads and writes, together, are tried again.
const MOST_RETRIES: u32 = 1000;

/// How the program ended. `main` returns it, and only `start` makes one.
#[derive(Drop)]
pub struct Ended {
    code: ExitCode,
}

impl Termination for Ended {
    fn report<R: Eprint>(self, _rt: &R) -> ExitCode
        ensures { result ≡ self.code }
    {
        self.code
    }
}

const DONE: u8 = 0;

const REFUSED: u8 = 1;

const FAULT: u8 = 3;

/// Reads a log to its end, writes the verdict on it, or why there is none, and answers the exit
/// status.
pub fn start<R: Read, W: Write>(
    alloc: Global,
    reader: &mut Counted<R>,
    writer: &mut Counted<W>,
) -> Ended
    requires reader { faults_of reader.old < 2 ^ 63 }
    requires writer { faults_of writer.old < 2 ^ 63 }
    ensures ends { Ends R.remaining reader.old reader.new W.contents writer.old writer.new
        result.code }

    // In every case.
    ensures reads_so_much { ConsumesAtMost (LARGEST_INPUT + 1) (R.remaining (inner_of reader.old))
        (R.remaining (inner_of reader.new)) }
    ensures flushes { flushes_of writer.new ≤ flushes_of writer.old + 1 }
{
    let mut retries = MOST_RETRIES;
    match read_input(alloc, reader, LARGEST_INPUT, &mut retries) {
        Ok(input) => Ended {
            code: tell(alloc, input.as_slice(), writer, &mut retries),
        },
        Err(fault) => Ended {
            code: refuse(fault, writer, &mut retries),
        },
    }
}

/// Writes the verdict on a log.
fn tell<W: Write>(alloc: Global, log: &[u8], writer: &mut Counted<W>, retries: &mut u32) -> ExitCode
    requires { faults_of writer.old + retries.old < 2 ^ 64 - 1 }
    ensures sends { SendsAnswer W.contents writer.old writer.new retries.old retries.new
        log.now result }
    ensures retried { retries.new ≤ retries.old }
    ensures flushes { flushes_of writer.new ≤ flushes_of writer.old + 1 }
{
    match told(alloc, log) {
        Ok((text, status)) => send(text.as_bytes(), status, writer, retries),
        Err(AllocError) => refuse(InputFault::OutOfMemory, writer, retries),
    }
}

/// The text of the verdict, and the exit status.
fn told(alloc: Global, log: &[u8]) -> Result<(String, u8), AllocError>
    ensures { IfOk result (λ told. Judges log.now
        (record { text = string_bytes told.0; status = told.1 })) }
{
    let verdict = judge(alloc, log)?;
    let text = verdict_text(alloc, verdict)?;
    match verdict {
        Verdict::Apart => Ok((text, DONE)),
        _ => Ok((text, REFUSED)),
    }
}

/// Writes why there is no log.
fn refuse<W: Write>(fault: InputFault, writer: &mut Counted<W>, retries: &mut u32) -> ExitCode
    requires { faults_of writer.old + retries.old < 2 ^ 64 - 1 }
    ensures sends { Sends W.contents writer.old writer.new retries.old retries.new
        (fault_report fault) result }
    ensures retried { retries.new ≤ retries.old }
    ensures flushes { flushes_of writer.new ≤ flushes_of writer.old + 1 }
{
    match fault {
        InputFault::TooLong => send(b"error: input too long\n", REFUSED, writer, retries),
        InputFault::ReadFailed => send(b"error: read fault\n", FAULT, writer, retries),
        InputFault::OutOfMemory => send(b"error: out of memory\n", FAULT, writer, retries),
    }
}

/// Writes a text, and answers the exit status.
fn send<W: Write>(text: &[u8], status: u8, writer: &mut Counted<W>, retries: &mut u32) -> ExitCode
    requires { faults_of writer.old + retries.old < 2 ^ 64 - 1 }
    ensures sends { Sends W.contents writer.old writer.new retries.old retries.new
        (record { text = text.now; status = status }) result }
    ensures retried { retries.new ≤ retries.old }
    ensures flushes { flushes_of writer.new ≤ flushes_of writer.old + 1 }
{
    match write_text(writer, text, retries) {
        Ok(()) => ExitCode::from(status),
        Err(_) => ExitCode::from(FAULT),
    }
}
