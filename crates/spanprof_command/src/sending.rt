//! The end of a command: a report, or the line of why there is none, is written.
ghost use Rattle.std.specs.Prelude.{◌≡◌, ◌≢◌, ◌+◌, ◌-◌, ◌^◌, ◌<◌, ◌≤◌, Err, true};
ghost use Rattle.std.specs.Io.KnownBytes.{Appends};
ghost use Rattle.counted_io.specs.Counted.{inner_of, faults_of, flushes_of, is_flushed};
ghost use Rattle.spanprof_command.specs.Command.{Sends, SendsWithin, counts_of};
ghost use Rattle.spanprof_command.specs.Finished.{told};
ghost use Rattle.spanprof_command.specs.Flushes.{FlushesOnce};
ghost use Rattle.spanprof_command.specs.declared.sending.NoReport.TheVariants.{OutOfMemory};

use crate::report::{Report, Status};
use counted_io::{Counted, write_text};
use std::io::Write;
use task_program::AllocFault;

/// Why there is no report.
#[derive(Clone, Copy, Debug, PartialEq, Eq)]
pub enum NoReport {
    /// An allocation failed.
    OutOfMemory,
    /// The reader failed, or was interrupted too often.
    ReadFault,
}

impl From<AllocFault> for NoReport {
    ghost from_gives = { λ _ fault. fault ≡ OutOfMemory };

    fn from(_error: AllocFault) -> NoReport {
        NoReport::OutOfMemory
    }
}

/// Writes the report that was made, or the line of why there is none, with so many retries. Answers
/// the status, or `Fault` where the writer failed.
pub fn finish<W: Write>(
    writer: &mut Counted<W>,
    made: Result<Report, NoReport>,
    retries: u32,
) -> Status
    requires { faults_of writer.old + retries < 2 ^ 64 - 1 }
    ensures sends { SendsWithin retries (told made)
        (W.contents (inner_of writer.old)) (W.contents (inner_of writer.new))
        (counts_of writer.old writer.new) result }
    ensures flushes { FlushesOnce (result ≢ Status.Fault) writer.old writer.new }
    // A text that is not whole is not flushed.
    ensures flushed_last { flushes_of writer.old < flushes_of writer.new
        → Appends (W.contents (inner_of writer.old)) (W.contents (inner_of writer.new))
        (told made).text }
{
    let mut left = retries;
    match made {
        Ok(report) => send(writer, report.text(), report.status(), &mut left),
        Err(fault) => send(writer, line_of(fault), Status::Fault, &mut left),
    }
}

/// The line that says why there is no report.
fn line_of(fault: NoReport) -> &'static [u8]
    ensures { result.now ≡ (told (Err fault)).text }
{
    match fault {
        NoReport::OutOfMemory => b"error: out of memory\n",
        NoReport::ReadFault => b"error: read fault\n",
    }
}

/// Writes the text, and answers the status, or `Fault` where the writer failed.
pub fn send<W: Write>(
    writer: &mut Counted<W>,
    text: &[u8],
    status: Status,
    retries: &mut u32,
) -> Status
    requires { faults_of writer.old + retries.old < 2 ^ 64 - 1 }
    ensures sends { Sends (record { text = text.now; status = status })
        (W.contents (inner_of writer.old)) (W.contents (inner_of writer.new))
        (counts_of writer.old writer.new) retries.old retries.new
        result }
    ensures retried { retries.new ≤ retries.old }
    ensures flushes { FlushesOnce (result ≢ Status.Fault) writer.old writer.new }
    // Whatever the status, where each fault used up one of the retries.
    ensures flushed_if_paid { faults_of writer.new + retries.new
        ≡ faults_of writer.old + retries.old → is_flushed writer.new ≡ true }
    // A text that is not whole is not flushed.
    ensures flushed_last { flushes_of writer.old < flushes_of writer.new
        → Appends (W.contents (inner_of writer.old)) (W.contents (inner_of writer.new)) text.now }
{
    match write_text(writer, text, retries) {
        Ok(()) => status,
        Err(_) => Status::Fault,
    }
}
