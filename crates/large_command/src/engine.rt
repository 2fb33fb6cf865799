//! Words, text, report and status, in that order.
ghost use Rattle.std.specs.Prelude.{◌≡◌, ◌≢◌, ◌+◌, ◌-◌, ◌^◌, ◌<◌, ◌≤◌, List, ℕ, Err, map};
ghost use Rattle.std.specs.Prelude.{string_bytes, IfOk, IfSome, false, true, []};
ghost use Rattle.counted_io.specs.Counted.{inner_of, faults_of};
ghost use Rattle.counted_io.specs.Input.{ConsumesAtMost};
ghost use Rattle.command_words.specs.About.{about_of};
ghost use Rattle.command_words.specs.LargeWords.{large_request_of};
ghost use Rattle.command_words.specs.declared.large.LargeRequest.TheVariants.{OfDocument};
ghost use Rattle.spanprof_command.specs.Command.{EndsWith, counts_of};
ghost use Rattle.spanprof_command.specs.Finished.{SpendsRetries};
ghost use Rattle.spanprof_command.specs.Flushes.{FlushesOnce};
ghost use Rattle.spanprof_command.specs.Report.{input_too_long};
ghost use Rattle.spanprof_command.specs.declared.engine.TheConstants.{MOST_RETRIES};
ghost use Rattle.large_command.specs.LargeCommand.{AnswersText, IsReport, IsReportOfText, is_in_range};
ghost use Rattle.large_command.specs.LargeReports.{Answers};
ghost use Rattle.large_command.specs.TextInput.{IsOfText, KeepsFor};
ghost use Rattle.large_text.specs.Streamed.{CanTakeBytes, HasTaken};
ghost use Rattle.large_command.specs.LargeCommand.{is_table_in_range, is_thread_count, wants_text};
ghost use Rattle.large_text.specs.declared.limits.TheConstants.{LARGEST_TEXT};

use crate::about::about_text;
use crate::document_input::read_document;
use crate::documents::answer_document;
use crate::meter_answers::answer_meter;
use crate::table_answers::answer_table;
use crate::text_answers::answer_printed;
use crate::text_input::take_input;
use command_words::about::read_about;
use command_words::large::{
    DocumentRequest, LargeRequest, MeterRequest, TableRequest, TextRequest, read_large_words,
};
use command_words::request::WordsFault;
use counted_io::{Counted, InputFault};
use greedy_sim::greedy::MOST_THREADS;
use large_text::TextMeter;
use spanprof_command::{MOST_RETRIES, NoReport, Report, Status, finish};
use std::alloc::{AllocGlobal, Global};
use std::io::{Read, Write};
use std::thread::Threads;
use task_program::AllocFault;
use task_program::name_key::NameKey;

/// Reads a text of any size to its end, in either version. Without a further word it writes how many tasks
/// and segments the text has, its work and its span, each on a line of its own. `bounds --upto P`
/// writes a table of bounds, as CSV: a row for one thread, two, and so on up to P. `slack`, `greedy`,
/// `curve`, `whatif`, `show` and `certify` write what the commands of `spanprof` of these names write,
/// and so do `replay` and `check` of a document. `graph` writes the recorded graph. `account` reads a
/// document of a text and the times of a run of it, and writes where the time of the run's threads
/// went; `places` one of a text and places of its segments, and writes the sums of each; `relaxation`
/// one of two texts, and writes whether the second waits for no more. `--help` and `--version` write
/// a text about the program. Other words, and numbers of threads but those from 1 to 1,024, are
/// refused. Nothing is read then.
///
/// An input with a line of more than [`LARGEST_LINE`] bytes is refused, and so is one of more than
/// [`LARGEST_TEXT`] bytes. Reads and writes that are interrupted are tried again, together at most
/// [`MOST_RETRIES`] times. Out of memory and a reader that fails have lines of their own. Where the
/// writer fails, takes no byte or is interrupted too often, what went out is a prefix of the text,
/// and the status is `Fault`.
///
/// The names are hashed under this key. No answer depends on it, but whoever knows it can make up a
/// text that takes time quadratic in its names.
pub fn command<H: AllocGlobal + Threads + Sync, R: Read, W: Write>(
    rt: &H,
    key: NameKey,
    words: &[String],
    reader: &mut Counted<R>,
    writer: &mut Counted<W>,
) -> Status
    requires reader { faults_of reader.old < 2 ^ 63 }
    requires writer { faults_of writer.old < 2 ^ 63 }

    ensures answers { EndsWith (IsReport (map string_bytes words.now)
        (R.remaining (inner_of reader.old)) (R.remaining (inner_of reader.new)))
        (counts_of reader.old reader.new)
        (W.contents (inner_of writer.old)) (W.contents (inner_of writer.new))
        (counts_of writer.old writer.new) result }
    ensures flushes { FlushesOnce (result ≢ Status.Fault) writer.old writer.new }

    // In every case.
    ensures reads_nothing { wants_text (large_request_of (map string_bytes words.now)) ≡ false
        → reader.new ≡ reader.old }
    ensures reads_about { IfSome (about_of (map string_bytes words.now)) (λ about.
        reader.new ≡ reader.old) }
    ensures reads_so_much { ConsumesAtMost (LARGEST_TEXT + 1) (R.remaining (inner_of reader.old))
        (R.remaining (inner_of reader.new)) }
{
    let mut retries = MOST_RETRIES;
    let made = prepare(rt, key, words, reader, &mut retries);
    finish(writer, made, retries)
}

/// Makes the report of the words and the text, or of words about the program.
fn prepare<H: AllocGlobal + Threads + Sync, R: Read>(
    rt: &H,
    key: NameKey,
    words: &[String],
    reader: &mut Counted<R>,
    retries: &mut u32,
) -> Result<Report, NoReport>
    requires { faults_of reader.old + retries.old < 2 ^ 64 - 1 }
    ensures report { IfOk result (λ report. IsReport (map string_bytes words.now)
        (R.remaining (inner_of reader.old)) (R.remaining (inner_of reader.new)) report) }
    ensures reads_nothing { wants_text (large_request_of (map string_bytes words.now)) ≡ false
        → reader.new ≡ reader.old }

    ensures reads_so_much { ConsumesAtMost (LARGEST_TEXT + 1) (R.remaining (inner_of reader.old))
        (R.remaining (inner_of reader.new)) }
    ensures reads_about { IfSome (about_of (map string_bytes words.now)) (λ about.
        reader.new ≡ reader.old) }
    ensures retries { SpendsRetries NoReport.ReadFault result (counts_of reader.old reader.new)
        retries.old retries.new }
{
    match read_about(words) {
        Some(about) => tell_known(rt.alloc(), about_text(about), Status::Done),
        None => prepare_of_text(rt, words, key, reader, retries),
    }
}

/// Makes the report of words for a text, and of the text.
fn prepare_of_text<H: AllocGlobal + Threads + Sync, R: Read>(
    rt: &H,
    words: &[String],
    key: NameKey,
    reader: &mut Counted<R>,
    retries: &mut u32,
) -> Result<Report, NoReport>
    requires { faults_of reader.old + retries.old < 2 ^ 64 - 1 }
    ensures report { IfOk result (λ report. IsReportOfText (map string_bytes words.now)
        (R.remaining (inner_of reader.old)) (R.remaining (inner_of reader.new)) report) }
    ensures reads_nothing { wants_text (large_request_of (map string_bytes words.now)) ≡ false
        → reader.new ≡ reader.old }

    ensures reads_so_much { ConsumesAtMost (LARGEST_TEXT + 1) (R.remaining (inner_of reader.old))
        (R.remaining (inner_of reader.new)) }
    ensures retries { SpendsRetries NoReport.ReadFault result (counts_of reader.old reader.new)
        retries.old retries.new }
{
    let alloc = rt.alloc();
    match read_large_words(alloc, words) {
        Ok(asked) => {
            if !is_in_range(&asked) {
                return tell_known(alloc, b"error: ThreadCount\n", Status::Refused);
            }
            answer_text(rt, key, &asked, reader, retries)
        }
        Err(WordsFault::WrongWords) => tell_known(alloc, b"error: wrong words\n", Status::Usage),
        Err(WordsFault::OutOfMemory) => Err(NoReport::OutOfMemory),
    }
}

fn is_in_range(asked: &LargeRequest) -> bool
    ensures { result ≡ is_in_range asked.now }
{
    match asked {
        LargeRequest::OfMeter(MeterRequest::Numbers) => true,
        LargeRequest::OfMeter(MeterRequest::Bounds { upto }) => is_thread_count(*upto),
        LargeRequest::OfTable(asked) => is_table_in_range(asked),
        LargeRequest::OfText(_) => true,
        LargeRequest::OfDocument(_) => true,
    }
}

fn is_table_in_range(asked: &TableRequest) -> bool
    ensures { result ≡ is_table_in_range asked.now }
{
    match asked {
        TableRequest::Slack => true,
        TableRequest::Greedy { threads } => is_thread_count(*threads),
        TableRequest::Curve { upto } => is_thread_count(*upto),
        TableRequest::WhatIf { changes: _ } => true,
        TableRequest::Graph => true,
    }
}

fn is_thread_count(threads: u32) -> bool
    ensures { result ≡ is_thread_count threads }
{
    1 <= threads && threads <= MOST_THREADS
}

/// What is asked of the input: a document is read whole, and of a text a meter keeps what is asked
/// for as it comes.
fn answer_text<H: AllocGlobal + Threads + Sync, R: Read>(
    rt: &H,
    key: NameKey,
    asked: &LargeRequest,
    reader: &mut Counted<R>,
    retries: &mut u32,
) -> Result<Report, NoReport>
    requires { faults_of reader.old + retries.old < 2 ^ 64 - 1 }
    ensures report { IfOk result (λ report. AnswersText asked.now (R.remaining (inner_of reader.old))
        (R.remaining (inner_of reader.new)) report) }

    ensures reads_so_much { ConsumesAtMost (LARGEST_TEXT + 1) (R.remaining (inner_of reader.old))
        (R.remaining (inner_of reader.new)) }
    ensures retries { SpendsRetries NoReport.ReadFault result (counts_of reader.old reader.new)
        retries.old retries.new }
{
    let alloc = rt.alloc();
    match asked {
        LargeRequest::OfDocument(asked) => answer_whole(alloc, key, *asked, reader, retries),
        LargeRequest::OfMeter(_) | LargeRequest::OfTable(_) | LargeRequest::OfText(_) => {
            let mut text = meter_for(alloc, key, asked)?;
            match take_input(reader, &mut text, retries) {
                Ok(()) => Ok(tell_taken(rt, alloc, asked, text)?),
                Err(InputFault::TooLong) => too_long(alloc),
                Err(InputFault::ReadFailed) => Err(NoReport::ReadFault),
                Err(InputFault::OutOfMemory) => Err(NoReport::OutOfMemory),
            }
        }
    }
}

/// A meter that keeps what is asked of a text.
fn meter_for(alloc: Global, key: NameKey, asked: &LargeRequest) -> Result<TextMeter, AllocFault>
    ensures taken { IfOk result (λ made. HasTaken [] made) }
    ensures keeps { IfOk result (KeepsFor asked.now) }
{
    match asked {
        LargeRequest::OfTable(_) => TextMeter::with_rows(alloc, key),
        LargeRequest::OfText(TextRequest::Show) => TextMeter::with_text(alloc, key),
        LargeRequest::OfText(TextRequest::Certify) => TextMeter::with_rows_and_text(alloc, key),
        LargeRequest::OfMeter(_) | LargeRequest::OfDocument(_) => Ok(TextMeter::new(alloc, key)),
    }
}

/// The report on a text that such a meter has taken.
fn tell_taken(
    rt: &(impl Threads + Sync),
    alloc: Global,
    asked: &LargeRequest,
    text: TextMeter,
) -> Result<Report, AllocFault>
    requires text { IsOfText asked.now }
    requires can { CanTakeBytes [] text }
    requires keeps { KeepsFor asked.now text }
    ensures { IfOk result (λ report. (bytes : List ℕ) → HasTaken bytes text
        → Answers asked.now bytes report) }
{
    match asked {
        LargeRequest::OfMeter(asked) => answer_meter(alloc, *asked, text),
        LargeRequest::OfTable(asked) => answer_table(rt, alloc, asked, text),
        LargeRequest::OfText(asked) => answer_printed(alloc, *asked, text),
        LargeRequest::OfDocument(_) => unreachable!(),
    }
}

/// The report on a document, which is read whole.
fn answer_whole<R: Read>(
    alloc: Global,
    key: NameKey,
    asked: DocumentRequest,
    reader: &mut Counted<R>,
    retries: &mut u32,
) -> Result<Report, NoReport>
    requires { faults_of reader.old + retries.old < 2 ^ 64 - 1 }
    ensures report { IfOk result (λ report. AnswersText (OfDocument asked) (R.remaining (inner_of reader.old))
        (R.remaining (inner_of reader.new)) report) }

    ensures reads_so_much { ConsumesAtMost (LARGEST_TEXT + 1) (R.remaining (inner_of reader.old))
        (R.remaining (inner_of reader.new)) }
    ensures retries { SpendsRetries NoReport.ReadFault result (counts_of reader.old reader.new)
        retries.old retries.new }
{
    match read_document(alloc, reader, retries) {
        Ok(document) => Ok(answer_document(alloc, key, asked, document.as_slice())?),
        Err(InputFault::TooLong) => too_long(alloc),
        Err(InputFault::ReadFailed) => Err(NoReport::ReadFault),
        Err(InputFault::OutOfMemory) => Err(NoReport::OutOfMemory),
    }
}

fn too_long(alloc: Global) -> Result<Report, NoReport>
    ensures says { IfOk result (λ report. report ≡ input_too_long) }
    ensures memory { result ≢ Err NoReport.ReadFault }
{
    tell_known(alloc, b"error: input too long\n", Status::Refused)
}

/// A text that is known beforehand.
fn tell_known(alloc: Global, text: &[u8], status: Status) -> Result<Report, NoReport>
    ensures says { IfOk result (λ report. report ≡ record { text = text.now; status = status }) }
    ensures memory { result ≢ Err NoReport.ReadFault }
{
    Ok(Report::of_line(alloc, text, status)?)
}
