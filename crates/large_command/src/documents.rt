//! What the program answers to a document.
ghost use Rattle.std.specs.Prelude.{◌≡◌, ◌-◌, ◌<◌, ◌^◌, IfOk, IfSome, length};
ghost use Rattle.std.specs.Option.{option_copied};
ghost use Rattle.command_words.specs.declared.large.LargeRequest.TheVariants.{OfDocument};
ghost use Rattle.large_text.specs.LargeTexts.{FitsText};
ghost use Rattle.spanprof_command.specs.Replaying.{bad_form};
ghost use Rattle.large_command.specs.DocumentReports.{TellsBehind, TellsRest};
ghost use Rattle.large_command.specs.LargeReports.{Answers};

use crate::meter_answers::text_refusal;
use command_words::large::DocumentRequest;
use large_documents::{read_table, tell_rest};
use spanprof_command::{Report, Status};
use std::alloc::Global;
use task_program::AllocFault;
use task_program::document::{Document, split_document};
use task_program::name_key::NameKey;
use task_segments::table::LargeTable;

/// What is asked of a document, or what is wrong with it. Its program's own fault comes first, then
/// `error: BadForm` where there is no divider, then what is wrong with what stands behind it.
pub(crate) fn answer_document(
    alloc: Global,
    key: NameKey,
    asked: DocumentRequest,
    document: &[u8],
) -> Result<Report, AllocFault>
    requires { FitsText document.now }
    ensures { IfOk result (λ report. Answers (OfDocument asked) document.now report) }
{
    let Document { program, rest } = split_document(document);
    match read_table(alloc, key, program)? {
        Ok(table) => tell_document(alloc, key, asked, program, rest, table),
        Err(fault) => text_refusal(alloc, fault),
    }
}

/// The report on a program with this text and this table, and on what stands behind it.
fn tell_document(
    alloc: Global,
    key: NameKey,
    asked: DocumentRequest,
    program: &[u8],
    rest: Option<&[u8]>,
    table: LargeTable,
) -> Result<Report, AllocFault>
    requires program { length program.now < 2 ^ 63 - 1 }
    requires rest { IfSome (option_copied rest) FitsText }
    ensures { IfOk result (λ report.
        TellsBehind asked program.now (option_copied rest.entry) table report) }
{
    match rest {
        Some(rest) => tell_behind(alloc, key, asked, program, rest, table),
        None => bad_form(alloc),
    }
}

fn bad_form(alloc: Global) -> Result<Report, AllocFault>
    ensures { IfOk result (λ report. report ≡ bad_form) }
{
    Report::of_line(alloc, b"error: BadForm\n", Status::Refused)
}

fn tell_behind(
    alloc: Global,
    key: NameKey,
    asked: DocumentRequest,
    program: &[u8],
    rest: &[u8],
    table: LargeTable,
) -> Result<Report, AllocFault>
    requires program { length program.now < 2 ^ 63 - 1 }
    requires rest { FitsText rest.now }
    ensures { IfOk result (λ report. TellsRest asked program.now rest.now table report) }
{
    // Does nothing when it runs: its clauses say how many rows there are at most.
    task_segments::laws::within_rows(&table);
    tell_rest(alloc, key, asked, program, rest, table)
}
