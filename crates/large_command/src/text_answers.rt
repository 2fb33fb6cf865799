//! What the program answers where it writes the canonical text of a text.
ghost use Rattle.std.specs.Prelude.{◌≡◌, [], IfOk, IfSome, List, ℕ};
ghost use Rattle.command_words.specs.declared.large.LargeRequest.TheVariants.{OfText};
ghost use Rattle.large_text.specs.Streamed.{CanTakeBytes, HasTaken, KeepsText};
ghost use Rattle.command_words.specs.declared.large.TextRequest.TheVariants.{Certify};
ghost use Rattle.task_program.specs.Canonical.{canonical_text};
ghost use Rattle.task_program.specs.ProgramMarks.{ProgramMarks};
ghost use Rattle.task_segments.specs.Table.{table_of};
ghost use Rattle.large_command.specs.LargeReports.{Answers};
ghost use Rattle.large_command.specs.TextReports.{TellsText};

use crate::meter_answers::text_refusal;
use command_words::large::TextRequest;
use large_text::TextMeter;
use spanprof_command::{Report, Status, tell_certificate};
use std::alloc::Global;
use task_program::AllocFault;
use task_program::fault::ReadKind;
use task_segments::table::LargeTable;

/// What is written of a text that a meter has taken, or the line of its first fault.
pub(crate) fn answer_printed(
    alloc: Global,
    asked: TextRequest,
    text: TextMeter,
) -> Result<Report, AllocFault>
    requires can { CanTakeBytes [] text }
    requires keeps { KeepsText text }
    ensures { IfOk result (λ report. (bytes : List ℕ) → HasTaken bytes text
        → Answers (OfText asked) bytes report) }
{
    match text.finish_text() {
        Ok((written, table)) => match written {
            Some(written) => tell_printed(alloc, asked, written, table),
            None => unreachable!(),
        },
        Err(fault) => {
            if fault.kind == ReadKind::OutOfMemory {
                return Err(AllocFault);
            }
            text_refusal(alloc, fault)
        }
    }
}

/// What is written with the canonical text of a program, by its table, where that is needed.
fn tell_printed(
    alloc: Global,
    asked: TextRequest,
    written: Vec<u8>,
    table: Option<LargeTable>,
) -> Result<Report, AllocFault>
    ensures { IfOk result (λ report. (program : ProgramMarks)
        → written.items ≡ canonical_text program
        → IfSome table (λ table. table ≡ table_of program.marks)
        → TellsText asked program report) }
{
    match asked {
        TextRequest::Show => Ok(Report::new(written, Status::Done)),
        TextRequest::Certify => match table {
            Some(table) => certify(alloc, written, table),
            // There are more rows than are numbered.
            None => Err(AllocFault),
        },
    }
}

fn certify(alloc: Global, written: Vec<u8>, table: LargeTable) -> Result<Report, AllocFault>
    ensures { IfOk result (λ report. (program : ProgramMarks)
        → written.items ≡ canonical_text program
        → table ≡ table_of program.marks
        → TellsText Certify program report) }
{
    // Does nothing when it runs: its clauses say how many rows there are at most.
    task_segments::laws::within_rows(&table);
    tell_certificate(alloc, written, table)
}
