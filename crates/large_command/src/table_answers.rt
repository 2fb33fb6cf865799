//! What the program answers where it takes the table of a text.
ghost use Rattle.std.specs.Prelude.{[], IfOk, List, ℕ};
ghost use Rattle.command_words.specs.declared.large.LargeRequest.TheVariants.{OfTable};
ghost use Rattle.large_text.specs.Streamed.{CanTakeBytes, HasTaken};
ghost use Rattle.large_command.specs.LargeReports.{Answers};
ghost use Rattle.large_command.specs.TableReports.{SaysOfTable, TellsTable};

use crate::graph_rows::tell_graph;
use crate::meter_answers::table_or_refusal;
use command_words::large::TableRequest;
use large_text::TextMeter;
use spanprof_command::{Report, tell_curve, tell_greedy, tell_slacks, try_changes};
use std::alloc::Global;
use std::thread::Threads;
use task_program::AllocFault;
use task_segments::table::LargeTable;

/// What is asked of the table of a text that a meter has taken, or the line of its first fault.
pub(crate) fn answer_table(
    rt: &(impl Threads + Sync),
    alloc: Global,
    asked: &TableRequest,
    text: TextMeter,
) -> Result<Report, AllocFault>
    requires { CanTakeBytes [] text }
    ensures { IfOk result (λ report. (bytes : List ℕ) → HasTaken bytes text
        → Answers (OfTable asked.now) bytes report) }
{
    match table_or_refusal(alloc, text)? {
        Ok(table) => tell_table(rt, alloc, asked, table),
        Err(report) => Ok(report),
    }
}

fn tell_table(
    rt: &(impl Threads + Sync),
    alloc: Global,
    asked: &TableRequest,
    table: LargeTable,
) -> Result<Report, AllocFault>
    ensures { IfOk result (λ report. TellsTable asked.now table report) }
{
    // Does nothing when it runs: its clauses say how many rows there are at most.
    task_segments::laws::within_rows(&table);
    say_of_table(rt, alloc, asked, table)
}

/// What is asked of a table.
fn say_of_table(
    rt: &(impl Threads + Sync),
    alloc: Global,
    asked: &TableRequest,
    table: LargeTable,
) -> Result<Report, AllocFault>
    ensures { IfOk result (λ report. SaysOfTable asked.now table report) }
{
    match asked {
        TableRequest::Slack => tell_slacks(alloc, table),
        TableRequest::Greedy { threads } => tell_greedy(alloc, *threads, table),
        TableRequest::Curve { upto } => tell_curve(rt, alloc, *upto, table),
        TableRequest::WhatIf { changes } => try_changes(alloc, changes.as_slice(), table),
        TableRequest::Graph => tell_graph(alloc, table),
    }
}
