//! The report on a program and a list of changes of costs.
ghost use Rattle.std.specs.Prelude.{◌≡◌, IfOk};
ghost use Rattle.large_documents.specs.ListReports.{SaysOfList, TellsFault, word_of};

use crate::change_list::{ListFault, WrongLine, read_list};
use crate::time_refusals::{at_line, count_lines};
use dispatch_core::graph::graph_of;
use spanprof_command::{Report, try_on_graph};
use std::alloc::Global;
use task_program::AllocFault;
use task_segments::table::LargeTable;
use whatif_costs::fault::WhatFault;

/// The report of `whatif` on a program with this table and this text and on the changes that stand in
/// the list behind it, or its first wrong line. The table is dropped once its graph is made.
pub(crate) fn tell_listed(
    alloc: Global,
    table: LargeTable,
    program: &[u8],
    list: &[u8],
) -> Result<Report, AllocFault>
    ensures { IfOk result (λ report. SaysOfList program.now list.now table report) }
{
    depend_table::laws::kept_schedules(&table);
    let graph = graph_of(alloc, &table)?;
    drop(table);
    match read_list(alloc, &graph, list) {
        Ok(changes) => try_on_graph(alloc, changes.as_slice(), graph),
        Err(fault) => list_refused(alloc, program, fault),
    }
}

/// Why a list is refused that stands behind a program of this text.
fn list_refused(alloc: Global, program: &[u8], fault: ListFault) -> Result<Report, AllocFault>
    ensures { IfOk result (λ report. TellsFault program.now fault report) }
{
    match fault {
        ListFault::Wrong { line, why } => at_line(alloc, count_lines(program), line, word_of(why)),
        ListFault::OutOfMemory => Err(AllocFault),
    }
}

/// What is wrong with a line, as error lines have it.
fn word_of(why: WrongLine) -> &'static str
    ensures { result.now ≡ word_of why }
{
    match why {
        WrongLine::BadForm => "BadForm",
        WrongLine::Refused(WhatFault::UnknownSegment) => "UnknownSegment",
        WrongLine::Refused(WhatFault::CostTooLarge) => "CostTooLarge",
        WrongLine::Refused(WhatFault::WorkTooLarge) => "WorkTooLarge",
        WrongLine::Refused(WhatFault::OutOfMemory) => "OutOfMemory",
    }
}
