//! What is asked of a document whose program has been read.
ghost use Rattle.std.specs.Prelude.{◌-◌, ◌<◌, ◌^◌, IfOk, length};
ghost use Rattle.large_text.specs.LargeTexts.{FitsText};
ghost use Rattle.large_documents.specs.RestReports.{SaysOfRest};

use crate::accounts::tell_account;
use crate::changed::tell_change;
use crate::listed::tell_listed;
use crate::places::tell_places;
use command_words::large::DocumentRequest;
use spanprof_command::{Report, tell_claim, tell_replay};
use std::alloc::Global;
use task_program::AllocFault;
use task_program::name_key::NameKey;
use task_segments::table::LargeTable;

/// The most events that a replay document of any size has: a start and a finish for each segment that a
/// table can have.
pub const MOST_LARGE_EVENTS: usize = 8_000_000_000;

/// What is asked of a document: of the table of its program, whose text it is, and of the rest, which
/// stands behind the divider. Names of a second text are hashed under this key. The table is dropped
/// as soon as it serves no more. The one error is that memory ran out.
pub fn tell_rest(
    alloc: Global,
    key: NameKey,
    asked: DocumentRequest,
    program: &[u8],
    rest: &[u8],
    table: LargeTable,
) -> Result<Report, AllocFault>
    requires program { length program.now < 2 ^ 63 - 1 }
    requires rest { FitsText rest.now }
    ensures { IfOk result (λ report. SaysOfRest asked program.now rest.now table report) }
{
    match asked {
        DocumentRequest::Account(asked) => tell_account(alloc, asked, program, rest, table),
        DocumentRequest::Replay => tell_replay(alloc, MOST_LARGE_EVENTS, Some(rest), table),
        DocumentRequest::Check => tell_claim(alloc, &table, rest),
        DocumentRequest::WhatIf => tell_listed(alloc, table, program, rest),
        DocumentRequest::Places => tell_places(alloc, program, rest, table),
        DocumentRequest::Relaxation => tell_change(alloc, key, program, rest, table),
    }
}
