//! Replaying the log of a run, and reading its record.
ghost use Rattle.std.specs.Prelude.{IfErr, IfOk, MatchOption, OnOk};
ghost use Rattle.depend_table.specs.KeptEdges.{IsKeptEdge};
ghost use Rattle.depend_table.specs.Lists.{Lists};
ghost use Rattle.dispatch_core.specs.Replays.{RefusesReplay};
ghost use Rattle.dispatch_core.specs.Run.{IsLegalRun, IsOpen};

use dispatch_core::dispatch::Core;
use dispatch_core::event::Event;
use dispatch_core::kernel::MixKernel;
use dispatch_core::replay::{ReplayFault, replay};
use std::alloc::Global;
use task_program::AllocFault;
use task_segments::table::SegTable;

/// What a run recorded of a segment: its predecessors by kept edges, ascending, or none if the
/// segment is not open. The table is used up in every case.
pub fn record_of(
    alloc: Global,
    table: SegTable,
    events: &[Event],
    segment: u32,
) -> Result<Option<Vec<u32>>, ReplayFault>
    ensures legal { OnOk result (IsLegalRun table events.now) }
    ensures record { IfOk result (λ found. MatchOption found
        (¬ IsOpen table events.now segment)
        (λ preds. IsOpen table events.now segment
        × Lists (λ before. IsKeptEdge table before segment) preds.items)) }
    ensures refused { IfErr result (RefusesReplay table events.now) }
{
    match replay(alloc, table, events) {
        Ok(core) => match copy_of_record(alloc, &core, segment) {
            Ok(found) => Ok(found),
            Err(_) => Err(ReplayFault::OutOfMemory),
        },
        Err((fault, _)) => Err(fault),
    }
}

/// A copy of what a core has recorded of a segment.
fn copy_of_record(
    alloc: Global,
    core: &Core<MixKernel>,
    segment: u32,
) -> Result<Option<Vec<u32>>, AllocFault>
    ensures { IfOk result (λ found. MatchOption found
        (¬ IsOpen core.now.table core.now.history segment)
        (λ preds. IsOpen core.now.table core.now.history segment
        × Lists (λ before. IsKeptEdge core.now.table before segment) preds.items)) }
{
    match core.preds_of(segment) {
        Some(preds) => Ok(Some(preds.to_vec(alloc)?)),
        None => Ok(None),
    }
}
