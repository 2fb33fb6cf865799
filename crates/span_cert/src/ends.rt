//! The ends of segments.
ghost use Rattle.std.specs.Prelude.{◌≡◌, IfOk, length};
ghost use Rattle.span_cert.specs.Claims.{moments_of_starts};
ghost use Rattle.span_cert.specs.BrokenPairs.{AreEnds};

use crate::claim::Start;
use std::alloc::Global;
use task_program::AllocFault;
use task_segments::table::BoundedTable;

/// The end of each segment by its start, or the greatest number where it lies above. The error is
/// out of memory.
pub(crate) fn ends_of<const SEGMENTS: u32, const TASKS: u32>(
    alloc: Global,
    table: &BoundedTable<SEGMENTS, TASKS>,
    starts: &[Start],
) -> Result<Vec<u64>, AllocFault>
    requires each { length starts.now ≡ length table.now.segments }
    ensures { IfOk result (λ ends. AreEnds table.now (moments_of_starts starts.now) ends.items) }
{
    let mut ends = Vec::with_capacity(alloc, starts.len())?;
    for s in 0..table.len() {
        ends.push(starts[s as usize].moment.saturating_add(table.cost(s)))?;
    }
    Ok(ends)
}
