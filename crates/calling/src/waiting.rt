//! What a segment has to wait for.
ghost use Rattle.std.specs.Prelude.{IfOk, ◌<◌, length};
ghost use Rattle.depend_table.specs.Lists.{Lists};
ghost use Rattle.task_segments.specs.Precedence.{MustPrecede};

use std::alloc::Global;
use task_program::AllocFault;
use task_segments::table::SegTable;

/// The segments that must precede a segment, ascending.
pub fn waits_of(alloc: Global, table: &SegTable, segment: u32) -> Result<Vec<u32>, AllocFault>
    requires { segment < length table.now.segments }
    ensures { IfOk result (λ waits.
        Lists (λ before. MustPrecede table.now before segment) waits.items) }
{
    task_segments::laws::goes_up(table);
    let mut waits = Vec::new(alloc);
    for before in 0..segment {
        if table.must_precede(before, segment) {
            waits.push(before)?;
        }
    }
    Ok(waits)
}
