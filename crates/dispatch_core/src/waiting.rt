//! How many predecessors each segment waits for, and which segments a finish frees.
ghost use Rattle.std.specs.Prelude.{ℕ, ◌≡◌, ◌<◌, Some, length, slice_get, Contains, IfOk, IsTrue, ◌↔◌};
ghost use Rattle.std.specs.List.Sorted.{IsStrictlyIncreasing};
ghost use Rattle.depend_table.specs.Lists.{Lists};
ghost use Rattle.open_segments.specs.Counters.{AreLowered, IsCounted};

use open_segments::picked::push_if;
use std::alloc::Global;
use task_program::AllocFault;

/// Those of the segments that wait for one more, in their order.
pub fn freed(alloc: Global, counts: &[u32], segments: &[u32]) -> Result<Vec<u32>, AllocFault>
    requires known { (t : ℕ) → Contains segments.now t → t < length counts.now }
    requires ascending { IsStrictlyIncreasing segments.now }
    ensures { IfOk result (λ ready.
        Lists (λ t. Contains segments.now t × (slice_get counts.now t ≡ Some 1)) ready.items) }
{
    let mut ready = Vec::new(alloc);
    for segment in segments {
        push_if(&mut ready, *segment, waits_for(counts, *segment, 1))?;
    }
    Ok(ready)
}

/// Whether the segment waits for so many.
pub fn waits_for(counts: &[u32], segment: u32, number: u32) -> bool
    requires { segment < length counts.now }
    ensures { IsTrue result ↔ (slice_get counts.now segment ≡ Some number) }
{
    counts[segment as usize] == number
}

/// Lowers the count of each of the segments.
pub fn lower(counts: &mut Vec<u32>, segments: &[u32])
    requires counted { (t : ℕ) → Contains segments.now t → IsCounted counts.old.items t }
    requires ascending { IsStrictlyIncreasing segments.now }
    ensures { AreLowered counts.old.items (Contains segments.now) counts.new.items }
{
    for segment in segments {
        counts[*segment as usize] -= 1;
    }
}
