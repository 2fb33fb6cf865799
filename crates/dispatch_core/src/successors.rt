//! The successors of each segment of a graph.
ghost use Rattle.std.specs.Prelude.{ℕ, ◌≡◌, ◌+◌, ◌++◌, ◌∷◌, ◌<◌, ◌^◌, [], length, slice_index_or, Contains};
ghost use Rattle.std.specs.Prelude.{IfOk};
ghost use Rattle.std.specs.List.Sorted.{IsStrictlyIncreasing};
ghost use Rattle.dispatch_core.specs.Successors.{AreSuccessors, AreCounted, times};

use crate::graph::Graph;
use open_segments::filling::Filling;
use open_segments::flat_lists::FlatLists;
use std::alloc::Global;
use task_program::AllocFault;

/// For each segment those that it precedes, ascending. It fails only if memory runs out.
pub fn successors_of(alloc: Global, graph: &Graph) -> Result<FlatLists, AllocFault>
    ensures { IfOk result (AreSuccessors graph.now) }
{
    let counts = successor_counts(alloc, graph)?;
    let mut lists = Filling::with_room(alloc, &counts)?;
    for segment in 0..graph.len() {
        enter(&mut lists, graph.preds(segment), segment);
    }
    Ok(lists.into_lists())
}

/// How many segments each segment precedes.
fn successor_counts(alloc: Global, graph: &Graph) -> Result<Vec<u32>, AllocFault>
    ensures { IfOk result (λ counts. AreCounted graph.now (length graph.now.costs) counts.items) }
{
    let count = graph.len();
    let mut counts = vec![in alloc; 0u32; count as usize]?;
    for segment in 0..count {
        count_each(&mut counts, graph.preds(segment));
    }
    Ok(counts)
}

/// Counts one more at each of these places.
fn count_each(counts: &mut [u32], places: &[u32])
    requires inside { (r : ℕ) → Contains places.now r → r < length counts.old }
    requires once { IsStrictlyIncreasing places.now }
    requires few { (r : ℕ) → slice_index_or counts.old r 0 + 1 < 2 ^ 32 }
    ensures each { length counts.new ≡ length counts.old }
    ensures counted { (r : ℕ) → r < length counts.old → slice_index_or counts.new r 0
        ≡ slice_index_or counts.old r 0 + times r places.now }
{
    for place in places {
        counts[*place as usize] += 1;
    }
}

/// Puts a number at the end of the lists at these places, which have room for it.
fn enter(lists: &mut Filling, places: &[u32], number: u32)
    requires inside { (r : ℕ) → Contains places.now r → r < length lists.old.lists }
    requires once { IsStrictlyIncreasing places.now }
    requires room { (r : ℕ) → Contains places.now r
        → length (slice_index_or lists.old.lists r []) < slice_index_or lists.old.rooms r 0 }
    requires few { (r : ℕ) → slice_index_or lists.old.rooms r 0 < 2 ^ 32 }
    ensures rooms { lists.new.rooms ≡ lists.old.rooms }
    ensures each { length lists.new.lists ≡ length lists.old.lists }
    ensures entered { (r : ℕ) → Contains places.now r → slice_index_or lists.new.lists r []
        ≡ slice_index_or lists.old.lists r [] ++ number ∷ [] }
    ensures others { (r : ℕ) → ¬ Contains places.now r → slice_index_or lists.new.lists r []
        ≡ slice_index_or lists.old.lists r [] }
{
    for place in places {
        lists.add(*place, number);
    }
}
