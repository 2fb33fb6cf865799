//! Whether a program waits for no more than another.
ghost use Rattle.std.specs.Prelude.{◌≡◌, IfOk, MatchOption, length, ℕ};
ghost use Rattle.task_segments.specs.Precedence.{IsSegment};
ghost use Rattle.relaxations.specs.PairLists.{AllArePairs, EachIsPair, IsAdded, IsNoPair, IsRow};
ghost use Rattle.relaxations.specs.PairLists.{list_at};
ghost use Rattle.relaxations.specs.Verdicts.{IsVerdict};

use crate::segments::other_segment;
use crate::verdict::Verdict;
use open_segments::flat_lists::FlatLists;
use open_segments::predecessors::all_predecessors;
use std::alloc::Global;
use task_program::AllocFault;
use task_segments::table::BoundedTable;

/// Whether the new program is a relaxation of the old one: it has the same segments, and each pair
/// that it keeps is one that must precede in the old program too. It asks one question about the old
/// program for each kept pair of the new one.
pub fn judge<const SEGMENTS: u32, const TASKS: u32>(
    alloc: Global,
    old: &BoundedTable<SEGMENTS, TASKS>,
    new: &BoundedTable<SEGMENTS, TASKS>,
) -> Result<Verdict, AllocFault>
    ensures { IfOk result (IsVerdict old.now new.now) }
{
    if new.len() != old.len() {
        return Ok(Verdict::WrongCount);
    }
    if let Some(s) = other_segment(old, new) {
        return Ok(Verdict::OtherSegment(s));
    }
    open_segments::laws::serves_runs(new);
    let lists = all_predecessors(alloc, new)?;
    match added_pair(old, &lists) {
        Some((s, t)) => Ok(Verdict::NewPair { s, t }),
        None => Ok(Verdict::WaitsForNoMore),
    }
}

/// The first pair of the lists that is none of the table.
fn added_pair<const SEGMENTS: u32, const TASKS: u32>(
    table: &BoundedTable<SEGMENTS, TASKS>,
    lists: &FlatLists,
) -> Option<(u32, u32)>
    requires each { length lists.now ≡ length table.now.segments }
    requires rows { (t : ℕ) → IsRow (list_at lists.now t) t }
    ensures { MatchOption result (AllArePairs table.now lists.now)
        (λ pair. IsAdded table.now lists.now pair.0 pair.1) }
{
    for t in 0..table.len() {
        if let Some(s) = no_pair(table, lists.list(t), t) {
            return Some((s, t));
        }
    }
    None
}

/// The first of these segments for which t does not have to wait.
fn no_pair<const SEGMENTS: u32, const TASKS: u32>(
    table: &BoundedTable<SEGMENTS, TASKS>,
    segments: &[u32],
    t: u32,
) -> Option<u32>
    requires to { IsSegment table.now t }
    requires row { IsRow segments.now t }
    ensures { MatchOption result (EachIsPair table.now segments.now t)
        (IsNoPair table.now segments.now t) }
{
    for s in segments {
        if !table.must_precede(*s, t) {
            return Some(*s);
        }
    }
    None
}
