//! Whether two programs have the same segments.
ghost use Rattle.std.specs.Prelude.{◌≡◌, ◌↔◌, IsTrue, MatchOption, length};
ghost use Rattle.task_segments.specs.Precedence.{IsSegment};
ghost use Rattle.relaxations.specs.Relaxation.{AreSameSegments, IsSameSegment};
ghost use Rattle.relaxations.specs.Verdicts.{IsOtherSegment};

use task_segments::table::BoundedTable;

/// The first segment that is another in the new program.
pub(crate) fn other_segment<const SEGMENTS: u32, const TASKS: u32>(
    old: &BoundedTable<SEGMENTS, TASKS>,
    new: &BoundedTable<SEGMENTS, TASKS>,
) -> Option<u32>
    requires { length new.now.segments ≡ length old.now.segments }
    ensures { MatchOption result (AreSameSegments old.now new.now)
        (IsOtherSegment old.now new.now) }
{
    for s in 0..old.len() {
        if !is_same(old, new, s) {
            return Some(s);
        }
    }
    None
}

fn is_same<const SEGMENTS: u32, const TASKS: u32>(
    old: &BoundedTable<SEGMENTS, TASKS>,
    new: &BoundedTable<SEGMENTS, TASKS>,
    s: u32,
) -> bool
    requires old { IsSegment old.now s }
    requires new { IsSegment new.now s }
    ensures { IsTrue result ↔ IsSameSegment old.now new.now s }
{
    new.task_of(s) == old.task_of(s) && new.index(s) == old.index(s) && new.cost(s) == old.cost(s)
}
