//! What follows for schedules where one program is a relaxation of another.
ghost use Rattle.std.specs.Prelude.{ℕ, ◌≡◌, ◌≤◌, List};
ghost use Rattle.task_segments.specs.Precedence.{MustPrecede};
ghost use Rattle.task_segments.specs.Schedule.{IsJoined, IsLeastEnd, IsLegal, IsSpan};
ghost use Rattle.task_segments.specs.Table.{Table, costs_of};
ghost use Rattle.relaxations.specs.Relaxation.{IsRelaxation};

use task_segments::table::BoundedTable;

/// A relaxation has the old costs, and waits for nothing that does not follow from the old pairs. So
/// each legal schedule of the old program is one of the relaxation, and neither its span nor its
/// least end is greater.
pub fn no_more_to_wait_for<const SEGMENTS: u32, const TASKS: u32>(
    new: &BoundedTable<SEGMENTS, TASKS>,
)
    ensures costs { (old : Table) → IsRelaxation old new.now → costs_of new.now ≡ costs_of old }
    ensures joined { (old : Table) (s t : ℕ) → IsRelaxation old new.now
        → IsJoined (MustPrecede new.now) s t → IsJoined (MustPrecede old) s t }
    ensures legal { (old : Table) (costs starts : List ℕ) → IsRelaxation old new.now
        → IsLegal costs (MustPrecede old) starts → IsLegal costs (MustPrecede new.now) starts }
    ensures span { (old : Table) (costs : List ℕ) (before after : ℕ) → IsRelaxation old new.now
        → IsSpan costs (MustPrecede old) before → IsSpan costs (MustPrecede new.now) after
        → after ≤ before }
    ensures least_end { (old : Table) (costs : List ℕ) (before after : ℕ)
        → IsRelaxation old new.now → IsLeastEnd costs (MustPrecede old) before
        → IsLeastEnd costs (MustPrecede new.now) after → after ≤ before }
{
    depend_table::laws::kept_schedules(new);
    depend_table::laws::same_chains(new);
}
