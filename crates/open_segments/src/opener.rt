//! What opens a segment.
ghost use Rattle.std.specs.Prelude.{ℕ, Some, None, ◌≡◌, ◌↔◌, ◌⊎◌};
ghost use Rattle.task_segments.specs.Precedence.{Continues, Creation, IsSegment};

use task_segments::table::{BoundedTable, Closing};

/// The segment by whose finish a segment opens: the one before it in its task, or the one that
/// creates its task. The first segment of the program has none.
pub fn opener<const SEGMENTS: u32, const TASKS: u32>(
    table: &BoundedTable<SEGMENTS, TASKS>,
    segment: u32,
) -> Option<u32>
    requires { IsSegment table.now segment }
    ensures some { (s : ℕ)
        → (result ≡ Some s) ↔ (Continues table.now s segment ⊎ Creation table.now s segment) }
    ensures none { (result ≡ None) ↔ (segment ≡ 0) }
{
    task_segments::laws::reads_in_place(table);
    task_segments::laws::opens_after_another(table);
    if segment == 0 {
        return None;
    }
    let before = segment - 1;
    match table.closing(before) {
        Closing::EndsTask => table.creator(table.task_of(before)),
        _ => Some(before),
    }
}
