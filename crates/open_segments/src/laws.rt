//! What holds of every table, in one fact.
ghost use Rattle.open_segments.specs.Facts.{IsSoundTable};

use task_segments::table::BoundedTable;

/// A table keeps all that the steps of a run ask of it.
pub fn serves_runs<const SEGMENTS: u32, const TASKS: u32>(table: &BoundedTable<SEGMENTS, TASKS>)
    ensures { IsSoundTable table.now }
{
    task_segments::laws::goes_up(table);
    task_segments::laws::nests(table);
    task_segments::laws::opens_after_another(table);
    task_segments::laws::within_rows(table);
    depend_table::laws::same_chains(table);
    task_segments::laws::reads_in_place(table);
}
