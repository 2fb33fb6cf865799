//! Lists of the caller's, filled with a number for each segment.
ghost use Rattle.std.specs.Prelude.{ℕ, ◌≡◌, ◌≢◌, ◌≤◌, All, Contains, length, map, true, false, take};
ghost use Rattle.task_segments.specs.Table.{costs_of};
ghost use Rattle.task_segments.specs.declared.table.Segment.{Segment};
ghost use Rattle.spanprof_c.specs.Told.{StandAtHead, thread_number};

use greedy_sim::greedy::GreedyRun;
use span_analysis::analysis::Analysis;
use task_segments::table::BoundedTable;

/// Whether one of these lengths is not the count.
pub(crate) fn some_other(count: u32, lengths: &[usize]) -> bool
    ensures some { result ≡ true → (n : ℕ) × Contains lengths.now n × (n ≢ count) }
    ensures none { result ≡ false → All (λ n. n ≡ count) lengths.now }
{
    for one in lengths {
        if *one != count as usize {
            return true;
        }
    }
    false
}

/// Fills a list with the tasks of the segments.
pub(crate) fn put_tasks<const SEGMENTS: u32, const TASKS: u32>(
    table: &BoundedTable<SEGMENTS, TASKS>,
    tasks: &mut [u32],
)
    requires { length tasks.old ≡ length table.now.segments }
    ensures { tasks.new ≡ map (λ (row : Segment). row.task) table.now.segments }
{
    for segment in 0..table.len() {
        tasks[segment as usize] = table.task_of(segment);
    }
}

/// Fills a list with the costs of the segments.
pub(crate) fn put_costs<const SEGMENTS: u32, const TASKS: u32>(
    table: &BoundedTable<SEGMENTS, TASKS>,
    costs: &mut [u64],
)
    requires { length costs.old ≡ length table.now.segments }
    ensures { costs.new ≡ costs_of table.now }
{
    for segment in 0..table.len() {
        costs[segment as usize] = table.cost(segment);
    }
}

/// Fills a list with the slacks of the segments.
pub(crate) fn put_slacks(found: &Analysis, slacks: &mut [u64])
    requires few { length slacks.old ≤ 4294967295 }
    requires each { length slacks.old ≡ length found.now.slacks }
    ensures { slacks.new ≡ found.now.slacks }
{
    for segment in 0..slacks.len() as u32 {
        slacks[segment as usize] = found.slack(segment);
    }
}

/// Puts a path at the head of a list, and leaves what stands behind it.
pub(crate) fn put_path(chain: &[u32], path: &mut [u32])
    requires { length chain.now ≤ length path.old }
    ensures head { take (length chain.now) path.new ≡ chain.now }
    ensures there { StandAtHead (length chain.now) path.old path.new }
{
    path[..chain.len()].copy_from_slice(chain);
}

/// Fills lists with the starts and the threads of a greedy run.
pub(crate) fn put_run(run: &GreedyRun, starts: &mut [u64], threads: &mut [u32])
    requires few { length starts.old ≤ 4294967295 }
    requires each_start { length starts.old ≡ length run.now.starts }
    requires each_thread { length threads.old ≡ length run.now.threads }
    requires both { length starts.old ≡ length threads.old }
    ensures starts { starts.new ≡ run.now.starts }
    ensures threads { threads.new ≡ map thread_number run.now.threads }
{
    for segment in 0..starts.len() as u32 {
        starts[segment as usize] = run.start(segment);
        threads[segment as usize] = run.thread(segment).unwrap_or(u32::MAX);
    }
}
