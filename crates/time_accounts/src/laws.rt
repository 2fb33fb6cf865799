//! Laws of every legal timed run, whatever runtime it is of. Their functions do nothing when they
//! run.
ghost use Rattle.task_segments.specs.Precedence.{MustPrecede};
ghost use Rattle.dispatch_core.specs.Graph.{IsGraphOf};
ghost use Rattle.std.specs.Prelude.{◌↔◌, ℕ, ◌≡◌, ◌+◌, ◌*◌, ◌-◌, ◌<◌, ◌≤◌, List, length, sum, false};
ghost use Rattle.task_segments.specs.Schedule.{at, IsSpan, chain_sum};
ghost use Rattle.dispatch_core.specs.RecordedGraph.{IsGraph, Precedes, RecordedGraph};
ghost use Rattle.greedy_sim.specs.Greedy.{IsGreedy, IsLegalOn, ReadyBy};
ghost use Rattle.time_accounts.specs.TimedRun.{TimedRun, IsTimedRun, durations};
ghost use Rattle.time_accounts.specs.Shares.{running, ready, ready_moments, is_outside, shares_of};
ghost use Rattle.time_accounts.specs.BySegment.{delayed_by_segment, starved_by_segment};
ghost use Rattle.time_accounts.specs.OwnPath.{IsLastBefore, IsOwnPath, waits_on};

use task_segments::table::BoundedTable;

/// A timed run is a legal schedule of its durations, with at most p segments running at each
/// moment.
pub fn is_schedule()
    ensures { (graph : RecordedGraph) (p first last : ℕ) (run : TimedRun) → IsGraph graph
        → IsTimedRun (length graph.costs) (Precedes graph) p first last run
        → IsLegalOn (durations run) (Precedes graph) p run.begins }
{}

/// The four shares are the whole time of the threads. The busy one is the sum of the durations, and
/// the delayed and the starved one the sum of what counts at each segment.
pub fn shares_add_up()
    ensures whole { (graph : RecordedGraph) (p first last : ℕ) (run : TimedRun)
        → IsTimedRun (length graph.costs) (Precedes graph) p first last run
        → let shares = shares_of graph p first last run in
        shares.busy + shares.delayed + shares.starved + shares.outside ≡ p * (last - first) }
    ensures busy { (graph : RecordedGraph) (p first last : ℕ) (run : TimedRun)
        → IsTimedRun (length graph.costs) (Precedes graph) p first last run
        → (shares_of graph p first last run).busy ≡ sum (durations run) }
    ensures delayed { (graph : RecordedGraph) (p first last : ℕ) (run : TimedRun) → IsGraph graph
        → IsTimedRun (length graph.costs) (Precedes graph) p first last run
        → (shares_of graph p first last run).delayed
        ≡ sum (delayed_by_segment graph p first last run) }
    ensures starved { (graph : RecordedGraph) (p first last : ℕ) (run : TimedRun) → IsGraph graph
        → IsTimedRun (length graph.costs) (Precedes graph) p first last run
        → (shares_of graph p first last run).starved
        ≡ sum (starved_by_segment graph p first last run) }
{}

/// Segment 0 begins first. So a moment is outside where segment 0 has not begun or all have ended.
pub fn first_begins()
    ensures { (graph : RecordedGraph) (p first last s : ℕ) (run : TimedRun) → IsGraph graph
        → IsTimedRun (length graph.costs) (Precedes graph) p first last run
        → s < length graph.costs → at run.begins 0 ≤ at run.begins s }
{}

/// Where nothing runs and no segment is ready, no segment has begun or all have ended.
pub fn some_runs_or_is_ready()
    ensures { (graph : RecordedGraph) (p first last m : ℕ) (run : TimedRun) → IsGraph graph
        → IsTimedRun (length graph.costs) (Precedes graph) p first last run
        → is_outside run m ≡ false → 1 ≤ running run m + ready graph run m }
{}

/// No legal run, of whatever runtime, starves its threads by more than `(p - 1) * span`, for the
/// span of its durations.
pub fn starved_at_most()
    ensures { (graph : RecordedGraph) (p first last span : ℕ) (run : TimedRun) → IsGraph graph
        → IsTimedRun (length graph.costs) (Precedes graph) p first last run
        → IsSpan (durations run) (Precedes graph) span
        → (shares_of graph p first last run).starved ≤ (p - 1) * span }
{}

/// So each legal run on p threads lasts a T with
/// `p * T <= work + (p - 1) * span + delayed + outside`, for its durations as costs.
pub fn lasts_at_most()
    ensures { (graph : RecordedGraph) (p first last span : ℕ) (run : TimedRun) → IsGraph graph
        → IsTimedRun (length graph.costs) (Precedes graph) p first last run
        → IsSpan (durations run) (Precedes graph) span
        → let shares = shares_of graph p first last run in
        p * (last - first)
        ≤ sum (durations run) + (p - 1) * span + shares.delayed + shares.outside }
{}

/// A greedy run delays no segment.
pub fn greedy_delays_none()
    ensures { (graph : RecordedGraph) (p first last : ℕ) (run : TimedRun) → IsGraph graph
        → IsTimedRun (length graph.costs) (Precedes graph) p first last run
        → IsGreedy (durations run) (Precedes graph) p run.begins
        → (shares_of graph p first last run).delayed ≡ 0 }
{}

/// Where nothing is delayed, all threads run while a segment is ready.
pub fn no_delay()
    ensures { (graph : RecordedGraph) (p first last m : ℕ) (run : TimedRun)
        → IsTimedRun (length graph.costs) (Precedes graph) p first last run
        → (shares_of graph p first last run).delayed ≡ 0 → first ≤ m → m < last
        → is_outside run m ≡ false → 1 ≤ ready graph run m → running run m ≡ p }
{}

/// The durations on the run's own path, with the waits on it, are the time from the begin of its
/// first member to the last end.
pub fn own_path_adds_up()
    ensures { (graph : RecordedGraph) (p first last : ℕ) (run : TimedRun) (path : List ℕ)
        → IsTimedRun (length graph.costs) (Precedes graph) p first last run
        → (own : IsOwnPath (length graph.costs) (Precedes graph) run path)
        → at run.begins own.first + chain_sum (durations run) path + waits_on run path
        ≡ at run.ends own.last }
{}

/// A run's own path begins with segment 0.
pub fn own_path_begins()
    ensures { (graph : RecordedGraph) (run : TimedRun) (path : List ℕ) → IsGraph graph
        → (own : IsOwnPath (length graph.costs) (Precedes graph) run path) → own.first ≡ 0 }
{}

/// A segment becomes ready when the predecessor that ends last has ended. So each wait on a run's own
/// path is how long its segment was ready before it began.
pub fn ready_after_last()
    ensures { (graph : RecordedGraph) (run : TimedRun) (s t : ℕ)
        → IsLastBefore (Precedes graph) run s t
        → at (ready_moments graph run) t ≡ at run.ends s }
{}

/// Each legal run has a path of its own.
pub fn some_own_path()
    ensures { (graph : RecordedGraph) (p first last : ℕ) (run : TimedRun) → IsGraph graph
        → IsTimedRun (length graph.costs) (Precedes graph) p first last run
        → (path : List ℕ) × IsOwnPath (length graph.costs) (Precedes graph) run path }
{}

/// A timed run is legal under a program's graph exactly where it is legal under all pairs of
/// segments of which the first must precede the second, though the graph keeps fewer. A segment is
/// ready by the graph exactly when it is ready by all pairs. So the bounds hold under all pairs too.
pub fn same_timed_runs<const SEGMENTS: u32, const TASKS: u32>(table: &BoundedTable<SEGMENTS, TASKS>)
    ensures legal { (graph : RecordedGraph) (n p first last : ℕ) (run : TimedRun)
        → IsGraphOf table.now graph
        → IsTimedRun n (MustPrecede table.now) p first last run
        ↔ IsTimedRun n (Precedes graph) p first last run }
    ensures ready { (graph : RecordedGraph) (n p first last s m : ℕ) (run : TimedRun)
        → IsGraphOf table.now graph → IsTimedRun n (Precedes graph) p first last run → s < n
        → ReadyBy (durations run) (MustPrecede table.now) run.begins s m
        ↔ ReadyBy (durations run) (Precedes graph) run.begins s m }
    ensures starved { (graph : RecordedGraph) (p first last span : ℕ) (run : TimedRun)
        → IsGraphOf table.now graph → IsGraph graph
        → IsTimedRun (length graph.costs) (Precedes graph) p first last run
        → IsSpan (durations run) (MustPrecede table.now) span
        → (shares_of graph p first last run).starved ≤ (p - 1) * span }
{
    task_segments::laws::goes_up(table);
    depend_table::laws::same_chains(table);
    dispatch_core::laws::same_schedules(table);
}
