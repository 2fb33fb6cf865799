//! Laws of runs.
ghost use Rattle.std.specs.Prelude.{ℕ, List, ◌≡◌, ◌<◌, ◌↔◌, ◌⊎◌, Some, slice_get};
ghost use Rattle.task_program.specs.ProgramMarks.{ProgramMarks};
ghost use Rattle.task_program.specs.Programs.{IsProgram};
ghost use Rattle.task_segments.specs.Table.{Table, table_of};
ghost use Rattle.task_segments.specs.Precedence.{IsSegment, MustPrecede};
ghost use Rattle.task_segments.specs.Schedule as schedule;
ghost use Rattle.depend_table.specs.KeptEdges.{IsKeptEdge};
ghost use Rattle.dispatch_core.specs.declared.event.Event.{Event};
ghost use Rattle.dispatch_core.specs.Graph.{IsGraphOf};
ghost use Rattle.dispatch_core.specs.RecordedGraph.{RecordedGraph, IsGraph, Precedes};
ghost use Rattle.dispatch_core.specs.Run.{Runs, IsFinished, IsReady, IsLegalRun, MayRun};
ghost use Rattle.dispatch_core.specs.Replays.{IsFirstRefused};
ghost use Rattle.dispatch_core.specs.Values.{IsValue, IsInput};
ghost use Rattle.dispatch_core.specs.declared.replay.ReplayRefusal.{ReplayRefusal};

use crate::dispatch::BoundedCore;
use crate::graph::Graph;
use crate::kernel::Kernel;
use task_segments::table::BoundedTable;

/// Where a run is not finished and nothing runs, some segment is ready.
pub fn never_stuck<const SEGMENTS: u32, const TASKS: u32>(table: &BoundedTable<SEGMENTS, TASKS>)
    ensures { (history : List Event) → ¬ IsFinished table.now history
        → ((worker s : ℕ) → ¬ Runs history worker s) → (s : ℕ) × IsReady table.now history s }
{
    open_segments::laws::serves_runs(table);
}

/// A segment has at most one value and at most one input, whatever run it is part of.
pub fn one_value()
    ensures values { (table : Table) (value_of : ℕ → ℕ → ℕ → ℕ) (s v w : ℕ)
        → IsValue table value_of s v → IsValue table value_of s w → v ≡ w }
    ensures inputs { (table : Table) (value_of : ℕ → ℕ → ℕ → ℕ) (s i j : ℕ)
        → IsInput table value_of s i → IsInput table value_of s j → i ≡ j }
{}

/// A program has one graph: two finished runs of it record the same.
pub fn one_graph()
    ensures { (table : Table) (one other : RecordedGraph) → IsGraphOf table one
        → IsGraphOf table other → one ≡ other }
{}

/// Each program has a graph.
pub fn some_graph()
    ensures { (program : ProgramMarks) → IsProgram program
        → (graph : RecordedGraph) × IsGraphOf (table_of program.marks) graph }
{}

/// Each segment of a program has a value, whatever the kernel.
pub fn some_value()
    ensures { (program : ProgramMarks) → IsProgram program → (value_of : ℕ → ℕ → ℕ → ℕ) (s : ℕ)
        → IsSegment (table_of program.marks) s
        → (value : ℕ) × IsValue (table_of program.marks) value_of s value }
{}

/// What runs in a legal history runs on one of [`MOST_WORKERS`](crate::event::MOST_WORKERS)
/// workers, is a segment, is open, and all that must precede it is finished.
pub fn what_runs<const SEGMENTS: u32, const TASKS: u32>(table: &BoundedTable<SEGMENTS, TASKS>)
    ensures { (history : List Event) (worker s : ℕ) → IsLegalRun table.now history
        → Runs history worker s → MayRun table.now history worker s }
{
    open_segments::laws::serves_runs(table);
}

/// What every graph keeps: it is within the limits, each predecessor has a smaller number than its
/// segment, and every segment but the first has one.
pub fn is_graph(graph: &Graph)
    ensures { IsGraph graph.now }
{
    graph.len();
}

/// The history of a core is legal.
pub fn legal_history<K: Kernel, const SEGMENTS: u32, const TASKS: u32>(
    core: &BoundedCore<K, SEGMENTS, TASKS>,
)
    ensures { IsLegalRun core.now.table core.now.history }
{
    core.history();
}

/// In a legal history each segment is started at most once and finished at most once.
pub fn each_once()
    ensures starts { (table : Table) (history : List Event) (i j one other s : ℕ)
        → IsLegalRun table history → slice_get history i ≡ Some (Event.Start one s)
        → slice_get history j ≡ Some (Event.Start other s) → i ≡ j }
    ensures finishes { (table : Table) (history : List Event) (i j one other s : ℕ)
        → IsLegalRun table history → slice_get history i ≡ Some (Event.Finish one s)
        → slice_get history j ≡ Some (Event.Finish other s) → i ≡ j }
{}

/// The edges of a program's graph are the kept edges, and it has the legal schedules, the span, the
/// least end, the least starts and the slacks of the whole relation.
pub fn same_schedules<const SEGMENTS: u32, const TASKS: u32>(table: &BoundedTable<SEGMENTS, TASKS>)
    ensures edges { (graph : RecordedGraph) (s t : ℕ) → IsGraphOf table.now graph
        → Precedes graph s t ↔ IsKeptEdge table.now s t }
    ensures legal { (graph : RecordedGraph) (starts : List ℕ) → IsGraphOf table.now graph
        → schedule.IsLegal graph.costs (MustPrecede table.now) starts
        ↔ schedule.IsLegal graph.costs (Precedes graph) starts }
    ensures span { (graph : RecordedGraph) (span : ℕ) → IsGraphOf table.now graph
        → schedule.IsSpan graph.costs (MustPrecede table.now) span
        ↔ schedule.IsSpan graph.costs (Precedes graph) span }
    ensures least_end { (graph : RecordedGraph) (end : ℕ) → IsGraphOf table.now graph
        → schedule.IsLeastEnd graph.costs (MustPrecede table.now) end
        ↔ schedule.IsLeastEnd graph.costs (Precedes graph) end }
    ensures least_start { (graph : RecordedGraph) (s start : ℕ) → IsGraphOf table.now graph
        → schedule.IsLeastStart graph.costs (MustPrecede table.now) s start
        ↔ schedule.IsLeastStart graph.costs (Precedes graph) s start }
    ensures slack { (graph : RecordedGraph) (s slack : ℕ) → IsGraphOf table.now graph
        → schedule.IsSlack graph.costs (MustPrecede table.now) s slack
        ↔ schedule.IsSlack graph.costs (Precedes graph) s slack }
{
    open_segments::laws::serves_runs(table);
}

/// A list of events is legal, or one of them is the first that is refused.
pub fn some_refusal()
    ensures { (program : ProgramMarks) → IsProgram program → (events : List Event)
        → IsLegalRun (table_of program.marks) events
        ⊎ ((index : ℕ)
        × (why : ReplayRefusal)
        × IsFirstRefused (table_of program.marks) events index why) }
{}
