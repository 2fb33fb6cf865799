//! What calls answer about a graph.
ghost use Rattle.std.specs.Prelude.{◌≡◌, ◌<◌, ◌≤◌, IfErr, IfOk, OnErr, OnOk, [], ◌∷◌, length};
ghost use Rattle.dispatch_core.specs.RecordedGraph.{Precedes};
ghost use Rattle.greedy_sim.specs.Greedy.{IsCurve};
ghost use Rattle.greedy_sim.specs.declared.greedy.TheConstants.{MOST_THREADS};
ghost use Rattle.span_analysis.specs.Findings.{AreFindings};
ghost use Rattle.spanprof_c.specs.Programs.{OfText, source};
ghost use Rattle.spanprof_c.specs.Refusals.{IsRefused, asked};
ghost use Rattle.spanprof_c.specs.Steps.{RefusesGraph};
ghost use Rattle.spanprof_c.specs.Told.{Analyses, Curves, Judges, ListsSegments, Measures};
ghost use Rattle.spanprof_c.specs.Told.{RunsGreedily, StandAtHead};

use crate::filling::{put_costs, put_path, put_run, put_slacks, put_tasks, some_other};
use crate::graphs::table_of_text;
use crate::large::large_table;
use crate::refusal::{Refusal, text_refusal};
use crate::told::{Analysed, Measured};
use dispatch_core::graph::Graph;
use greedy_sim::greedy::{GreedyFault, MOST_THREADS, greedy};
use span_analysis::analysis::{Analysis, analyse};
use span_analysis::legal::is_legal;
use span_analysis::span::span_of;
use std::alloc::Global;
use task_program::AllocFault;
use task_segments::table::BoundedTable;

/// The number of segments, the work and the span.
pub(crate) fn measure(alloc: Global, graph: &Graph, told: &mut Measured) -> Result<(), Refusal>
    ensures done { OnOk result (Measures told.new graph.now.costs (Precedes graph.now)) }
    ensures refused { IfErr result (RefusesGraph 1 [] (length graph.now.costs)) }
    ensures kept { OnErr result (told.new ≡ told.old) }
{
    match span_of(alloc, graph) {
        Ok(span) => {
            told.segments = u64::from(graph.len());
            told.work = graph.work();
            told.span = span;
            Ok(())
        }
        Err(_) => Err(Refusal::OutOfMemory),
    }
}

/// The earliest start and the slack of each segment, and the critical path.
pub(crate) fn tell_analysis(
    alloc: Global,
    graph: &Graph,
    starts: &mut [u64],
    slacks: &mut [u64],
    path: &mut [u32],
    told: &mut Analysed,
) -> Result<(), Refusal>
    ensures done { OnOk result (Analyses told.new starts.new slacks.new path.new graph.now.costs
        (Precedes graph.now)) }
    ensures path { OnOk result (StandAtHead told.new.path_length path.old path.new) }
    ensures refused { IfErr result (RefusesGraph 1
        (length starts.old ∷ length slacks.old ∷ length path.old ∷ []) (length graph.now.costs)) }
    ensures kept { OnErr result ((starts.new ≡ starts.old) × (slacks.new ≡ slacks.old)
        × (path.new ≡ path.old) × (told.new ≡ told.old)) }
{
    if some_other(graph.len(), &[starts.len(), slacks.len(), path.len()]) {
        return Err(Refusal::WrongLength);
    }
    dispatch_core::laws::is_graph(graph);
    match analyse(alloc, graph) {
        Ok(found) => {
            put_analysis(graph, &found, starts, slacks, path, told);
            Ok(())
        }
        Err(_) => Err(Refusal::OutOfMemory),
    }
}

fn put_analysis(
    graph: &Graph,
    found: &Analysis,
    starts: &mut [u64],
    slacks: &mut [u64],
    path: &mut [u32],
    told: &mut Analysed,
)
    requires found { AreFindings graph.now.costs (Precedes graph.now) found.now }
    requires starts { length starts.old ≡ length graph.now.costs }
    requires slacks { length slacks.old ≡ length graph.now.costs }
    requires path { length path.old ≡ length graph.now.costs }
    ensures told { Analyses told.new starts.new slacks.new path.new graph.now.costs
        (Precedes graph.now) }
    ensures path { StandAtHead told.new.path_length path.old path.new }
{
    dispatch_core::laws::is_graph(graph);
    starts.copy_from_slice(found.starts());
    put_slacks(found, slacks);
    put_path(found.chain(), path);
    told.work = found.work();
    told.span = found.span();
    told.path_length = found.chain().len() as u64;
}

/// The greedy run on so many threads.
pub(crate) fn tell_run(
    alloc: Global,
    graph: &Graph,
    count: u32,
    starts: &mut [u64],
    threads: &mut [u32],
    end: &mut u64,
) -> Result<(), Refusal>
    ensures done { OnOk result (RunsGreedily count starts.new threads.new end.new graph.now.costs
        (Precedes graph.now)) }
    ensures refused { IfErr result (RefusesGraph count
        (length starts.old ∷ length threads.old ∷ []) (length graph.now.costs)) }
    ensures kept { OnErr result ((starts.new ≡ starts.old) × (threads.new ≡ threads.old)
        × (end.new ≡ end.old)) }
{
    if some_other(graph.len(), &[starts.len(), threads.len()]) {
        return Err(Refusal::WrongLength);
    }
    dispatch_core::laws::is_graph(graph);
    match greedy(alloc, graph, count) {
        Ok(run) => {
            put_run(&run, starts, threads);
            *end = run.end();
            Ok(())
        }
        Err(GreedyFault::ThreadCount) => Err(Refusal::ThreadCount),
        Err(GreedyFault::OutOfMemory) => Err(Refusal::OutOfMemory),
    }
}

/// The ends of the greedy runs on 1, 2, .. threads, one after another.
pub(crate) fn tell_curve(alloc: Global, graph: &Graph, ends: &mut [u64]) -> Result<(), Refusal>
    ensures done { OnOk result
        (Curves (length ends.old) ends.new graph.now.costs (Precedes graph.now)) }
    ensures refused { IfErr result (RefusesGraph (length ends.old) [] (length graph.now.costs)) }
    ensures kept { OnErr result (ends.new ≡ ends.old) }
{
    if ends.is_empty() || ends.len() > MOST_THREADS as usize {
        return Err(Refusal::ThreadCount);
    }
    match greedy_ends(alloc, graph, ends.len() as u32) {
        Ok(found) => {
            ends.copy_from_slice(found.as_slice());
            Ok(())
        }
        Err(_) => Err(Refusal::OutOfMemory),
    }
}

/// The ends of the greedy runs on 1 thread, on 2, and so on up to so many.
fn greedy_ends(alloc: Global, graph: &Graph, count: u32) -> Result<Vec<u64>, AllocFault>
    requires { count ≤ MOST_THREADS }
    ensures { IfOk result (λ ends.
        IsCurve graph.now.costs (Precedes graph.now) count ends.items) }
{
    let mut ends = Vec::new(alloc);
    for threads in 0..count {
        match greedy(alloc, graph, threads + 1) {
            Ok(run) => ends.push(run.end())?,
            Err(_) => return Err(AllocFault),
        }
    }
    Ok(ends)
}

/// Whether the starts are a legal schedule.
pub(crate) fn judge(graph: &Graph, starts: &[u64], legal: &mut bool)
    ensures { Judges starts.now legal.new graph.now.costs (Precedes graph.now) }
{
    *legal = is_legal(graph, starts);
}

/// The task and the cost of each segment of a text.
pub(crate) fn list_segments(
    alloc: Global,
    text: &[u8],
    any_size: bool,
    tasks: &mut [u32],
    costs: &mut [u64],
) -> Result<(), Refusal>
    ensures done { OnOk result
        (OfText (source any_size text.now) (ListsSegments tasks.new costs.new)) }
    ensures refused { IfErr result (IsRefused (asked (source any_size text.now) [] 1
        (length tasks.old ∷ length costs.old ∷ []))) }
    ensures kept { OnErr result ((tasks.new ≡ tasks.old) × (costs.new ≡ costs.old)) }
{
    if any_size {
        match large_table(alloc, text) {
            Ok(table) => tell_segments(&table, tasks, costs),
            Err(fault) => Err(text_refusal(fault)),
        }
    } else {
        match table_of_text(alloc, text) {
            Ok(table) => tell_segments(&table, tasks, costs),
            Err(fault) => Err(text_refusal(fault)),
        }
    }
}

/// The task and the cost of each segment of a table.
fn tell_segments<const SEGMENTS: u32, const TASKS: u32>(
    table: &BoundedTable<SEGMENTS, TASKS>,
    tasks: &mut [u32],
    costs: &mut [u64],
) -> Result<(), Refusal>
    ensures done { OnOk result (ListsSegments tasks.new costs.new table.now) }
    ensures refused { IfErr result (RefusesGraph 1
        (length tasks.old ∷ length costs.old ∷ []) (length table.now.segments)) }
    ensures kept { OnErr result ((tasks.new ≡ tasks.old) × (costs.new ≡ costs.old)) }
{
    if some_other(table.len(), &[tasks.len(), costs.len()]) {
        return Err(Refusal::WrongLength);
    }
    put_tasks(table, tasks);
    put_costs(table, costs);
    Ok(())
}
