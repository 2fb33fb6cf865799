//! Worked runs, as the rules of tasks and of the greedy run give them by hand, and random programs.
ghost use Rattle.std.specs.Prelude.{◌<◌};

mod plain;

use crate::tests::graph_of;
use crate::tests::greedy::plain::PlainRun;
use dispatch_core::graph::Graph;
use greedy_sim::curve::curve;
use greedy_sim::greedy::{GreedyFault, bound, greedy};
use std::alloc::Global;
use std::fmt::Write;
use std::process::Abort;
use std::test::Fail;
use std::thread::Threads;

const WORKED: &str = "omptasks 1\nwork 5 task { work 3 } work 2 taskwait work 1";

const CHILDREN: &str = "omptasks 1\ntask { work 1 } task { work 1 } task { work 2 }";

/// The segments of a greedy run, each with its start, end and thread, and the end of the run.
fn rows(alloc: Global, text: &str, threads: u32) -> Result<String, Fail> {
    let graph = graph_of(alloc, text)?;
    let run = greedy(alloc, &graph, threads)?;
    let mut rows = String::new(alloc);
    for segment in 0..graph.len() {
        let start = run.start(segment);
        let end = start.wrapping_add(graph.cost(segment));
        write!(rows, "{segment},{start},{end},")?;
        if let Some(thread) = run.thread(segment) {
            write!(rows, "{thread}")?;
        }
        write!(rows, "; ")?;
    }
    write!(rows, "end {}", run.end())?;
    Ok(rows)
}

/// A text, a number of threads, and the rows of the run.
const RUNS: &[(&str, u32, &str)] = &[
    (WORKED, 2, "0,0,5,0; 1,5,8,0; 2,5,7,1; 3,8,9,0; end 9"),
    (WORKED, 1, "0,0,5,0; 1,5,8,0; 2,8,10,0; 3,10,11,0; end 11"),
    (WORKED, 1_024, "0,0,5,0; 1,5,8,0; 2,5,7,1; 3,8,9,0; end 9"),
    (
        CHILDREN,
        2,
        "0,0,0,; 1,0,1,0; 2,0,0,; 3,0,1,1; 4,0,0,; 5,1,3,0; 6,0,0,; end 3",
    ),
    (
        "omptasks 1\ntaskgroup { } taskwait",
        1,
        "0,0,0,; 1,0,0,; 2,0,0,; end 0",
    ),
];

/// Asserts the rows of a run.
fn assert_rows(
    rt: &impl Abort,
    alloc: Global,
    text: &str,
    threads: u32,
    wanted: &str,
) -> Result<(), Fail> {
    assert_eq!(rt; rows(alloc, text, threads)?.as_str(), wanted);
    Ok(())
}

#[test]
fn worked_runs(rt: HostRuntime) -> Result<(), Fail> {
    for (text, threads, wanted) in RUNS {
        assert_rows(&rt, rt.alloc(), text, *threads, wanted)?;
    }
    Ok(())
}

/// It does not wait until all that began together have ended.
#[test]
fn a_run_by_no_levels(rt: HostRuntime) -> Result<(), Fail> {
    let text = "omptasks 1\ntask { work 7 } taskgroup { task { work 1 } } work 1";
    let wanted = "0,0,0,; 1,0,7,0; 2,0,0,; 3,0,1,1; 4,0,0,; 5,1,2,1; end 7";
    assert_rows(&rt, rt.alloc(), text, 2, wanted)
}

/// The ends of a program on one thread up to so many.
fn ends_of(
    rt: &(impl Threads + Sync),
    alloc: Global,
    text: &str,
    threads: u32,
) -> Result<Vec<u64>, Fail> {
    Ok(curve(rt, alloc, &graph_of(alloc, text)?, threads)?)
}

/// Asserts the ends of a program on one thread up to so many.
fn assert_ends(
    rt: &(impl Threads + Abort + Sync),
    alloc: Global,
    text: &str,
    threads: u32,
    wanted: &[u64],
) -> Result<(), Fail> {
    let ends = ends_of(rt, alloc, text, threads)?;
    assert_eq!(rt; ends.as_slice(), wanted);
    Ok(())
}

#[test]
fn worked_curves(rt: HostRuntime) -> Result<(), Fail> {
    assert_ends(&rt, rt.alloc(), CHILDREN, 3, &[4, 3, 2])?;
    assert_ends(&rt, rt.alloc(), WORKED, 2, &[11, 9])?;
    let ends = ends_of(&rt, rt.alloc(), CHILDREN, 1_024)?;
    assert_eq!(rt; ends.len(), 1_024);
    Ok(())
}

/// How a greedy run ends.
fn end_of(alloc: Global, graph: &Graph, threads: u32) -> Result<u64, GreedyFault> {
    Ok(greedy(alloc, graph, threads)?.end())
}

/// Why a curve is refused.
fn curve_fault(
    rt: &(impl Threads + Sync),
    alloc: Global,
    graph: &Graph,
    threads: u32,
) -> Option<GreedyFault> {
    curve(rt, alloc, graph, threads).err()
}

#[test]
fn refused_counts(rt: HostRuntime) -> Result<(), Fail> {
    let alloc = rt.alloc();
    let graph = graph_of(alloc, WORKED)?;
    let refused = GreedyFault::ThreadCount;
    for threads in [0, 1_025] {
        assert_eq!(rt; end_of(alloc, &graph, threads), Err(refused));
        assert_eq!(rt; curve_fault(&rt, alloc, &graph, threads), Some(refused));
    }
    assert_eq!(rt; end_of(alloc, &graph, 1_024), Ok(9));
    Ok(())
}

#[test]
fn worked_bounds(rt: HostRuntime) {
    assert_eq!(rt; (bound(4, 2, 1), bound(4, 2, 2), bound(4, 2, 3)), (4, 3, 2));
    assert_eq!(rt; (bound(11, 9, 1), bound(11, 9, 2)), (11, 10));
    let most = 1_000_000_000_000_000;
    assert_eq!(rt; (bound(most, most, 1_024), bound(0, 0, 1_024)), (most, 0));
}

fn draw(seed: &mut u64, below: u64) -> u64
    requires { 0 < below }
    ensures { result < below }
{
    *seed = seed
        .wrapping_mul(6_364_136_223_846_793_005)
        .wrapping_add(1_442_695_040_888_963_407);
    (*seed >> 33) % below
}

/// Writes a statement that stands below so many tasks, and answers how many are open after it.
fn add_statement(text: &mut String, seed: &mut u64, depth: u32) -> Result<u32, Fail> {
    match draw(seed, 6) {
        0 => write!(text, "taskwait ")?,
        1 | 2 => write!(text, "work {} ", draw(seed, 4))?,
        3 if depth > 0 => {
            write!(text, "}} ")?;
            return Ok(depth - 1);
        }
        _ if depth < 4 => {
            let kind = if draw(seed, 2) == 0 { "in" } else { "out" };
            write!(text, "task depend({kind}: n{}) {{ ", draw(seed, 3))?;
            return Ok(depth + 1);
        }
        _ => {}
    }
    Ok(depth)
}

/// A program of tasks that share three names.
fn random_text(alloc: Global, seed: &mut u64) -> Result<String, Fail> {
    let mut text = String::new(alloc);
    write!(text, "omptasks 1\n")?;
    let mut depth = 0u32;
    for _ in 0..20 + draw(seed, 20) {
        depth = add_statement(&mut text, seed, depth)?;
    }
    for _ in 0..depth {
        write!(text, "}} ")?;
    }
    Ok(text)
}

/// Whether the greedy run is that of the rule.
fn is_by_the_rule(alloc: Global, graph: &Graph, threads: u32) -> Result<bool, Fail> {
    let run = greedy(alloc, graph, threads)?;
    let plain = PlainRun::new(alloc, graph, threads)?;
    for segment in 0..graph.len() {
        if plain.start(segment) != Some(run.start(segment)) {
            return Ok(false);
        }
        if plain.thread(segment) != run.thread(segment) {
            return Ok(false);
        }
    }
    Ok(run.end() == plain.end())
}

#[test]
fn random_programs(rt: HostRuntime) -> Result<(), Fail> {
    let alloc = rt.alloc();
    let mut seed = 12_345;
    for _ in 0..200u32 {
        let text = random_text(alloc, &mut seed)?;
        let graph = graph_of(alloc, text.as_str())?;
        for threads in 1..5 {
            assert!(rt; is_by_the_rule(alloc, &graph, threads)?);
        }
    }
    Ok(())
}
