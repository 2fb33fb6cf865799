//! Analyses, spans, greedy runs, and trials of costs.
use super::made_again;
use super::programs::{assert_worked, graph_of};
use super::supply::Supply;
use dispatch_core::graph::Graph;
use greedy_sim::curve::curve;
use greedy_sim::greedy::{GreedyFault, GreedyRun, greedy};
use span_analysis::analysis::{Analysis, analyse};
use span_analysis::span::span_of;
use std::alloc::{AllocGlobal, Global};
use std::process::Abort;
use std::test::Fail;
use std::thread::Threads;
use task_program::AllocFault;
use whatif_costs::fault::WhatFault;
use whatif_costs::new_costs::NewCost;
use whatif_costs::what_if::WhatIf;

fn analysed(alloc: Global, graph: &Graph) -> Result<Analysis, AllocFault> {
    analyse(alloc, graph)
}

/// The analysis of the worked program.
fn analysis_of<H: AllocGlobal + Abort>(rt: &H, supply: &mut Supply) -> Result<Analysis, Fail> {
    let graph = graph_of(rt, supply)?;
    supply.before_call();
    match analysed(rt.alloc(), &graph) {
        Ok(found) => Ok(found),
        Err(_) => {
            supply.refused();
            assert_worked(rt, &graph);
            Ok(analysed(rt.alloc(), &graph)?)
        }
    }
}

/// The earliest schedule and the chain of the worked program.
pub(super) fn analysis<H: AllocGlobal + Abort>(rt: &H, supply: &mut Supply) -> Result<(), Fail> {
    let found = analysis_of(rt, supply)?;
    assert_eq!(rt; (found.work(), found.span()), (11, 9));
    assert_eq!(rt; found.starts(), [0, 5, 5, 8].as_slice());
    assert_eq!(rt; found.chain(), [0, 1, 3].as_slice());
    Ok(())
}

fn measured(alloc: Global, graph: &Graph) -> Result<u64, AllocFault> {
    span_of(alloc, graph)
}

/// The span of the worked program, without its slacks.
pub(super) fn span<H: AllocGlobal + Abort>(rt: &H, supply: &mut Supply) -> Result<(), Fail> {
    let graph = graph_of(rt, supply)?;
    supply.before_call();
    let span = match measured(rt.alloc(), &graph) {
        Ok(span) => span,
        Err(_) => {
            supply.refused();
            assert_worked(rt, &graph);
            measured(rt.alloc(), &graph)?
        }
    };
    assert_eq!(rt; span, 9);
    Ok(())
}

fn run_on_two(alloc: Global, graph: &Graph) -> Result<GreedyRun, GreedyFault> {
    greedy(alloc, graph, 2)
}

fn run_of<H: AllocGlobal + Abort>(
    rt: &H,
    supply: &mut Supply,
    graph: &Graph,
) -> Result<GreedyRun, Fail> {
    supply.before_call();
    match run_on_two(rt.alloc(), graph) {
        Ok(run) => Ok(run),
        Err(fault) => {
            supply.refused();
            assert_eq!(rt; fault, GreedyFault::OutOfMemory);
            Ok(run_on_two(rt.alloc(), graph)?)
        }
    }
}

/// The greedy run on two threads.
pub(super) fn greedy_run<H: AllocGlobal + Abort>(rt: &H, supply: &mut Supply) -> Result<(), Fail> {
    let graph = graph_of(rt, supply)?;
    let run = run_of(rt, supply, &graph)?;
    assert_eq!(rt; run.end(), 9);
    Ok(())
}

fn ends_of<H: Threads + Sync>(
    rt: &H,
    alloc: Global,
    graph: &Graph,
) -> Result<Vec<u64>, GreedyFault> {
    curve(rt, alloc, graph, 3)
}

/// The ends on one to three threads. A thread that does not start is out of memory too.
pub(super) fn ends<H: AllocGlobal + Threads + Abort + Sync>(
    rt: &H,
    supply: &mut Supply,
) -> Result<(), Fail> {
    let graph = graph_of(rt, supply)?;
    supply.before_call();
    let ends = match ends_of(rt, rt.alloc(), &graph) {
        Ok(ends) => ends,
        Err(fault) => {
            supply.refused();
            assert_eq!(rt; fault, GreedyFault::OutOfMemory);
            ends_of(rt, rt.alloc(), &graph)?
        }
    };
    assert_eq!(rt; ends.as_slice(), [11, 9, 9].as_slice());
    Ok(())
}

/// A trial of a graph, or the graph back.
fn new_trial(alloc: Global, graph: Graph) -> Result<WhatIf, Graph> {
    match WhatIf::new(alloc, graph) {
        Ok(trial) => Ok(trial),
        Err(fault) => Err(fault.graph),
    }
}

fn trial_of<H: AllocGlobal + Abort>(rt: &H, supply: &mut Supply) -> Result<WhatIf, Fail> {
    let graph = graph_of(rt, supply)?;
    supply.before_call();
    match new_trial(rt.alloc(), graph) {
        Ok(trial) => Ok(trial),
        Err(graph) => {
            supply.refused();
            assert_worked(rt, &graph);
            made_again(new_trial(rt.alloc(), graph))
        }
    }
}

fn set(trial: &mut WhatIf, segment: u32, cost: u64) -> Result<u64, WhatFault> {
    trial.set(segment, cost)
}

/// Segment 2 costs 4, and segment 1 costs 5.
const RAISED: &[NewCost] = &[
    NewCost {
        segment: 2,
        cost: 4,
    },
    NewCost {
        segment: 1,
        cost: 5,
    },
];

fn set_all(trial: &mut WhatIf, changes: &[NewCost]) -> Result<u64, WhatFault> {
    trial.set_all(changes)
}

fn reset(trial: &mut WhatIf) -> Result<u64, WhatFault> {
    trial.reset()
}

fn assert_sums(rt: &impl Abort, trial: &WhatIf, work: u64, span: u64) {
    assert_eq!(rt; (trial.work(), trial.span()), (work, span));
}

/// A refused change leaves the trial as it was.
fn assert_set(rt: &impl Abort, supply: &mut Supply, trial: &mut WhatIf) {
    supply.before_call();
    let span = match set(trial, 2, 4) {
        Err(WhatFault::OutOfMemory) => {
            supply.refused();
            assert_sums(rt, trial, 11, 9);
            set(trial, 2, 4)
        }
        answer => answer,
    };
    assert_eq!(rt; span, Ok(10));
    assert_sums(rt, trial, 13, 10);
}

/// So does a refused way back to the graph's own costs.
fn assert_reset(rt: &impl Abort, supply: &mut Supply, trial: &mut WhatIf) {
    supply.before_call();
    let span = match reset(trial) {
        Err(WhatFault::OutOfMemory) => {
            supply.refused();
            assert_sums(rt, trial, 13, 10);
            reset(trial)
        }
        answer => answer,
    };
    assert_eq!(rt; span, Ok(9));
    assert_sums(rt, trial, 11, 9);
}

/// A refused list of changes leaves it so too.
fn assert_set_all(rt: &impl Abort, supply: &mut Supply, trial: &mut WhatIf) {
    supply.before_call();
    let span = match set_all(trial, RAISED) {
        Err(WhatFault::OutOfMemory) => {
            supply.refused();
            assert_sums(rt, trial, 11, 9);
            set_all(trial, RAISED)
        }
        answer => answer,
    };
    assert_eq!(rt; span, Ok(11));
    assert_sums(rt, trial, 15, 11);
}

/// A cost is changed, and changed back, and then two are changed at once.
pub(super) fn trial<H: AllocGlobal + Abort>(rt: &H, supply: &mut Supply) -> Result<(), Fail> {
    let mut trial = trial_of(rt, supply)?;
    assert_set(rt, supply, &mut trial);
    assert_reset(rt, supply, &mut trial);
    assert_set_all(rt, supply, &mut trial);
    Ok(())
}
