//! A thousand changes of costs, after each of which a second graph with the same costs is analysed
//! from nothing.
ghost use Rattle.std.specs.Prelude.{◌≡◌, ◌-◌, ◌<◌, ◌≤◌, ◌^◌, IsTrue, length, sum};

use super::{MOST, WORKED, reset, set};
use crate::tests::graph_of;
use dispatch_core::graph::Graph;
use span_analysis::analysis::analyse;
use std::alloc::Global;
use std::test::Fail;
use task_program::AllocFault;
use whatif_costs::fault::WhatFault;
use whatif_costs::what_if::WhatIf;

/// A generator of numbers that look random.
#[derive(Drop)]
struct Dice {
    state: u32,
}

impl Dice {
    /// A number below a limit.
    fn below(&mut self, limit: u32) -> u32
        requires { 0 < limit }
    {
        self.state = self.state.wrapping_mul(1664525).wrapping_add(1013904223);
        (self.state >> 16) % limit
    }

    /// A cost, mostly small, and now and then at a limit or past it.
    fn cost(&mut self) -> u64 {
        match self.below(20) {
            0 => MOST + 1,
            1 => MOST,
            2 => MOST - u64::from(self.below(30)),
            3 => 0,
            _ => u64::from(self.below(12)),
        }
    }
}

/// How many calls were accepted, and how many refused for each reason.
#[derive(Clone, Copy, Debug, PartialEq, Eq)]
struct Counts {
    accepted: u32,
    unknown_segment: u32,
    cost_too_large: u32,
    work_too_large: u32,
}

impl Counts {
    fn count(&mut self, answer: Result<u64, WhatFault>) {
        let place = match answer {
            Ok(_) => &mut self.accepted,
            Err(WhatFault::UnknownSegment) => &mut self.unknown_segment,
            Err(WhatFault::CostTooLarge) => &mut self.cost_too_large,
            Err(WhatFault::WorkTooLarge) => &mut self.work_too_large,
            Err(WhatFault::OutOfMemory) => return,
        };
        *place = place.saturating_add(1);
    }
}

/// Whether costs fit in a graph.
fn is_little(costs: &[u64]) -> bool
    ensures { IsTrue result → sum costs.now ≤ 10 ^ 15 }
{
    let mut left = MOST;
    for cost in costs {
        if *cost > left {
            return false;
        }
        left -= *cost;
    }
    true
}

/// Puts costs into a graph.
fn put(graph: &mut Graph, costs: &[u64]) -> Result<(), Fail>
    ensures { length graph.new.costs ≡ length graph.old.costs }
{
    if costs.len() != graph.len() as usize || !is_little(costs) {
        return Err("no costs of this graph".into());
    }
    graph.set_costs(costs);
    Ok(())
}

/// Whether a trial answers as the analysis of a graph does.
fn agrees(alloc: Global, trial: &WhatIf, graph: &Graph) -> Result<bool, AllocFault>
    requires { length trial.now.graph.costs ≡ length graph.now.costs }
{
    let found = analyse(alloc, graph)?;
    if trial.work() != found.work() || trial.span() != found.span() {
        return Ok(false);
    }
    for segment in 0..graph.len() {
        if trial.start(segment) != found.starts()[segment as usize] {
            return Ok(false);
        }
        if trial.slack(segment) != found.slack(segment) {
            return Ok(false);
        }
    }
    Ok(true)
}

/// Takes back all changes of a trial, and of the costs as they ought to be.
fn take_back(trial: &mut WhatIf, own: &[u64], costs: &mut [u64]) -> Result<u64, WhatFault>
    ensures { length trial.new.graph.costs ≡ length trial.old.graph.costs }
{
    let answer = reset(trial);
    if answer.is_ok() && costs.len() == own.len() {
        costs.copy_from_slice(own);
    }
    answer
}

/// Changes one cost of a trial, and of the costs as they ought to be.
fn change(trial: &mut WhatIf, segment: u32, cost: u64, costs: &mut [u64]) -> Result<u64, WhatFault>
    ensures { length trial.new.graph.costs ≡ length trial.old.graph.costs }
{
    let answer = set(trial, segment, cost);
    if answer.is_ok() && (segment as usize) < costs.len() {
        costs[segment as usize] = cost;
    }
    answer
}

/// Makes one call on a trial, and the same change in the costs as they ought to be.
fn call(
    dice: &mut Dice,
    trial: &mut WhatIf,
    count: u32,
    own: &[u64],
    costs: &mut [u64],
) -> Result<u64, WhatFault>
    requires { count < 2 ^ 32 - 1 }
    ensures { length trial.new.graph.costs ≡ length trial.old.graph.costs }
{
    if dice.below(16) == 0 {
        return take_back(trial, own, costs);
    }
    let segment = dice.below(count + 1);
    let cost = dice.cost();
    change(trial, segment, cost, costs)
}

/// Makes one call on a trial, and compares it with an analysis of the second graph, in which the
/// costs are as they ought to be.
fn compare_once(
    alloc: Global,
    dice: &mut Dice,
    trial: &mut WhatIf,
    second: &mut Graph,
    own: &[u64],
    costs: &mut [u64],
) -> Result<Result<u64, WhatFault>, Fail>
    requires { length trial.old.graph.costs ≡ length second.old.costs }
    ensures trial { length trial.new.graph.costs ≡ length trial.old.graph.costs }
    ensures second { length second.new.costs ≡ length second.old.costs }
{
    let answer = call(dice, trial, second.len(), own, costs);
    if answer.is_ok() && answer != Ok(trial.span()) {
        return Err("another span is answered".into());
    }
    put(second, costs)?;
    if !agrees(alloc, trial, second)? {
        return Err("another analysis".into());
    }
    Ok(answer)
}

/// Makes many calls on a trial of a program's graph, and after each compares it with an analysis of
/// a second such graph.
fn compare(alloc: Global, text: &str, calls: u32) -> Result<Counts, Fail> {
    let first = graph_of(alloc, text)?;
    let mut second = graph_of(alloc, text)?;
    if first.len() != second.len() {
        return Err("two graphs of one program".into());
    }
    let own = Vec::from_slice(alloc, second.costs())?;
    let mut costs = Vec::from_slice(alloc, second.costs())?;
    let mut trial = match WhatIf::new(alloc, first) {
        Ok(trial) => trial,
        Err(_) => return Err("memory".into()),
    };
    let mut dice = Dice { state: 1 };
    let mut counts = Counts {
        accepted: 0,
        unknown_segment: 0,
        cost_too_large: 0,
        work_too_large: 0,
    };
    for _ in 0..calls {
        let answer = compare_once(alloc, &mut dice, &mut trial, &mut second, &own, &mut costs)?;
        counts.count(answer);
    }
    Ok(counts)
}

const TEXTS: &[&str] = &[
    WORKED,
    "omptasks 1\ntask depend(inoutset: x) { work 4 } task depend(inoutset: x) { work 6 } task \
        depend(in: x) { work 1 } task depend(inoutset: x) { work 2 } task depend(out: x) { work 1 \
        }",
    "omptasks 1\ntask { work 1 } task { work 1 } task { work 2 }",
];

/// Whether each answer came often.
fn has_all_answers(counts: &Counts) -> bool {
    counts.accepted > 500
        && counts.unknown_segment > 10
        && counts.cost_too_large > 10
        && counts.work_too_large > 10
}

#[test]
fn a_thousand_changes(rt: HostRuntime) -> Result<(), Fail> {
    for text in TEXTS {
        let counts = compare(rt.alloc(), text, 1000)?;
        assert!(rt; has_all_answers(&counts), "{counts:?}");
    }
    Ok(())
}
