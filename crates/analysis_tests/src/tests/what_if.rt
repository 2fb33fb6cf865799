//! Changed costs of worked programs, and many changes compared with new analyses.
ghost use Rattle.std.specs.Prelude.{◌≡◌, ◌<◌, length};

mod changes;
mod lists;

use crate::tests::graph_of;
use std::alloc::Global;
use std::process::Abort;
use std::test::Fail;
use whatif_costs::fault::WhatFault;
use whatif_costs::what_if::WhatIf;

/// The largest cost that a change may set, and the most work.
const MOST: u64 = 1_000_000_000_000_000;

const WORKED: &str = "omptasks 1\nwork 5 task { work 3 } work 2 taskwait work 1";

/// Sets the cost of a segment.
fn set(trial: &mut WhatIf, segment: u32, cost: u64) -> Result<u64, WhatFault>
    ensures { length trial.new.graph.costs ≡ length trial.old.graph.costs }
{
    trial.set(segment, cost)
}

/// Takes back all changes.
fn reset(trial: &mut WhatIf) -> Result<u64, WhatFault>
    ensures { length trial.new.graph.costs ≡ length trial.old.graph.costs }
{
    trial.reset()
}

/// The work and the span.
fn totals(trial: &WhatIf) -> (u64, u64) {
    (trial.work(), trial.span())
}

/// The slacks of segments 1 and 2 and the start of segment 3.
fn places(trial: &WhatIf) -> (u64, u64, u64)
    requires { 3 < length trial.now.graph.costs }
{
    (trial.slack(1), trial.slack(2), trial.start(3))
}

/// Asserts what a trial answers.
fn assert_answers(
    rt: &impl Abort,
    trial: &WhatIf,
    wanted: (u64, u64),
    wanted_places: (u64, u64, u64),
)
    requires { 3 < length trial.now.graph.costs }
{
    assert_eq!(rt; totals(trial), wanted);
    assert_eq!(rt; places(trial), wanted_places);
}

#[test]
fn a_raised_cost_and_back(rt: HostRuntime) -> Result<(), Fail> {
    let graph = graph_of(rt.alloc(), WORKED)?;
    assert_eq!(rt; graph.len(), 4);
    let mut trial = match WhatIf::new(rt.alloc(), graph) {
        Ok(trial) => trial,
        Err(_) => return Err("memory".into()),
    };
    assert_answers(&rt, &trial, (11, 9), (0, 1, 8));
    assert_eq!(rt; set(&mut trial, 2, 4), Ok(10));
    assert_answers(&rt, &trial, (13, 10), (1, 0, 9));
    assert_eq!(rt; reset(&mut trial), Ok(9));
    assert_answers(&rt, &trial, (11, 9), (0, 1, 8));
    Ok(())
}

/// A trial of the worked program.
fn worked_trial(alloc: Global) -> Result<WhatIf, Fail> {
    match WhatIf::new(alloc, graph_of(alloc, WORKED)?) {
        Ok(trial) => Ok(trial),
        Err(_) => Err("memory".into()),
    }
}

/// What the last of some changes of the worked program answers, and the totals after it.
fn after(alloc: Global, changes: &[(u32, u64)]) -> Result<Answers, Fail> {
    let mut trial = worked_trial(alloc)?;
    let mut answer = Ok(trial.span());
    for (segment, cost) in changes {
        answer = set(&mut trial, *segment, *cost);
    }
    Ok((answer, totals(&trial)))
}

/// What the last of some changes answers, and the totals after it.
type Answers = (Result<u64, WhatFault>, (u64, u64));

/// Changes in this order, and what they answer.
const CHANGES: &[(&[(u32, u64)], Answers)] = &[
    (&[], (Ok(9), (11, 9))),
    (&[(2, 3)], (Ok(9), (12, 9))),
    (&[(2, 4)], (Ok(10), (13, 10))),
    (&[(2, 4), (1, 5)], (Ok(11), (15, 11))),
    (&[(2, 4), (2, 2)], (Ok(9), (11, 9))),
    (
        &[(2, 4), (4, 1)],
        (Err(WhatFault::UnknownSegment), (13, 10)),
    ),
    (&[(4, 1), (2, 4)], (Ok(10), (13, 10))),
];

#[test]
fn changes_in_order(rt: HostRuntime) -> Result<(), Fail> {
    for (changes, answers) in CHANGES {
        assert_eq!(rt; after(rt.alloc(), *changes)?, *answers);
    }
    Ok(())
}

/// A segment, its cost, and why it is refused.
const REFUSED: &[(u32, u64, WhatFault)] = &[
    (4, 1, WhatFault::UnknownSegment),
    (4294967295, 18446744073709551615, WhatFault::UnknownSegment),
    (2, MOST + 1, WhatFault::CostTooLarge),
    (2, 18446744073709551615, WhatFault::CostTooLarge),
    (2, MOST, WhatFault::WorkTooLarge),
    (2, MOST - 8, WhatFault::WorkTooLarge),
];

/// Asserts what a change of a cost answers, and the totals after it.
fn assert_set(rt: &impl Abort, trial: &mut WhatIf, segment: u32, cost: u64, wanted: Answers) {
    let answer = set(trial, segment, cost);
    assert_eq!(rt; (answer, totals(trial)), wanted);
}

#[test]
fn refused_changes(rt: HostRuntime) -> Result<(), Fail> {
    let mut trial = worked_trial(rt.alloc())?;
    for (segment, cost, fault) in REFUSED {
        assert_set(&rt, &mut trial, *segment, *cost, (Err(*fault), (11, 9)));
    }
    assert_eq!(rt; set(&mut trial, 2, MOST - 9), Ok(MOST - 3));
    assert_eq!(rt; totals(&trial).0, MOST);
    Ok(())
}
