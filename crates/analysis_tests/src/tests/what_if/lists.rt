//! Lists of changes, each made all at once.
use super::{Answers, MOST, reset, set, totals, worked_trial};
use std::alloc::Global;
use std::test::Fail;
use whatif_costs::fault::WhatFault;
use whatif_costs::new_costs::NewCost;
use whatif_costs::what_if::WhatIf;

/// Changes of the worked program, what they answer together, and the totals after them.
const LISTS: &[(&[(u32, u64)], Answers)] = &[
    (&[], (Ok(9), (11, 9))),
    (&[(2, 4)], (Ok(10), (13, 10))),
    (&[(2, 4), (1, 5)], (Ok(11), (15, 11))),
    // One segment twice: the later cost stays.
    (&[(2, 4), (2, 2)], (Ok(9), (11, 9))),
    (&[(2, 2), (2, 4)], (Ok(10), (13, 10))),
    // Each change counts on what those before it left.
    (&[(1, 2), (2, MOST - 8)], (Ok(MOST - 2), (MOST, MOST - 2))),
    (
        &[(2, MOST - 8), (1, 2)],
        (Err(WhatFault::WorkTooLarge), (11, 9)),
    ),
    // The first that is refused is reported, and none is made.
    (&[(2, 4), (4, 1)], (Err(WhatFault::UnknownSegment), (11, 9))),
    (
        &[(2, MOST + 1), (4, 1), (2, MOST)],
        (Err(WhatFault::CostTooLarge), (11, 9)),
    ),
    (
        &[(1, 5), (4, MOST + 1), (2, MOST + 1)],
        (Err(WhatFault::UnknownSegment), (11, 9)),
    ),
    (
        &[(2, MOST), (4, 1)],
        (Err(WhatFault::WorkTooLarge), (11, 9)),
    ),
];

fn set_all(trial: &mut WhatIf, changes: &[NewCost]) -> Result<u64, WhatFault> {
    trial.set_all(changes)
}

fn at_once(alloc: Global, changes: &[NewCost]) -> Result<Answers, Fail> {
    let mut trial = worked_trial(alloc)?;
    let answer = set_all(&mut trial, changes);
    Ok((answer, totals(&trial)))
}

/// These segments and costs as changes.
fn list_of(alloc: Global, pairs: &[(u32, u64)]) -> Result<Vec<NewCost>, Fail> {
    let mut changes = Vec::new(alloc);
    for (segment, cost) in pairs {
        changes.push(NewCost {
            segment: *segment,
            cost: *cost,
        })?;
    }
    Ok(changes)
}

#[test]
fn lists_in_order(rt: HostRuntime) -> Result<(), Fail> {
    for (pairs, answers) in LISTS {
        let changes = list_of(rt.alloc(), *pairs)?;
        assert_eq!(rt; at_once(rt.alloc(), changes.as_slice())?, *answers);
    }
    Ok(())
}

/// So many changes of all segments in turn, to costs from 0 to 12.
fn many(alloc: Global, count: u32) -> Result<Vec<NewCost>, Fail> {
    let mut changes = Vec::new(alloc);
    for number in 0..count {
        changes.push(NewCost {
            segment: number % 4,
            cost: u64::from(number) * 7 % 13,
        })?;
    }
    Ok(changes)
}

/// The changes one by one, up to the first that is refused.
fn one_by_one(alloc: Global, changes: &[NewCost]) -> Result<Answers, Fail> {
    let mut trial = worked_trial(alloc)?;
    let mut answer = Ok(trial.span());
    'changes: for change in changes {
        answer = set(&mut trial, change.segment, change.cost);
        if answer.is_err() {
            let _ = reset(&mut trial);
            break 'changes;
        }
    }
    Ok((answer, totals(&trial)))
}

/// A thousand changes at once lead where they lead one by one, and so do all but some of them. With
/// one among them that is refused they lead nowhere.
#[test]
fn a_thousand_at_once(rt: HostRuntime) -> Result<(), Fail> {
    let mut changes = many(rt.alloc(), 1000)?;
    for count in [1000, 999, 500, 37, 4, 1] {
        changes.truncate(count);
        let answers = at_once(rt.alloc(), changes.as_slice())?;
        assert_eq!(rt; answers, one_by_one(rt.alloc(), changes.as_slice())?);
        assert!(rt; answers.0.is_ok());
    }
    let mut refused = many(rt.alloc(), 1000)?;
    refused.push(NewCost {
        segment: 4,
        cost: 1,
    })?;
    refused.push(NewCost {
        segment: 1,
        cost: MOST + 1,
    })?;
    let answers = at_once(rt.alloc(), refused.as_slice())?;
    assert_eq!(rt; answers, (Err(WhatFault::UnknownSegment), (11, 9)));
    assert_eq!(rt; answers, one_by_one(rt.alloc(), refused.as_slice())?);
    Ok(())
}
