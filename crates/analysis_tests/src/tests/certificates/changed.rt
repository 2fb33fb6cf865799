//! The worked certificate with one change to its claim, and with two, of which the first test that
//! fails is reported.
use super::{ACCEPTED, Answer, SCHEDULE, assert_claim, assert_claims};
use span_cert::CheckFault;
use std::test::Fail;

/// The lines of the starts, and what is answered.
const STARTS: &[(&str, Answer)] = &[
    ("start 0 0 start 1 5 start 2 6 start 3 8", ACCEPTED),
    (
        "start 0 0 start 1 5 start 2 5 start 3 7",
        Err(CheckFault::Broken { s: 1, t: 3 }),
    ),
    (
        "start 0 0 start 1 0 start 2 5 start 3 8",
        Err(CheckFault::Broken { s: 0, t: 1 }),
    ),
    (
        "start 0 1 start 1 5 start 2 5 start 3 8",
        Err(CheckFault::Broken { s: 0, t: 1 }),
    ),
    (
        "start 0 0 start 1 5 start 2 7 start 3 8",
        Err(CheckFault::Broken { s: 2, t: 3 }),
    ),
    // several pairs: that of the least later segment, and of these that of the least earlier
    // one
    (
        "start 0 0 start 1 4 start 2 4 start 3 4",
        Err(CheckFault::Broken { s: 0, t: 1 }),
    ),
    (
        "start 0 0 start 1 5 start 2 5 start 3 0",
        Err(CheckFault::Broken { s: 1, t: 3 }),
    ),
    // all later by one: nothing starts too soon, and it ends at 10
    (
        "start 0 1 start 1 6 start 2 6 start 3 9",
        Err(CheckFault::EndWrong),
    ),
    (
        "start 0 0 start 1 5 start 2 5 start 3 1000000000000000000",
        Err(CheckFault::EndWrong),
    ),
    (
        "start 0 0 start 1 5 start 2 5 start 3 1000000000000000001",
        Err(CheckFault::BadForm),
    ),
];

#[test]
fn starts_are_tested(rt: HostRuntime) -> Result<(), Fail> {
    let alloc = rt.alloc();
    for (starts, wanted) in STARTS {
        let claim = format!(in alloc; "end 9\n{starts}\nchain 0 1 3\n")?;
        assert_claim(&rt, alloc, claim.as_str(), *wanted)?;
    }
    Ok(())
}

const WRONG_ENDS: &[&str] = &[
    "end 10 start 0 0 start 1 5 start 2 5 start 3 8 chain 0 1 3",
    "end 8 start 0 0 start 1 5 start 2 5 start 3 8 chain 0 1 3",
    "end 9 start 0 0 start 1 5 start 2 5 start 3 9 chain 0 1 3",
];

#[test]
fn ends_are_tested(rt: HostRuntime) -> Result<(), Fail> {
    assert_claims(&rt, rt.alloc(), WRONG_ENDS, Err(CheckFault::EndWrong))
}

/// The numbers of the chain, and what is answered.
const CHAINS: &[(&str, Answer)] = &[
    ("0 1 3", ACCEPTED),
    ("0 3", Err(CheckFault::ChainStep { s: 0, t: 3 })),
    ("0 2 1 0", Err(CheckFault::ChainStep { s: 2, t: 1 })),
    ("0 0 1 3", Err(CheckFault::ChainStep { s: 0, t: 0 })),
    ("3 1 0", Err(CheckFault::ChainStep { s: 3, t: 1 })),
    ("0 2 3", Err(CheckFault::ChainSum)),
    ("1 3", Err(CheckFault::ChainSum)),
    ("0 1", Err(CheckFault::ChainSum)),
    ("0 1 4", Err(CheckFault::WrongCount)),
    // the largest number that may be written
    ("0 1 3 1000000000000000000", Err(CheckFault::WrongCount)),
];

#[test]
fn chains_are_tested(rt: HostRuntime) -> Result<(), Fail> {
    let alloc = rt.alloc();
    for (chain, wanted) in CHAINS {
        let claim = format!(in alloc; "{SCHEDULE}chain {chain}\n")?;
        assert_claim(&rt, alloc, claim.as_str(), *wanted)?;
    }
    Ok(())
}

const OTHER_SEGMENTS: &[&str] = &[
    "end 9 start 0 0 start 1 5 start 3 8 chain 0 1 3",
    "end 9 start 0 0 start 1 5 start 2 5 chain 0 1 2",
    "end 9 start 0 0 start 1 5 start 2 5 start 3 8 start 3 8 chain 0 1 3",
    "end 9 start 0 0 start 1 5 start 2 5 start 3 8 start 4 8 chain 0 1 3",
    "end 9 start 0 0 start 2 5 start 1 5 start 3 8 chain 0 1 3",
    "end 9 start 1 0 start 2 5 start 3 5 start 4 8 chain 0 1 3",
    "end 9 chain 0",
];

#[test]
fn starts_are_those_of_the_segments(rt: HostRuntime) -> Result<(), Fail> {
    assert_claims(&rt, rt.alloc(), OTHER_SEGMENTS, Err(CheckFault::WrongCount))
}

/// A claim with two faults, and which is reported.
const TWO_FAULTS: &[(&str, Answer)] = &[
    // the form and the numbers, the numbers and the order, the order and the end
    ("end 9 start 7 0 chain", Err(CheckFault::BadForm)),
    (
        "end 9 start 0 0 start 1 0 start 2 5 start 3 8 chain 0 4",
        Err(CheckFault::WrongCount),
    ),
    (
        "end 9 start 0 0 start 1 5 start 2 5 start 3 7 chain 0 1 3",
        Err(CheckFault::Broken { s: 1, t: 3 }),
    ),
    // the end and a step of the chain, a step and the sum
    (
        "end 10 start 0 0 start 1 5 start 2 5 start 3 8 chain 0 3",
        Err(CheckFault::EndWrong),
    ),
    (
        "end 9 start 0 0 start 1 5 start 2 5 start 3 8 chain 2 3 0",
        Err(CheckFault::ChainStep { s: 3, t: 0 }),
    ),
];

/// Two tests fail, and the one that comes first is reported.
#[test]
fn first_failed_test_is_told(rt: HostRuntime) -> Result<(), Fail> {
    for (claim, wanted) in TWO_FAULTS {
        assert_claim(&rt, rt.alloc(), claim, *wanted)?;
    }
    Ok(())
}
