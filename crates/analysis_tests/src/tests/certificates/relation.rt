//! Chains over a pair that must precede, for which a chain of others stands too.
use super::{Answer, assert_answer};
use span_cert::{CheckFault, Checked};
use std::test::Fail;

/// Five siblings on one location, by their segments: 1 and 3 at the same time, then 5, then 7,
/// then 9. The cost of 7 is left out.
const BEFORE: &str =
    "omptasks 1\ntask depend(inoutset: x) { work 4 }\ntask depend(inoutset: x) { work 6 }\n\
    task depend(in: x) { work 1 }\ntask depend(inoutset: x) { work ";

const AFTER: &str = " }\ntask depend(out: x) { work 1 }\n---\n";

/// The numbers of the chain, and what is answered.
const CHAINS: &[(&str, Answer)] = &[
    (
        "0 2 3 5 7 9",
        Ok(Checked {
            segments: 11,
            ends_at: 10,
        }),
    ),
    ("0 2 3 5 9", Err(CheckFault::ChainSum)),
    ("0 2 3 9", Err(CheckFault::ChainSum)),
    ("0 1 3 9", Err(CheckFault::ChainStep { s: 1, t: 3 })),
];

/// Segment 9 has to wait for 5, though the way by 7 stands for that step.
#[test]
fn whole_relation_is_asked(rt: HostRuntime) -> Result<(), Fail> {
    let alloc = rt.alloc();
    for (chain, wanted) in CHAINS {
        let text = format!(in alloc;
            "{BEFORE}2{AFTER}end 10 start 0 0 start 1 0 start 2 0 start 3 0 start 4 0 start 5 6 \
            start 6 0 start 7 7 start 8 0 start 9 9 start 10 0 chain {chain}"
        )?;
        assert_answer(&rt, alloc, text.as_str(), *wanted);
    }
    Ok(())
}

/// Where 7 costs nothing, the chain that leaves it out adds up too.
#[test]
fn chain_may_leave_a_segment_out(rt: HostRuntime) -> Result<(), Fail> {
    let alloc = rt.alloc();
    for chain in ["0 2 3 5 7 9", "0 2 3 5 9"] {
        let text = format!(in alloc;
            "{BEFORE}0{AFTER}end 8 start 0 0 start 1 0 start 2 0 start 3 0 start 4 0 start 5 6 \
            start 6 0 start 7 7 start 8 0 start 9 7 start 10 0 chain {chain}"
        )?;
        assert_answer(
            &rt,
            alloc,
            text.as_str(),
            Ok(Checked {
                segments: 11,
                ends_at: 8,
            }),
        );
    }
    Ok(())
}
