//! Whole recorded graphs, predecessor by predecessor, and a run with another kernel.
ghost use Rattle.std.specs.Prelude.{◌≡◌, ◌+◌, ◌%◌, ◌^◌, ◌==◌, IfOk, IsTrue, OnErr};

use super::{WORKED, fields_of, new_core};
use crate::tests::{check_graph, graph_of_body};
use dispatch_core::dispatch::Core;
use dispatch_core::kernel::{Kernel, KernelFault, SegResult};
use std::process::Abort;
use std::test::Fail;

/// A program, and the predecessors of each segment.
const PROGRAMS: &[(&str, &str)] = &[
    (
        "task depend(inoutset: x) { work 4 } task depend(inoutset: x) { work 6 } task \
            depend(in: x) { work 1 } task depend(inoutset: x) { work 2 } task depend(out: x) { \
            work 1 }",
        "0:; 1: 0; 2: 0; 3: 2; 4: 2; 5: 1 3 4; 6: 4; 7: 5 6; 8: 6; 9: 7 8; 10: 8; ",
    ),
    (
        "task depend(in: x) depend(inoutset: x) { work 3 } task depend(in: x) depend(inoutset: \
            x) { work 3 }",
        "0:; 1: 0; 2: 0; 3: 1 2; 4: 2; ",
    ),
];

/// In each, the first segment of a task has the task's creator and the last segments of its kept
/// siblings.
#[test]
fn graphs_of_siblings(rt: HostRuntime) -> Result<(), Fail> {
    let alloc = rt.alloc();
    for (body, predecessors) in PROGRAMS {
        check_graph(&rt, alloc, &graph_of_body(alloc, body)?, predecessors)?;
    }
    Ok(())
}

/// Adds the cost to the input, and faults where there is no cost.
struct AddingKernel;

impl Kernel for AddingKernel {
    ghost value_of = { λ segment cost input. (input + cost) % 2 ^ 64 };

    ghost may_fault = { λ segment cost input. cost == 0 };

    fn run(&self, segment: u32, cost: u64, input: u64) -> Result<u64, KernelFault>
        ensures ok { IfOk result (λ value. value ≡ (input + cost) % 2 ^ 64) }
        ensures err { OnErr result (IsTrue (cost == 0)) }
    {
        let _ = segment;
        if cost == 0 {
            return Err(KernelFault);
        }
        Ok(input.wrapping_add(cost))
    }
}

/// Worker 9 starts a segment; answers the input.
fn start_adding(core: &mut Core<AddingKernel>, segment: u32) -> Option<u64> {
    core.start(9, segment).ok()
}

/// Worker 9 finishes a segment with this result.
fn finish_adding(core: &mut Core<AddingKernel>, outcome: SegResult<AddingKernel>) -> bool {
    core.finish(9, outcome).is_ok()
}

/// Worker 9 runs a segment: the segment, its cost, its input and its value are these.
fn check_adding(
    rt: &impl Abort,
    core: &mut Core<AddingKernel>,
    fields: (u32, u64, u64, u64),
) -> Result<(), Fail> {
    let (segment, cost, input, value) = fields;
    assert_eq!(rt; start_adding(core, segment), Some(input));
    let outcome = SegResult::compute(&AddingKernel, segment, cost, input)?;
    assert_eq!(rt; fields_of(&outcome), fields);
    let finished = finish_adding(core, outcome);
    assert_eq!(rt; (finished, core.value(segment)), (true, Some(value)));
    Ok(())
}

/// The segment, the cost, the input and the value of each segment of the worked program.
const ADDED: &[(u32, u64, u64, u64)] = &[(0, 5, 0, 5), (1, 3, 5, 8), (2, 2, 5, 7), (3, 1, 15, 16)];

#[test]
fn a_run_with_another_kernel(rt: HostRuntime) -> Result<(), Fail> {
    assert!(rt; SegResult::compute(&AddingKernel, 0, 0, 7).is_err());
    let mut core = new_core(rt.alloc(), WORKED)?;
    for fields in ADDED {
        check_adding(&rt, &mut core, *fields)?;
    }
    assert!(rt; core.into_graph().is_ok());
    Ok(())
}
