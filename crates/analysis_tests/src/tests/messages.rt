//! The messages of faults other than out of memory.

use dispatch_core::kernel::KernelFault;
use greedy_sim::greedy::GreedyFault;
use large_text::fault::LargeFault;
use span_cert::{CheckFault, WriteFault};
use std::alloc::Global;
use std::fmt::Display;
use std::process::Abort;
use std::test::Fail;
use task_program::fault::ReadKind;
use whatif_costs::fault::WhatFault;
use worker_run::record::RunFault;

/// Asserts what a fault says.
fn assert_message<T: Display>(
    rt: &impl Abort,
    alloc: Global,
    fault: &T,
    wanted: &str,
) -> Result<(), Fail> {
    assert_eq!(rt; format!(in alloc; "{}", *fault)?.as_str(), wanted);
    Ok(())
}

#[test]
fn messages(rt: HostRuntime) -> Result<(), Fail> {
    let alloc = rt.alloc();
    assert_message(
        &rt,
        alloc,
        &CheckFault::Broken { s: 1, t: 3 },
        "segment 3 starts before segment 1 ends",
    )?;
    assert_message(
        &rt,
        alloc,
        &CheckFault::ChainStep { s: 1, t: 3 },
        "segment 3 does not have to wait for segment 1",
    )?;
    assert_message(
        &rt,
        alloc,
        &WriteFault::Device,
        "the certificate was not written whole",
    )?;
    assert_message(
        &rt,
        alloc,
        &GreedyFault::ThreadCount,
        "the number of threads is not 1 to 1,024",
    )?;
    assert_message(&rt, alloc, &WhatFault::UnknownSegment, "unknown segment")?;
    assert_message(&rt, alloc, &WhatFault::CostTooLarge, "cost too large")?;
    assert_message(&rt, alloc, &WhatFault::WorkTooLarge, "work too large")?;
    assert_message(&rt, alloc, &KernelFault, "the kernel faulted")?;
    assert_message(
        &rt,
        alloc,
        &RunFault::WorkerCount,
        "the number of workers is not from 1 to 64",
    )?;
    assert_message(
        &rt,
        alloc,
        &RunFault::Kernel { segment: 3 },
        "the kernel faulted at segment 3",
    )?;
    let kind = ReadKind::Unopened;
    let line = 4_294_967_298;
    assert_message(
        &rt,
        alloc,
        &LargeFault { kind, line },
        "line 4294967298: Unopened",
    )
}
