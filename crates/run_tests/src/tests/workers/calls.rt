//! That gate, kernel and gate are called once for each segment, in this order, whichever way a run
//! ends, and in which order one worker goes.
use super::{WORKED, answer_of};
use dispatch_core::event::Event;
use dispatch_core::kernel::{Kernel, KernelFault, MixKernel};
use std::alloc::Global;
use std::process::Abort;
use std::sync::Wait;
use std::sync::atomic::{AtomicBool, AtomicU64, Ordering};
use std::test::Fail;
use std::thread::Threads;
use task_program::AllocFault;
use worker_run::gate::{Gate, OpenGate};
use worker_run::record::{RunFault, RunRecord};

/// Gate and kernel of the worked program: a fault in the first call at one segment and no more, and
/// how many of the three calls were made for each segment.
#[derive(Drop)]
struct Watch {
    faulty: Option<u32>,
    calls: [AtomicU64; 4],
    in_order: AtomicBool,
}

impl Watch {
    fn new(faulty: Option<u32>) -> Watch {
        Watch {
            faulty,
            calls: [
                AtomicU64::new(0),
                AtomicU64::new(0),
                AtomicU64::new(0),
                AtomicU64::new(0),
            ],
            in_order: AtomicBool::new(true),
        }
    }

    /// A call for a segment for which so many were made.
    fn call(&self, segment: u32, earlier: u64) {
        let is_next = match self.calls.get(segment as usize) {
            Some(calls) => calls.fetch_add(1, Ordering::SeqCst) == earlier,
            None => false,
        };
        if !is_next {
            self.in_order.store(false, Ordering::SeqCst);
        }
    }

    fn calls_of(&self, segment: u32) -> u64 {
        match self.calls.get(segment as usize) {
            Some(calls) => calls.load(Ordering::SeqCst),
            None => 0,
        }
    }
}

impl Gate for Watch {
    fn before(&self, segment: u32) {
        self.call(segment, 0);
    }

    fn after(&self, segment: u32) {
        self.call(segment, 2);
    }
}

impl Kernel for Watch {
    ghost use Rattle.std.specs.Prelude.{true};
    ghost use Rattle.dispatch_core.specs.Mix.{mix_value};

    ghost value_of = { mix_value };

    ghost may_fault = { λ segment cost input. true };

    fn run(&self, segment: u32, cost: u64, input: u64) -> Result<u64, KernelFault> {
        let is_first = self.calls_of(segment) == 1;
        self.call(segment, 1);
        if is_first && self.faulty == Some(segment) {
            return Err(KernelFault);
        }
        MixKernel.run(segment, cost, input)
    }
}

/// The fault of a run of the worked program under the watch, if it has one.
fn watched<R: Threads + Wait + Abort + Sync>(
    rt: &R,
    alloc: Global,
    watch: &Watch,
    workers: u32,
) -> Result<Option<RunFault>, Fail> {
    let told = answer_of(rt, alloc, WORKED, watch, watch, workers)?;
    assert!(rt;
        watch.in_order.load(Ordering::SeqCst),
        "{workers} workers: gate, kernel, gate"
    );
    Ok(told.err())
}

/// The run was finished, each segment with its three calls.
fn check_finished<R: Threads + Wait + Abort + Sync>(
    rt: &R,
    alloc: Global,
    workers: u32,
) -> Result<(), Fail> {
    let watch = Watch::new(None);
    assert_eq!(rt; watched(rt, alloc, &watch, workers)?, None);
    for segment in 0..4u32 {
        assert_eq!(rt;
            watch.calls_of(segment),
            3,
            "{workers} workers, segment {segment}"
        );
    }
    Ok(())
}

/// Whether so many calls may be made for a segment of the worked program where one faults.
fn fits(faulty: u32, segment: u32, calls: u64) -> bool {
    let precedes = segment == 0 || faulty == 3;
    let follows = faulty == 0 || segment == 3;
    if segment == faulty || precedes {
        calls == 3
    } else if follows {
        calls == 0
    } else {
        calls == 0 || calls == 3
    }
}

/// The run reported the fault: its segment and those that precede it had their three calls, those
/// that follow it none, and no segment a part of them.
fn check_faulted<R: Threads + Wait + Abort + Sync>(
    rt: &R,
    alloc: Global,
    faulty: u32,
    workers: u32,
) -> Result<(), Fail> {
    let watch = Watch::new(Some(faulty));
    let told = watched(rt, alloc, &watch, workers)?;
    assert_eq!(rt;
        told,
        Some(RunFault::Kernel { segment: faulty }),
        "{workers} workers"
    );
    for segment in 0..4u32 {
        let calls = watch.calls_of(segment);
        assert!(rt;
            fits(faulty, segment, calls),
            "fault at {faulty}: {calls} at {segment}"
        );
    }
    Ok(())
}

#[test]
fn calls_for_each_segment(rt: HostRuntime) -> Result<(), Fail> {
    for workers in [1, 2, 64] {
        check_finished(&rt, rt.alloc(), workers)?;
        for faulty in 0..4u32 {
            check_faulted(&rt, rt.alloc(), faulty, workers)?;
        }
    }
    Ok(())
}

/// The segments in the order in which they are started.
fn starts_of(alloc: Global, made: &RunRecord) -> Result<Vec<u32>, AllocFault> {
    let mut starts = Vec::new(alloc);
    for event in made.history.as_slice() {
        if let Event::Start { segment, .. } = *event {
            starts.push(segment)?;
        }
    }
    Ok(starts)
}

/// The segments in the order in which one worker starts them.
fn starts_by_one<R: Threads + Wait + Sync>(
    rt: &R,
    alloc: Global,
    body: &str,
) -> Result<Vec<u32>, Fail> {
    let made = answer_of(rt, alloc, body, &MixKernel, &OpenGate, 1)??;
    Ok(starts_of(alloc, &made)?)
}

/// A program, and its segments in the order in which one worker starts them.
const STARTS: &[(&str, &[u32])] = &[
    (WORKED, &[0, 1, 2, 3]),
    (
        "task depend(out: a) { work 1 } task depend(in: a) { work 1 } task depend(in: a) { work 1 \
        }",
        &[0, 1, 2, 3, 4, 5, 6],
    ),
    (
        "task { work 1 task { work 1 } work 1 } task { work 1 }",
        &[0, 1, 4, 2, 3, 5, 6],
    ),
];

/// Two readers become ready by the end of one writer, and each creation by the segment before it.
/// What is put first goes first, so a task's own child waits for what was ready before it. Of what
/// becomes ready at once the lowest is put first.
#[test]
fn one_worker_goes_first_in_first_out(rt: HostRuntime) -> Result<(), Fail> {
    for (body, starts) in STARTS {
        assert_eq!(rt; starts_by_one(&rt, rt.alloc(), body)?.as_slice(), *starts);
    }
    Ok(())
}
