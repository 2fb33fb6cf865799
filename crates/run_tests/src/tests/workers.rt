//! Worked runs on threads, as the rules of tasks give them by hand, and lanes in one thread.
mod calls;
mod faults;
mod overlap;
mod sleeps;

use crate::tests::{check_graph, graph_of_body, preds_text, table_of_body};
use dispatch_core::dispatch::Core;
use dispatch_core::kernel::{Kernel, MixKernel};
use dispatch_core::replay::replay;
use std::alloc::Global;
use std::fmt::Write;
use std::process::Abort;
use std::sync::Wait;
use std::test::Fail;
use std::thread::Threads;
use worker_run::gate::{Gate, OpenGate};
use worker_run::lane::{close, lane};
use worker_run::record::{RunFault, RunRecord};
use worker_run::run::{digest, run};

/// A program with 4 segments, of which the last waits for the one that a child is.
const WORKED: &str = "work 5 task { work 3 } work 2 taskwait work 1";

/// What a run of a program, by its body, answers.
fn answer_of<K: Kernel, G: Gate, R: Threads + Wait + Sync>(
    rt: &R,
    alloc: Global,
    body: &str,
    kernel: &K,
    gate: &G,
    workers: u32,
) -> Result<Result<RunRecord, RunFault>, Fail> {
    let table = table_of_body(alloc, body)?;
    Ok(run(rt, alloc, table, kernel, gate, workers))
}

/// The record of a run of a program by so many workers.
fn made_by<R: Threads + Wait + Sync>(
    rt: &R,
    alloc: Global,
    body: &str,
    workers: u32,
) -> Result<RunRecord, Fail> {
    Ok(answer_of(rt, alloc, body, &MixKernel, &OpenGate, workers)??)
}

/// This is a record of the worked program.
fn check_worked(rt: &impl Abort, alloc: Global, made: &RunRecord) -> Result<(), Fail> {
    let values = made.values.as_slice();
    assert_eq!(rt; values, [781, 97781, 19581, 586826].as_slice());
    let counts = (digest(values), made.graph.edges(), made.history.len());
    assert_eq!(rt; counts, (704969, 4, 8));
    Ok(check_graph(rt, alloc, &made.graph, "0:; 1: 0; 2: 0; 3: 1 2; ")?)
}

#[test]
fn worked_program_by_any_number_of_workers(rt: HostRuntime) -> Result<(), Fail> {
    let alloc = rt.alloc();
    for workers in [1, 2, 64] {
        check_worked(&rt, alloc, &made_by(&rt, alloc, WORKED, workers)?)?;
    }
    Ok(())
}

#[test]
fn too_few_or_too_many_workers(rt: HostRuntime) -> Result<(), Fail> {
    let alloc = rt.alloc();
    for workers in [0, 65, u32::MAX] {
        match answer_of(&rt, alloc, WORKED, &MixKernel, &OpenGate, workers)? {
            Ok(_) => assert!(rt; false, "a record"),
            Err(fault) => assert_eq!(rt; fault, RunFault::WorkerCount, "{workers} workers"),
        }
    }
    Ok(())
}

/// A program of a few hundred tasks, nested, with waits, groups and dependences.
fn large_body(alloc: Global) -> Result<String, Fail> {
    let mut body = String::new(alloc);
    for turn in 0..60 {
        write!(
            body,
            "task depend(in: a) depend(out: b{turn}) {{ work {turn} task {{ work 7 }} taskwait \
            work 1 }}\n"
        )?;
        write!(
            body,
            "taskgroup {{ task {{ task if(0) {{ work 2 }} work {turn} }} task depend(inout: a) {{ \
            work 3 }} }}\n"
        )?;
        write!(body, "task depend(in: b{turn}, a) {{ work 4 }}\n")?;
    }
    Ok(body)
}

/// The digest of a run by so many workers, which records this graph and a history that replays.
fn checked_digest<R: Threads + Wait + Abort + Sync>(
    rt: &R,
    alloc: Global,
    body: &str,
    workers: u32,
    preds: &str,
) -> Result<u64, Fail> {
    let made = made_by(rt, alloc, body, workers)?;
    check_graph(rt, alloc, &made.graph, preds)?;
    assert!(rt; replays(alloc, body, &made)?, "{workers} workers");
    Ok(digest(made.values.as_slice()))
}

/// The same values, the graph of a run in order, and a history that replays to its end, whatever
/// the number of workers.
#[test]
fn large_program_agrees(rt: HostRuntime) -> Result<(), Fail> {
    let alloc = rt.alloc();
    let body = large_body(alloc)?;
    let preds = preds_text(alloc, &graph_of_body(alloc, body.as_str())?)?;
    let first = checked_digest(&rt, alloc, body.as_str(), 1, preds.as_str())?;
    for workers in [2, 3, 4, 8, 64] {
        let total = checked_digest(&rt, alloc, body.as_str(), workers, preds.as_str())?;
        assert_eq!(rt; first, total, "{workers} workers");
    }
    Ok(())
}

/// Whether the record's history is a run of the program from its start to its end, with the
/// record's values.
fn replays(alloc: Global, body: &str, made: &RunRecord) -> Result<bool, Fail> {
    match replay(alloc, table_of_body(alloc, body)?, made.history.as_slice()) {
        Ok(core) => Ok(core.is_finished() && has_values(&core, made)),
        Err(_) => Err("not legal".into()),
    }
}

/// Whether the run has the record's values.
fn has_values(core: &Core<MixKernel>, made: &RunRecord) -> bool {
    let mut agree = true;
    for segment in 0..made.graph.len() {
        agree = agree && core.value(segment) == made.values.get(segment as usize).copied();
    }
    agree
}

#[test]
fn tokens_of_a_lane(rt: HostRuntime) -> Result<(), Fail> {
    let alloc = rt.alloc();
    let (mut owner, mut thieves) = lane(alloc, 4, 1)?;
    owner.put(3);
    owner.put(5);
    owner.put(7);
    let tokens = (owner.take(), thieves[0].steal(), owner.take());
    assert_eq!(rt; tokens, (Some(3), Some(5), Some(7)));
    assert_eq!(rt; (owner.take(), thieves[0].steal()), (None, None));
    assert_eq!(rt; close(owner, thieves), 0);
    Ok(())
}

#[test]
fn a_token_left_in_a_lane(rt: HostRuntime) -> Result<(), Fail> {
    let (mut owner, none) = lane(rt.alloc(), 2, 0)?;
    owner.put(9);
    assert_eq!(rt; close(owner, none), 1);
    Ok(())
}
