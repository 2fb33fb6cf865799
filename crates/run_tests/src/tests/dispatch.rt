//! Worked runs, as the rules of tasks give them by hand.
mod graphs;
mod runs;

use crate::tests::{check_graph, graph_of_body, table_of_body};
use dispatch_core::dispatch::Core;
use dispatch_core::event::{Event, FinishKind, StartRefusal};
use dispatch_core::graph::Graph;
use dispatch_core::kernel::{Kernel, MixKernel, SegResult};
use dispatch_core::replay::{ReplayFault, ReplayRefusal, replay};
use std::alloc::Global;
use std::process::Abort;
use std::test::Fail;
use task_program::AllocFault;

/// The worked program, by its body.
const WORKED: &str = "work 5 task { work 3 } work 2 taskwait work 1";

/// The predecessors of the worked program's segments.
const WORKED_PREDS: &str = "0:; 1: 0; 2: 0; 3: 1 2; ";

fn start(worker: u32, segment: u32) -> Event {
    Event::Start { worker, segment }
}

fn finish(worker: u32, segment: u32) -> Event {
    Event::Finish { worker, segment }
}

/// The segment, the cost, the input and the value.
fn fields_of<K: Kernel>(outcome: &SegResult<K>) -> (u32, u64, u64, u64) {
    (
        outcome.segment(),
        outcome.cost(),
        outcome.input(),
        outcome.value(),
    )
}

/// A run of a program's table that has not begun.
fn new_core<K: Kernel>(alloc: Global, body: &str) -> Result<Core<K>, Fail> {
    match Core::new(alloc, table_of_body(alloc, body)?) {
        Ok(core) => Ok(core),
        Err(_) => Err("out of memory".into()),
    }
}

/// A run of the worked program, by its events.
fn worked_run(alloc: Global, events: &[Event]) -> Result<Core<MixKernel>, Fail> {
    match replay(alloc, table_of_body(alloc, WORKED)?, events) {
        Ok(core) => Ok(core),
        Err(_) => Err("refused".into()),
    }
}

/// Starts a segment on a worker; answers the segment's input.
fn start_on(core: &mut Core<MixKernel>, worker: u32, segment: u32) -> Result<u64, Fail> {
    match core.start(worker, segment) {
        Ok(input) => Ok(input),
        Err(_) => Err("the start is refused".into()),
    }
}

/// The result of a segment of this cost and input.
fn mixed_result(segment: u32, cost: u64, input: u64) -> Result<SegResult<MixKernel>, Fail> {
    Ok(SegResult::compute(&MixKernel, segment, cost, input)?)
}

/// The worker starts the segment, on this input.
fn check_start(
    rt: &impl Abort,
    core: &mut Core<MixKernel>,
    worker: u32,
    segment: u32,
    input: u64,
) -> Result<(), Fail> {
    assert_eq!(rt; start_on(core, worker, segment)?, input);
    Ok(())
}

/// How many events were accepted.
fn event_count(core: &Core<MixKernel>) -> usize {
    core.history().len()
}

/// Finishes a segment of this cost and input on a worker; answers the segments that become ready.
fn finish_on(
    core: &mut Core<MixKernel>,
    worker: u32,
    segment: u32,
    cost: u64,
    input: u64,
) -> Result<Vec<u32>, Fail> {
    match core.finish(worker, mixed_result(segment, cost, input)?) {
        Ok(ready) => Ok(ready),
        Err(_) => Err("the finish is refused".into()),
    }
}

/// A worker's result is refused, for this reason, and given back with these fields.
fn check_refusal(
    rt: &impl Abort,
    core: &mut Core<MixKernel>,
    worker: u32,
    fields: (u32, u64, u64, u64),
    kind: FinishKind,
) -> Result<(), Fail> {
    let (segment, cost, input, _) = fields;
    let outcome = mixed_result(segment, cost, input)?;
    let refusal = core.finish(worker, outcome).err().ok_or("accepted")?;
    assert_eq!(rt; refusal.kind, kind);
    assert_eq!(rt; fields_of(&refusal.result), fields);
    Ok(())
}

/// These segments are ready.
fn check_ready(rt: &impl Abort, core: &Core<MixKernel>, ready: &[u32]) -> Result<(), AllocFault> {
    assert_eq!(rt; core.ready()?.as_slice(), ready);
    Ok(())
}

/// A segment has these predecessors, or none yet where it is not open.
fn check_preds(rt: &impl Abort, core: &Core<MixKernel>, segment: u32, preds: Option<&[u32]>) {
    assert_eq!(rt; core.preds_of(segment), preds, "of segment {segment}");
}

/// The graph of a finished run.
fn finished_graph(core: Core<MixKernel>) -> Result<Graph, Fail> {
    match core.into_graph() {
        Ok(graph) => Ok(graph),
        Err(_) => Err("unfinished".into()),
    }
}

/// The run that an unfinished run is given back as.
fn unfinished_core(core: Core<MixKernel>) -> Result<Core<MixKernel>, Fail> {
    match core.into_graph() {
        Ok(_) => Err("a graph".into()),
        Err(unfinished) => Ok(unfinished.core),
    }
}

/// The finished run of the worked program has the program's graph.
fn check_worked_graph(rt: &impl Abort, alloc: Global, core: Core<MixKernel>) -> Result<(), Fail> {
    Ok(check_graph(rt, alloc, &finished_graph(core)?, WORKED_PREDS)?)
}

/// The finished run of the worked program has these events, and the program's graph.
fn check_worked_record(
    rt: &impl Abort,
    alloc: Global,
    core: Core<MixKernel>,
    events: &[Event],
) -> Result<(), Fail> {
    match core.into_record() {
        Ok((history, graph)) => {
            assert_eq!(rt; history.as_slice(), events);
            Ok(check_graph(rt, alloc, &graph, WORKED_PREDS)?)
        }
        Err(_) => Err("unfinished".into()),
    }
}

#[test]
fn worked_program_in_order(rt: HostRuntime) -> Result<(), Fail> {
    let alloc = rt.alloc();
    let graph = graph_of_body(alloc, WORKED)?;
    assert_eq!(rt; (graph.len(), graph.edges(), graph.work()), (4, 4, 11));
    Ok(check_graph(&rt, alloc, &graph, WORKED_PREDS)?)
}

/// A run of the worked program by two workers.
const EVENTS: &[Event] = &[
    Event::Start {
        worker: 0,
        segment: 0,
    },
    Event::Finish {
        worker: 0,
        segment: 0,
    },
    Event::Start {
        worker: 0,
        segment: 2,
    },
    Event::Finish {
        worker: 0,
        segment: 2,
    },
    Event::Start {
        worker: 1,
        segment: 1,
    },
    Event::Finish {
        worker: 1,
        segment: 1,
    },
    Event::Start {
        worker: 0,
        segment: 3,
    },
    Event::Finish {
        worker: 0,
        segment: 3,
    },
];

#[test]
fn worked_replay(rt: HostRuntime) -> Result<(), Fail> {
    let core = worked_run(rt.alloc(), EVENTS)?;
    let state = (core.is_finished(), event_count(&core), core.value(0));
    assert_eq!(rt; state, (true, 8, Some(781)));
    check_worked_record(&rt, rt.alloc(), core, EVENTS)
}

/// The same run, cut short after its first segment.
#[test]
fn replay_cut_short(rt: HostRuntime) -> Result<(), Fail> {
    let core = worked_run(rt.alloc(), &[start(0, 0), finish(0, 0)])?;
    assert!(rt; !core.is_finished());
    check_ready(&rt, &core, &[1, 2])?;
    check_preds(&rt, &core, 2, Some(&[0]));
    check_preds(&rt, &core, 3, None);
    Ok(())
}

/// Why a start is refused, as the first event of the worked program.
fn refusal_of(alloc: Global, event: Event) -> Result<ReplayFault, Fail> {
    match replay(alloc, table_of_body(alloc, WORKED)?, &[event]) {
        Ok(_) => Err("accepted".into()),
        Err((fault, _)) => Ok(fault),
    }
}

/// This start is refused as the first event of the worked program, for this reason.
fn check_refused(
    rt: &impl Abort,
    alloc: Global,
    event: Event,
    refusal: StartRefusal,
) -> Result<(), Fail> {
    let wanted = ReplayFault::At {
        index: 0,
        refusal: ReplayRefusal::OfStart(refusal),
    };
    assert_eq!(rt; refusal_of(alloc, event)?, wanted);
    Ok(())
}

#[test]
fn refused_events(rt: HostRuntime) -> Result<(), Fail> {
    let alloc = rt.alloc();
    check_refused(&rt, alloc, start(64, 0), StartRefusal::UnknownWorker)?;
    check_refused(&rt, alloc, start(0, 4), StartRefusal::UnknownSegment)?;
    check_refused(&rt, alloc, start(0, 3), StartRefusal::NotReady { pred: 1 })
}

/// A worker, a result, and why it is refused.
const REFUSALS: &[(u32, (u32, u64, u64, u64), FinishKind)] = &[
    (0, (2, 2, 781, 19581), FinishKind::NotRunning),
    (0, (1, 4, 781, 488906), FinishKind::WrongCost),
    (0, (1, 3, 0, 156), FinishKind::WrongInput),
    (1, (1, 3, 781, 97781), FinishKind::NotRunning),
];

/// Results that are refused while worker 0 runs segment 1 of the worked program.
fn check_refusals(rt: &impl Abort, core: &mut Core<MixKernel>) -> Result<(), Fail> {
    for (worker, fields, kind) in REFUSALS {
        check_refusal(rt, core, *worker, *fields, *kind)?;
        assert_eq!(rt; event_count(core), 3);
    }
    Ok(())
}

/// Worker 0 finishes segment 1 and runs the others.
fn finish_worked(rt: &impl Abort, core: &mut Core<MixKernel>) -> Result<(), Fail> {
    assert_eq!(rt; finish_on(core, 0, 1, 3, 781)?.len(), 0);
    for (segment, cost) in [(2, 2), (3, 1)] {
        let input = start_on(core, 0, segment)?;
        finish_on(core, 0, segment, cost, input)?;
    }
    Ok(())
}

/// After these refusals the run is unfinished, is given back so, and goes on.
#[test]
fn results_refused_in_a_run(rt: HostRuntime) -> Result<(), Fail> {
    let mut core = worked_run(rt.alloc(), &[start(0, 0), finish(0, 0)])?;
    check_start(&rt, &mut core, 0, 1, 781)?;
    check_refusals(&rt, &mut core)?;
    let mut core = unfinished_core(core)?;
    assert_eq!(rt; event_count(&core), 3);
    finish_worked(&rt, &mut core)?;
    check_worked_graph(&rt, rt.alloc(), core)
}
