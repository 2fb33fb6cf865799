//! Whole runs, with values of the mixing kernel that were computed apart from this program.
use super::{
    WORKED, WORKED_PREDS, check_preds, check_ready, check_refusal, check_start, check_worked_graph,
    event_count, finish_on, finished_graph, mixed_result, new_core, start_on, unfinished_core,
};
use crate::tests::{check_graph, graph_of_body};
use dispatch_core::dispatch::Core;
use dispatch_core::event::FinishKind;
use dispatch_core::graph::Graph;
use dispatch_core::kernel::MixKernel;
use std::alloc::Global;
use std::process::Abort;
use std::test::Fail;
use task_program::AllocFault;
use task_segments::table::SegTable;

/// The cost of a segment.
fn cost_of(table: &SegTable, segment: u32) -> Result<u64, Fail> {
    if segment >= table.len() {
        return Err("no segment of this number".into());
    }
    Ok(table.cost(segment))
}

/// Starts and finishes a segment on a worker; answers the segments that become ready.
fn step(core: &mut Core<MixKernel>, worker: u32, segment: u32) -> Result<Vec<u32>, Fail> {
    let cost = cost_of(core.table(), segment)?;
    let input = start_on(core, worker, segment)?;
    finish_on(core, worker, segment, cost, input)
}

/// A run of a program in which worker 63 ran so many segments, in order.
fn run_in_order(alloc: Global, body: &str, segments: u32) -> Result<Core<MixKernel>, Fail> {
    let mut core = new_core(alloc, body)?;
    for segment in 0..segments {
        step(&mut core, 63, segment)?;
    }
    Ok(core)
}

/// The run's values are these, of segments 0, 1, ..
fn check_values(rt: &impl Abort, core: &Core<MixKernel>, values: &[u64], body: &str) {
    for segment in 0..core.table().len() {
        let value = values.get(segment as usize).copied();
        assert_eq!(rt; core.value(segment), value, "of {body}");
    }
}

/// The graph of the finished run has so many edges.
fn check_edges(rt: &impl Abort, core: Core<MixKernel>, edges: u64, body: &str) -> Result<(), Fail> {
    assert_eq!(rt; finished_graph(core)?.edges(), edges, "of {body}");
    Ok(())
}

/// A program, the values of its segments, and the edges of its graph.
const PROGRAMS: &[(&str, &[u64], u64)] = &[
    (
        "work 5 task { work 3 } work 2 taskwait work 1",
        &[781, 97781, 19581, 586826],
        4,
    ),
    ("task { work 1 } task { work 1 }", &[0, 6, 2, 26, 6], 4),
    (
        "task { task if(0) { work 3 } work 1 } work 2",
        &[0, 1, 406, 2051, 106],
        5,
    ),
    (
        "task depend(inoutset: x) { work 4 } task depend(inoutset: x) { work 6 } task \
            depend(in: x) { work 1 } task depend(inoutset: x) { work 2 } task depend(out: x) { \
            work 1 }",
        &[0, 781, 2, 82031, 6, 414116, 12, 10353381, 20, 51767051, 30],
        14,
    ),
];

#[test]
fn values_of_programs(rt: HostRuntime) -> Result<(), Fail> {
    for (body, values, edges) in PROGRAMS {
        let core = run_in_order(rt.alloc(), body, values.len() as u32)?;
        check_values(&rt, &core, *values, body);
        check_edges(&rt, core, *edges, body)?;
    }
    Ok(())
}

/// A worker runs this segment, or none.
fn check_running(rt: &impl Abort, core: &Core<MixKernel>, worker: u32, segment: Option<u32>) {
    assert_eq!(rt; core.running(worker), segment);
}

/// A run of the worked program in which segment 0 is finished and worker 7 runs segment 1.
fn begun_core(rt: &impl Abort, alloc: Global) -> Result<Core<MixKernel>, Fail> {
    let mut core = new_core(alloc, WORKED)?;
    check_ready(rt, &core, &[0])?;
    check_step(rt, &mut core, 0, &[1, 2])?;
    check_start(rt, &mut core, 7, 1, 781)?;
    check_running(rt, &core, 7, Some(1));
    check_running(rt, &core, 0, None);
    Ok(core)
}

/// Segments 2, 1 and 3 are finished after a refused result.
fn check_rest(rt: &impl Abort, core: &mut Core<MixKernel>) -> Result<(), Fail> {
    assert_eq!(rt; event_count(core), 3);
    check_step(rt, core, 2, &[])?;
    let ready = finish_on(core, 7, 1, 3, 781)?;
    assert_eq!(rt; ready.as_slice(), [3].as_slice());
    step(core, 63, 3)?;
    assert!(rt; core.is_finished());
    Ok(())
}

/// What becomes ready, who runs what, and a run that goes on after a refused result.
#[test]
fn a_run_goes_on(rt: HostRuntime) -> Result<(), Fail> {
    let mut core = begun_core(&rt, rt.alloc())?;
    let wrong = (1, 3, 780, 97656);
    check_refusal(&rt, &mut core, 7, wrong, FinishKind::WrongInput)?;
    let mut core = unfinished_core(core)?;
    check_rest(&rt, &mut core)?;
    check_worked_graph(&rt, rt.alloc(), core)
}

#[test]
fn a_mixed_value(rt: HostRuntime) -> Result<(), Fail> {
    assert_eq!(rt; mixed_result(1, 3, 781)?.value(), 97781);
    Ok(())
}

/// Worker 0 runs a segment, and these become ready.
fn check_step(
    rt: &impl Abort,
    core: &mut Core<MixKernel>,
    segment: u32,
    ready: &[u32],
) -> Result<(), Fail> {
    assert_eq!(rt;
        step(core, 0, segment)?.as_slice(),
        ready,
        "after {segment}"
    );
    Ok(())
}

/// These are ready, and segments 3 and 5 have these predecessors, if they are open.
fn check_open(
    rt: &impl Abort,
    core: &Core<MixKernel>,
    ready: &[u32],
    third: Option<&[u32]>,
    fifth: Option<&[u32]>,
) -> Result<(), AllocFault> {
    check_ready(rt, core, ready)?;
    check_preds(rt, core, 3, third);
    check_preds(rt, core, 5, fifth);
    Ok(())
}

/// A segment, those that it makes ready, all that are ready after it, and the predecessors of
/// segments 3 and 5.
const STEPS: &[(u32, &[u32], &[u32], Option<&[u32]>, Option<&[u32]>)] = &[
    (0, &[1, 2], &[1, 2], None, None),
    (2, &[4], &[1, 4], Some(&[1, 2]), None),
    (4, &[6], &[1, 6], Some(&[1, 2]), Some(&[1, 4])),
    (1, &[3, 5], &[3, 5, 6], Some(&[1, 2]), Some(&[1, 4])),
];

/// Readers that open while their writer runs: its finish makes them ready, and they are recorded as
/// they open.
#[test]
fn siblings_open_before_they_are_ready(rt: HostRuntime) -> Result<(), Fail> {
    let body = "task depend(out: x) { } task depend(in: x) { } task depend(in: x) { }";
    let mut core = new_core(rt.alloc(), body)?;
    for (segment, becomes, ready, third, fifth) in STEPS {
        check_step(&rt, &mut core, *segment, *becomes)?;
        check_open(&rt, &core, *ready, *third, *fifth)?;
    }
    Ok(())
}

/// Other costs in the graph of the worked program.
fn change_costs(rt: &impl Abort, graph: &mut Graph) -> Result<(), Fail> {
    if graph.len() != 4 {
        return Err("four segments".into());
    }
    assert_eq!(rt; (graph.cost(0), graph.cost(3)), (5, 1));
    graph.set_costs(&[1, 2, 3, 4]);
    Ok(())
}

#[test]
fn changed_costs(rt: HostRuntime) -> Result<(), Fail> {
    let alloc = rt.alloc();
    let mut graph = graph_of_body(alloc, WORKED)?;
    change_costs(&rt, &mut graph)?;
    assert_eq!(rt; graph.work(), 10);
    Ok(check_graph(&rt, alloc, &graph, WORKED_PREDS)?)
}

/// As many children as the first number write together, and then as many as the second read.
fn children(alloc: Global, writers: u32, readers: u32) -> Result<String, AllocFault> {
    let mut body = String::new(alloc);
    for _ in 0..writers {
        body.push_str("task depend(inoutset: x) { }\n")?;
    }
    for _ in 0..readers {
        body.push_str("task depend(in: x) { }\n")?;
    }
    Ok(body)
}

/// Many children on one name: each of the second half is recorded after each of the first.
#[test]
fn many_children(rt: HostRuntime) -> Result<(), Fail> {
    let body = children(rt.alloc(), 2047, 2048)?;
    let graph = graph_of_body(rt.alloc(), body.as_str())?;
    assert_eq!(rt; (graph.len(), graph.edges()), (8191, 4_200_446));
    Ok(())
}
