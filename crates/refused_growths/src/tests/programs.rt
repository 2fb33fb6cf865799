//! Segments, siblings, and the dispatch core.
ghost use Rattle.std.specs.Prelude.{◌<◌, ◌≤◌, All};

use super::made_again;
use super::supply::Supply;
use super::texts::program_of;
use depend_table::table::SiblingTable;
use dispatch_core::dispatch::Core;
use dispatch_core::event::Event;
use dispatch_core::graph::Graph;
use dispatch_core::kernel::{MixKernel, SegResult};
use dispatch_core::replay::{in_order, replay};
use std::alloc::{AllocGlobal, Global};
use std::process::Abort;
use std::test::Fail;
use task_program::AllocFault;
use task_program::program::Program;
use task_program::statement::DependKind::{DependIn, DependInOutSet, DependOut};
use task_program::statement::{DependKind, Item};
use task_segments::cut;
use task_segments::table::SegTable;

pub(super) const WORKED: &[u8] = b"omptasks 1\nwork 5 task { work 3 } work 2 taskwait work 1\n";

fn cut_program(alloc: Global, program: &Program) -> Result<SegTable, AllocFault> {
    cut(alloc, program)
}

fn cut_once_more(alloc: Global, supply: &mut Supply, program: &Program) -> Result<SegTable, Fail> {
    supply.before_call();
    match cut_program(alloc, program) {
        Ok(table) => Ok(table),
        Err(_) => {
            supply.refused();
            Ok(cut_program(alloc, program)?)
        }
    }
}

/// The table of a text's program.
pub(super) fn table_of<H: AllocGlobal + Abort>(
    rt: &H,
    supply: &mut Supply,
    text: &[u8],
) -> Result<SegTable, Fail> {
    let program = program_of(rt, supply, text)?;
    cut_once_more(rt.alloc(), supply, &program)
}

/// The graph of a table, or the table back.
fn graph_in_order(alloc: Global, table: SegTable) -> Result<Graph, SegTable> {
    match in_order(alloc, table) {
        Ok(graph) => Ok(graph),
        Err(fault) => Err(fault.table),
    }
}

/// The worked program's graph. Where an allocation is refused, the table comes back.
pub(super) fn graph_of<H: AllocGlobal + Abort>(rt: &H, supply: &mut Supply) -> Result<Graph, Fail> {
    let table = table_of(rt, supply, WORKED)?;
    supply.before_call();
    match graph_in_order(rt.alloc(), table) {
        Ok(graph) => Ok(graph),
        Err(table) => {
            supply.refused();
            made_again(graph_in_order(rt.alloc(), table))
        }
    }
}

/// The graph is that of the worked program.
pub(super) fn assert_worked(rt: &impl Abort, graph: &Graph) {
    assert_eq!(rt; (graph.len(), graph.edges(), graph.work()), (4, 4, 11));
}

fn copy_of(table: &SegTable) -> Result<SegTable, AllocFault> {
    table.copy()
}

fn copied(supply: &mut Supply, table: &SegTable) -> Result<SegTable, Fail> {
    supply.before_call();
    match copy_of(table) {
        Ok(copy) => Ok(copy),
        Err(_) => {
            supply.refused();
            Ok(copy_of(table)?)
        }
    }
}

/// A table and its copy.
pub(super) fn segments<H: AllocGlobal + Abort>(rt: &H, supply: &mut Supply) -> Result<(), Fail> {
    let table = table_of(
        rt,
        supply,
        b"omptasks 1\ntask depend(in: x) { taskgroup { } }",
    )?;
    let copy = copied(supply, &table)?;
    assert_eq!(rt; (table.len(), table.tasks()), (4, 2));
    assert!(rt; table.same(&copy));
    Ok(())
}

fn on(kind: DependKind, name: u32) -> Item {
    Item { kind, name }
}

fn list_kept(table: &SiblingTable, items: &[Item]) -> Result<Vec<u32>, AllocFault> {
    table.kept_siblings(items)
}

/// The siblings that a new one is kept after, before it is one.
fn kept_siblings(
    supply: &mut Supply,
    table: &SiblingTable,
    items: &[Item],
) -> Result<Vec<u32>, Fail> {
    supply.before_call();
    match list_kept(table, items) {
        Ok(kept) => Ok(kept),
        Err(_) => {
            supply.refused();
            Ok(list_kept(table, items)?)
        }
    }
}

/// A sibling more, and the siblings that it is kept after.
fn created(
    rt: &impl Abort,
    supply: &mut Supply,
    table: &mut SiblingTable,
    task: u32,
    items: &[Item],
    wanted: &[u32],
) -> Result<(), Fail>
    requires { All (λ sibling. sibling.task < task) table.old }
    ensures { All (λ sibling. sibling.task ≤ task) table.new }
{
    let siblings = kept_siblings(supply, table, items)?;
    assert_eq!(rt; siblings.as_slice(), wanted, "before task {task}");
    supply.before_call();
    let kept = match table.generate(task, items) {
        Ok(kept) => kept,
        Err(_) => {
            supply.refused();
            table.generate(task, items)?
        }
    };
    assert_eq!(rt; kept.as_slice(), wanted, "of task {task}");
    assert!(rt; kept.capacity() > kept.len(), "room for one more");
    Ok(())
}

/// A refused sibling leaves the table as it was.
pub(super) fn siblings<H: AllocGlobal + Abort>(rt: &H, supply: &mut Supply) -> Result<(), Fail> {
    supply.before_call();
    let mut table = match SiblingTable::new(rt.alloc()) {
        Ok(table) => table,
        Err(_) => {
            supply.refused();
            SiblingTable::new(rt.alloc())?
        }
    };
    let set = on(DependInOutSet, 0);
    let other = on(DependOut, 1);
    created(rt, supply, &mut table, 1, &[set, other], &[])?;
    created(rt, supply, &mut table, 2, &[set], &[])?;
    created(rt, supply, &mut table, 3, &[on(DependIn, 0)], &[1, 2])?;
    created(rt, supply, &mut table, 4, &[set], &[3])?;
    created(
        rt,
        supply,
        &mut table,
        5,
        &[on(DependOut, 0), other],
        &[1, 4],
    )?;
    Ok(())
}

/// A core over a table, or the table back.
fn new_core(alloc: Global, table: SegTable) -> Result<Core<MixKernel>, SegTable> {
    match Core::new(alloc, table) {
        Ok(core) => Ok(core),
        Err(fault) => Err(fault.table),
    }
}

fn core_of<H: AllocGlobal + Abort>(rt: &H, supply: &mut Supply) -> Result<Core<MixKernel>, Fail> {
    let table = table_of(rt, supply, WORKED)?;
    supply.before_call();
    match new_core(rt.alloc(), table) {
        Ok(core) => Ok(core),
        Err(table) => {
            supply.refused();
            made_again(new_core(rt.alloc(), table))
        }
    }
}

/// Starts the first segment, and answers what it computes.
fn started<H: Abort>(rt: &H, core: &mut Core<MixKernel>) -> Result<SegResult<MixKernel>, Fail> {
    assert_eq!(rt; core.start(0, 0).ok(), Some(0));
    match SegResult::compute(&MixKernel, 0, 5, 0) {
        Ok(outcome) => Ok(outcome),
        Err(_) => Err("a fault".into()),
    }
}

/// The segments that a finish makes ready, or its result back.
fn finish(
    core: &mut Core<MixKernel>,
    outcome: SegResult<MixKernel>,
) -> Result<Vec<u32>, SegResult<MixKernel>> {
    match core.finish(0, outcome) {
        Ok(ready) => Ok(ready),
        Err(refusal) => Err(refusal.result),
    }
}

/// The first segment still runs, and its result is the same.
fn assert_unfinished<H: Abort>(rt: &H, core: &Core<MixKernel>, outcome: &SegResult<MixKernel>) {
    assert_eq!(rt; (core.running(0), core.history().len()), (Some(0), 1));
    assert_eq!(rt; (outcome.segment(), outcome.cost()), (0, 5));
    assert_eq!(rt; (outcome.input(), outcome.value()), (0, 781));
}

fn list_ready(core: &Core<MixKernel>) -> Result<Vec<u32>, AllocFault> {
    core.ready()
}

/// The segments that become ready as the first one ends. A refused finish changes nothing, and its
/// result comes back.
fn finished<H: Abort>(
    rt: &H,
    supply: &mut Supply,
    core: &mut Core<MixKernel>,
) -> Result<Vec<u32>, Fail> {
    let outcome = started(rt, core)?;
    supply.before_call();
    match finish(core, outcome) {
        Ok(ready) => Ok(ready),
        Err(outcome) => {
            supply.refused();
            assert_unfinished(rt, core, &outcome);
            made_again(finish(core, outcome))
        }
    }
}

/// The segments that are ready.
fn ready_of(supply: &mut Supply, core: &Core<MixKernel>) -> Result<Vec<u32>, Fail> {
    supply.before_call();
    match list_ready(core) {
        Ok(ready) => Ok(ready),
        Err(_) => {
            supply.refused();
            Ok(list_ready(core)?)
        }
    }
}

/// The first segment's end makes two more ready.
fn assert_ready<H: Abort>(
    rt: &H,
    supply: &mut Supply,
    core: &mut Core<MixKernel>,
) -> Result<(), Fail> {
    let ready = finished(rt, supply, core)?;
    assert_eq!(rt; ready.as_slice(), [1, 2].as_slice());
    let ready = ready_of(supply, core)?;
    assert_eq!(rt; ready.as_slice(), [1, 2].as_slice());
    Ok(())
}

/// A core whose first segment ends.
pub(super) fn core<H: AllocGlobal + Abort>(rt: &H, supply: &mut Supply) -> Result<(), Fail> {
    let mut core = core_of(rt, supply)?;
    assert_ready(rt, supply, &mut core)
}

/// The core after these events, or the table back.
fn replayed(alloc: Global, table: SegTable, events: &[Event]) -> Result<Core<MixKernel>, SegTable> {
    match replay(alloc, table, events) {
        Ok(core) => Ok(core),
        Err((_, table)) => Err(table),
    }
}

/// A list of events.
fn assert_replayed<H: AllocGlobal + Abort>(rt: &H, supply: &mut Supply) -> Result<(), Fail> {
    let table = table_of(rt, supply, WORKED)?;
    let (worker, segment) = (3, 0);
    let events = [
        Event::Start { worker, segment },
        Event::Finish { worker, segment },
    ];
    supply.before_call();
    let core = match replayed(rt.alloc(), table, &events) {
        Ok(core) => core,
        Err(table) => {
            supply.refused();
            made_again(replayed(rt.alloc(), table, &events))?
        }
    };
    assert_eq!(rt; core.history(), events.as_slice());
    Ok(())
}

/// A run in order, and a list of events.
pub(super) fn given_runs<H: AllocGlobal + Abort>(rt: &H, supply: &mut Supply) -> Result<(), Fail> {
    let graph = graph_of(rt, supply)?;
    assert_worked(rt, &graph);
    assert_replayed(rt, supply)
}
