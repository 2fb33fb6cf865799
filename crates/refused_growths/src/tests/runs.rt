//! Runs on worker threads, and lanes.
use super::made_again;
use super::programs::{WORKED, table_of};
use super::supply::Supply;
use dispatch_core::kernel::MixKernel;
use std::alloc::AllocGlobal;
use std::process::Abort;
use std::sync::Wait;
use std::test::Fail;
use std::thread::Threads;
use task_segments::table::SegTable;
use worker_run::gate::OpenGate;
use worker_run::lane::{close, lane};
use worker_run::record::{RunFault, RunRecord};
use worker_run::run::{digest, run};

/// A lane with two thieves.
pub(super) fn lane_of_two<H: AllocGlobal + Abort>(rt: &H, supply: &mut Supply) -> Result<(), Fail> {
    supply.before_call();
    let (mut owner, mut thieves) = match lane(rt.alloc(), 3, 2) {
        Ok(ends) => ends,
        Err(_) => {
            supply.refused();
            lane(rt.alloc(), 3, 2)?
        }
    };
    owner.put(1);
    owner.put(2);
    assert_eq!(rt; thieves[1].steal(), Some(1));
    assert_eq!(rt; close(owner, thieves), 1);
    Ok(())
}

/// What a run of a table answers.
pub(super) fn run_table<H: AllocGlobal + Threads + Wait + Sync>(
    rt: &H,
    table: SegTable,
    workers: u32,
) -> Result<RunRecord, RunFault> {
    run(rt, rt.alloc(), table, &MixKernel, &OpenGate, workers)
}

/// A refused run spends its table, so that it is cut anew. A thread that does not start is out of
/// memory too.
pub(super) fn recorded<H: AllocGlobal + Threads + Wait + Abort + Sync>(
    rt: &H,
    supply: &mut Supply,
    workers: u32,
) -> Result<(), Fail> {
    let table = table_of(rt, supply, WORKED)?;
    supply.before_call();
    let made = match run_table(rt, table, workers) {
        Ok(made) => made,
        Err(fault) => {
            supply.refused();
            assert_eq!(rt; fault, RunFault::OutOfMemory);
            let table = table_of(rt, supply, WORKED)?;
            made_again(run_table(rt, table, workers))?
        }
    };
    assert_eq!(rt; digest(made.values.as_slice()), 704969);
    assert_eq!(rt; (made.history.len(), made.graph.edges()), (8, 4));
    Ok(())
}
