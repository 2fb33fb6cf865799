//! Threads that cannot be started.
use super::programs::{WORKED, table_of};
use super::runs::run_table;
use super::supply::{Left, Supply};
use std::alloc::AllocGlobal;
use std::process::Abort;
use std::sync::Wait;
use std::test::Fail;
use std::thread::Threads;
use worker_run::record::RunFault;

/// Room for the stacks of some threads, and not of 64.
const SOME_STACKS: usize = 1 << 26;

/// The fault of a run by so many workers with room for some stacks, if it has one.
fn fault_by<H: AllocGlobal + Threads + Wait + Abort + Sync>(
    rt: &H,
    supply: &mut Supply,
    workers: u32,
) -> Result<Option<RunFault>, Fail> {
    let table = table_of(rt, supply, WORKED)?;
    supply.begin_turn(Left::Row(SOME_STACKS), 0);
    supply.before_call();
    let told = run_table(rt, table, workers).err();
    supply.restore();
    Ok(told)
}

/// Where there is room for the threads of two workers, but not for those of 64, a run by 64 is out
/// of memory, though the first of them could work off all segments.
#[test]
fn threads_after_the_first_are_refused(rt: HostRuntime) -> Result<(), Fail> {
    let mut supply = Supply::scarce(rt.alloc())?;
    assert_eq!(rt; fault_by(&rt, &mut supply, 2)?, None);
    let told = fault_by(&rt, &mut supply, 64)?;
    assert_eq!(rt; told, Some(RunFault::OutOfMemory));
    Ok(())
}
