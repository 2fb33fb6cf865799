//! Each call that allocates, whichever of its allocations is refused. Many stand in a small function
//! that has no clauses, so that what comes after them is proved without theirs, and sooner.
mod certificates;
mod commands;
mod large;
mod little_memory;
mod one_growth;
mod programs;
mod runs;
mod schedules;
mod short;
mod supply;
mod texts;
mod threads;
mod turns;

use commands::Command;
use std::alloc::AllocGlobal;
use std::process::Abort;
use std::sync::Wait;
use std::test::Fail;
use std::thread::Threads;
use supply::Supply;

/// The calls that are made one after another. One that is refused is made once more with ample
/// memory, and then has to answer as a first call does.
#[derive(Clone, Copy)]
enum Calls {
    Program,
    Words,
    Input,
    Rows,
    Segments,
    Siblings,
    Core,
    GivenRuns,
    Analysis,
    Span,
    Greedy,
    Curve,
    Trial,
    Certificate,
    Check,
    Lane,
    Run { workers: u32 },
    LargeProgram,
    LargeText,
    LargeLoops,
    Pieces,
    LargeTable,
    LargeShow,
    Of(Command),
}

fn make<H: AllocGlobal + Threads + Wait + Abort + Sync>(
    rt: &H,
    calls: Calls,
    supply: &mut Supply,
) -> Result<(), Fail> {
    match calls {
        Calls::Program => texts::program(rt, supply),
        Calls::Words => texts::words(rt, supply),
        Calls::Input => texts::input(rt, supply),
        Calls::Rows => texts::rows(rt, supply),
        Calls::Segments => programs::segments(rt, supply),
        Calls::Siblings => programs::siblings(rt, supply),
        Calls::Core => programs::core(rt, supply),
        Calls::GivenRuns => programs::given_runs(rt, supply),
        Calls::Analysis => schedules::analysis(rt, supply),
        Calls::Span => schedules::span(rt, supply),
        Calls::Greedy => schedules::greedy_run(rt, supply),
        Calls::Curve => schedules::ends(rt, supply),
        Calls::Trial => schedules::trial(rt, supply),
        Calls::Certificate => certificates::written(rt, supply),
        Calls::Check => certificates::checked(rt, supply),
        Calls::Lane => runs::lane_of_two(rt, supply),
        Calls::Run { workers } => runs::recorded(rt, supply, workers),
        Calls::LargeProgram => large::program(rt, supply),
        Calls::LargeText => large::text(rt, supply),
        Calls::LargeLoops => large::loops(rt, supply),
        Calls::Pieces => large::pieces(rt, supply),
        Calls::LargeTable => large::table(rt, supply),
        Calls::LargeShow => large::shown(rt, supply),
        Calls::Of(command) => commands::report(rt, supply, command),
    }
}

/// What a call answers that is made once more.
fn made_again<T, E: Drop>(answer: Result<T, E>) -> Result<T, Fail> {
    match answer {
        Ok(made) => Ok(made),
        Err(_) => Err("refused twice".into()),
    }
}
