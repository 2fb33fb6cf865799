//! One allocation is refused, which `checks/hostile/refused_growths.py tests` does from outside: the first, the
//! second, and so on.
use super::commands::{AnySize, Command};
use super::supply::Supply;
use super::{Calls, make};
use std::alloc::AllocGlobal;
use std::process::Abort;
use std::sync::Wait;
use std::test::Fail;
use std::thread::Threads;

/// Makes the calls with ample memory, but for what is refused from outside.
fn make_once<H: AllocGlobal + Threads + Wait + Abort + Sync>(
    rt: &H,
    calls: Calls,
) -> Result<(), Fail> {
    make(rt, calls, &mut Supply::ample(rt.alloc()))
}

#[test]
fn programs(rt: HostRuntime) -> Result<(), Fail> {
    make_once(&rt, Calls::Program)
}

#[test]
fn words(rt: HostRuntime) -> Result<(), Fail> {
    make_once(&rt, Calls::Words)
}

#[test]
fn inputs(rt: HostRuntime) -> Result<(), Fail> {
    make_once(&rt, Calls::Input)
}

#[test]
fn rows(rt: HostRuntime) -> Result<(), Fail> {
    make_once(&rt, Calls::Rows)
}

#[test]
fn segments(rt: HostRuntime) -> Result<(), Fail> {
    make_once(&rt, Calls::Segments)
}

#[test]
fn siblings(rt: HostRuntime) -> Result<(), Fail> {
    make_once(&rt, Calls::Siblings)
}

#[test]
fn cores(rt: HostRuntime) -> Result<(), Fail> {
    make_once(&rt, Calls::Core)
}

#[test]
fn given_runs(rt: HostRuntime) -> Result<(), Fail> {
    make_once(&rt, Calls::GivenRuns)
}

#[test]
fn analyses(rt: HostRuntime) -> Result<(), Fail> {
    make_once(&rt, Calls::Analysis)
}

#[test]
fn spans(rt: HostRuntime) -> Result<(), Fail> {
    make_once(&rt, Calls::Span)
}

#[test]
fn greedy_runs(rt: HostRuntime) -> Result<(), Fail> {
    make_once(&rt, Calls::Greedy)
}

#[test]
fn curves(rt: HostRuntime) -> Result<(), Fail> {
    make_once(&rt, Calls::Curve)
}

#[test]
fn trials(rt: HostRuntime) -> Result<(), Fail> {
    make_once(&rt, Calls::Trial)
}

#[test]
fn certificates(rt: HostRuntime) -> Result<(), Fail> {
    make_once(&rt, Calls::Certificate)
}

#[test]
fn checks(rt: HostRuntime) -> Result<(), Fail> {
    make_once(&rt, Calls::Check)
}

#[test]
fn lanes(rt: HostRuntime) -> Result<(), Fail> {
    make_once(&rt, Calls::Lane)
}

#[test]
fn one_worker(rt: HostRuntime) -> Result<(), Fail> {
    make_once(&rt, Calls::Run { workers: 1 })
}

#[test]
fn two_workers(rt: HostRuntime) -> Result<(), Fail> {
    make_once(&rt, Calls::Run { workers: 2 })
}

#[test]
fn large_programs(rt: HostRuntime) -> Result<(), Fail> {
    make_once(&rt, Calls::LargeProgram)
}

#[test]
fn large_texts(rt: HostRuntime) -> Result<(), Fail> {
    make_once(&rt, Calls::LargeText)
}

#[test]
fn large_loops(rt: HostRuntime) -> Result<(), Fail> {
    make_once(&rt, Calls::LargeLoops)
}

#[test]
fn pieces(rt: HostRuntime) -> Result<(), Fail> {
    make_once(&rt, Calls::Pieces)
}

#[test]
fn large_table(rt: HostRuntime) -> Result<(), Fail> {
    make_once(&rt, Calls::LargeTable)
}

#[test]
fn large_show(rt: HostRuntime) -> Result<(), Fail> {
    make_once(&rt, Calls::LargeShow)
}

#[test]
fn command_span(rt: HostRuntime) -> Result<(), Fail> {
    make_once(&rt, Calls::Of(Command::Span))
}

#[test]
fn command_show(rt: HostRuntime) -> Result<(), Fail> {
    make_once(&rt, Calls::Of(Command::Show))
}

#[test]
fn command_slack(rt: HostRuntime) -> Result<(), Fail> {
    make_once(&rt, Calls::Of(Command::Slack))
}

#[test]
fn command_greedy(rt: HostRuntime) -> Result<(), Fail> {
    make_once(&rt, Calls::Of(Command::Greedy))
}

#[test]
fn command_curve(rt: HostRuntime) -> Result<(), Fail> {
    make_once(&rt, Calls::Of(Command::Curve))
}

#[test]
fn command_whatif(rt: HostRuntime) -> Result<(), Fail> {
    make_once(&rt, Calls::Of(Command::WhatIf))
}

#[test]
fn command_certify(rt: HostRuntime) -> Result<(), Fail> {
    make_once(&rt, Calls::Of(Command::Certify))
}

#[test]
fn command_run(rt: HostRuntime) -> Result<(), Fail> {
    make_once(&rt, Calls::Of(Command::Run))
}

#[test]
fn command_check(rt: HostRuntime) -> Result<(), Fail> {
    make_once(&rt, Calls::Of(Command::Check))
}

#[test]
fn command_replay(rt: HostRuntime) -> Result<(), Fail> {
    make_once(&rt, Calls::Of(Command::Replay))
}

#[test]
fn command_large_numbers(rt: HostRuntime) -> Result<(), Fail> {
    make_once(&rt, Calls::Of(Command::AnySize(AnySize::Numbers)))
}

#[test]
fn command_large_bounds(rt: HostRuntime) -> Result<(), Fail> {
    make_once(&rt, Calls::Of(Command::AnySize(AnySize::Bounds)))
}

#[test]
fn command_large_slack(rt: HostRuntime) -> Result<(), Fail> {
    make_once(&rt, Calls::Of(Command::AnySize(AnySize::Slack)))
}

#[test]
fn command_large_greedy(rt: HostRuntime) -> Result<(), Fail> {
    make_once(&rt, Calls::Of(Command::AnySize(AnySize::Greedy)))
}

#[test]
fn command_large_curve(rt: HostRuntime) -> Result<(), Fail> {
    make_once(&rt, Calls::Of(Command::AnySize(AnySize::Curve)))
}

#[test]
fn command_large_whatif(rt: HostRuntime) -> Result<(), Fail> {
    make_once(&rt, Calls::Of(Command::AnySize(AnySize::WhatIf)))
}

#[test]
fn command_large_graph(rt: HostRuntime) -> Result<(), Fail> {
    make_once(&rt, Calls::Of(Command::AnySize(AnySize::Graph)))
}

#[test]
fn command_large_version(rt: HostRuntime) -> Result<(), Fail> {
    make_once(&rt, Calls::Of(Command::AnySize(AnySize::Version)))
}

#[test]
fn command_large_listed(rt: HostRuntime) -> Result<(), Fail> {
    make_once(&rt, Calls::Of(Command::AnySize(AnySize::Listed)))
}

#[test]
fn command_large_replay(rt: HostRuntime) -> Result<(), Fail> {
    make_once(&rt, Calls::Of(Command::AnySize(AnySize::Replay)))
}
