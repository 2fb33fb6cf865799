//! Worked runs, as the definitions give them by hand, runs of random programs, and greedy runs.
mod cases;
mod idle;

use crate::tests::cases::{CASES, Case};
use dispatch_core::graph::Graph;
use dispatch_core::replay::in_order;
use greedy_sim::greedy::greedy;
use std::alloc::Global;
use std::fmt::Write;
use std::process::Abort;
use std::test::Fail;
use task_program::read::read_program;
use task_segments::cut;
use time_accounts::account::{Account, account_of};
use time_accounts::fault::TimesFault;
use time_accounts::path::own_path;
use time_accounts::ready::ready_moments;
use time_accounts::region::Region;
use time_accounts::times::Times;

/// The graph of a text's program.
fn graph_of(alloc: Global, text: &str) -> Result<Graph, Fail> {
    let program = read_program(alloc, text.as_bytes())?;
    match in_order(alloc, cut(alloc, &program)?) {
        Ok(graph) => Ok(graph),
        Err(_) => Err("memory".into()),
    }
}

/// The times of these rows.
fn times_of(alloc: Global, rows: &[(u32, u64, u64)]) -> Result<Times, Fail> {
    let mut threads = Vec::new(alloc);
    let mut begins = Vec::new(alloc);
    let mut ends = Vec::new(alloc);
    for (thread, begin, end) in rows {
        threads.push(*thread)?;
        begins.push(*begin)?;
        ends.push(*end)?;
    }
    Ok(Times::new(threads, begins, ends))
}

/// What a time breakdown says.
fn sums(text: &mut String, account: &Account) -> Result<(), Fail> {
    write!(
        text,
        "busy {} delayed {} ",
        account.busy(),
        account.delayed()
    )?;
    write!(
        text,
        "starved {} outside {}",
        account.starved(),
        account.outside()
    )?;
    Ok(())
}

/// What a fault says.
fn fault(text: &mut String, fault: TimesFault) -> Result<(), Fail> {
    match fault {
        TimesFault::ThreadCount => write!(text, "thread count")?,
        TimesFault::Moments => write!(text, "moments")?,
        TimesFault::Count => write!(text, "count")?,
        TimesFault::NoThread(segment) => write!(text, "no thread {segment}")?,
        TimesFault::EndsEarly(segment) => write!(text, "ends early {segment}")?,
        TimesFault::OutOfTime(segment) => write!(text, "out of time {segment}")?,
        TimesFault::TooSoon(segment, before) => write!(text, "too soon {segment} {before}")?,
        TimesFault::NotApart(segment) => write!(text, "not apart {segment}")?,
        TimesFault::OutOfMemory => write!(text, "memory")?,
    }
    Ok(())
}

/// The account of a case.
fn account(alloc: Global, case: &Case) -> Result<Result<Account, TimesFault>, Fail> {
    let graph = graph_of(alloc, case.0)?;
    let times = times_of(alloc, case.2)?;
    let region = Region {
        threads: case.1.0,
        first: case.1.1,
        last: case.1.2,
    };
    Ok(account_of(alloc, &graph, region, &times))
}

/// The path of a run that has as many times as segments.
fn path_of(alloc: Global, graph: &Graph, times: &Times) -> Result<Vec<u32>, Fail> {
    if times.ends().len() != graph.len() as usize {
        return Err("not as many times as segments".into());
    }
    Ok(own_path(alloc, graph, times)?)
}

/// Adds the path of a case.
fn add_path(text: &mut String, alloc: Global, case: &Case) -> Result<(), Fail> {
    let graph = graph_of(alloc, case.0)?;
    let times = times_of(alloc, case.2)?;
    write!(text, " path")?;
    for segment in &path_of(alloc, &graph, &times)? {
        write!(text, " {segment}")?;
    }
    Ok(())
}

/// The report on a case: the sums and the path, or the fault.
fn told(alloc: Global, case: &Case) -> Result<String, Fail> {
    let mut text = String::new(alloc);
    match account(alloc, case)? {
        Ok(found) => {
            sums(&mut text, &found)?;
            add_path(&mut text, alloc, case)?;
        }
        Err(error) => fault(&mut text, error)?,
    }
    Ok(text)
}

const WORKED: &str = "omptasks 1\nwork 5 task { work 3 } work 2 taskwait work 1";

/// In the worked program segment 1 is the child's, and 2 and 3 are the root's after it.
const BY_HAND: &[Case] = &[
    (
        WORKED,
        (2, 0, 10),
        &[(0, 1, 6), (0, 6, 9), (1, 6, 8), (0, 9, 10)],
        "busy 11 delayed 0 starved 7 outside 2 path 0 1 3",
    ),
    (
        WORKED,
        (2, 0, 14),
        &[(0, 0, 5), (0, 6, 9), (0, 9, 11), (1, 12, 13)],
        "busy 11 delayed 7 starved 8 outside 2 path 0 2 3",
    ),
    // both children of segment 0 end last: the path takes the smaller
    (
        WORKED,
        (2, 0, 10),
        &[(0, 0, 5), (0, 5, 9), (1, 5, 9), (0, 9, 10)],
        "busy 14 delayed 0 starved 6 outside 0 path 0 1 3",
    ),
    // a segment that runs at no moment holds no thread
    (
        WORKED,
        (1, 0, 9),
        &[(0, 0, 5), (0, 5, 8), (0, 6, 6), (0, 8, 9)],
        "busy 9 delayed 0 starved 0 outside 0 path 0 1 3",
    ),
    (
        WORKED,
        (1_024, 999_999_999_999_000, 1_000_000_000_000_000),
        &[
            (0, 999_999_999_999_000, 999_999_999_999_100),
            (1_023, 999_999_999_999_100, 999_999_999_999_200),
            (5, 999_999_999_999_100, 999_999_999_999_300),
            (0, 999_999_999_999_300, 1_000_000_000_000_000),
        ],
        "busy 1100 delayed 0 starved 1022900 outside 0 path 0 2 3",
    ),
];

/// Times with several faults: the first is reported.
const FAULTS: &[Case] = &[
    (WORKED, (0, 5, 4), &[], "thread count"),
    (WORKED, (1_025, 0, 9), &[], "thread count"),
    (WORKED, (1, 5, 4), &[], "moments"),
    (WORKED, (1, 0, 1_000_000_000_000_001), &[], "moments"),
    (
        WORKED,
        (1, 0, 9),
        &[(0, 0, 5), (0, 5, 8), (0, 8, 9)],
        "count",
    ),
    (
        WORKED,
        (2, 1, 10),
        &[(0, 1, 5), (2, 0, 4), (0, 9, 8), (7, 0, 11)],
        "no thread 1",
    ),
    (
        WORKED,
        (2, 1, 10),
        &[(0, 1, 5), (1, 11, 4), (2, 9, 8), (7, 0, 11)],
        "ends early 1",
    ),
    (
        WORKED,
        (2, 1, 10),
        &[(0, 1, 5), (1, 5, 6), (1, 5, 6), (1, 5, 11)],
        "out of time 3",
    ),
    (
        WORKED,
        (2, 1, 10),
        &[(0, 0, 5), (1, 4, 6), (1, 5, 6), (2, 5, 10)],
        "out of time 0",
    ),
    // segment 3 begins before both its predecessors have ended
    (
        WORKED,
        (2, 0, 12),
        &[(0, 0, 5), (0, 5, 9), (1, 5, 11), (1, 8, 12)],
        "too soon 3 1",
    ),
    (
        WORKED,
        (2, 0, 12),
        &[(0, 0, 5), (0, 5, 7), (0, 5, 11), (1, 8, 12)],
        "too soon 3 2",
    ),
    (
        WORKED,
        (1, 0, 12),
        &[(0, 0, 5), (0, 5, 8), (0, 5, 7), (0, 8, 12)],
        "not apart 2",
    ),
    (
        WORKED,
        (1, 0, 12),
        &[(0, 0, 5), (0, 6, 8), (0, 5, 7), (0, 8, 12)],
        "not apart 1",
    ),
];

/// Asserts the report on a case.
fn assert_told(rt: &impl Abort, alloc: Global, case: &Case) -> Result<(), Fail> {
    assert_eq!(rt; told(alloc, case)?.as_str(), case.3);
    Ok(())
}

#[test]
fn worked_runs(rt: HostRuntime) -> Result<(), Fail> {
    for case in BY_HAND {
        assert_told(&rt, rt.alloc(), case)?;
    }
    Ok(())
}

#[test]
fn first_faults(rt: HostRuntime) -> Result<(), Fail> {
    for case in FAULTS {
        assert_told(&rt, rt.alloc(), case)?;
    }
    Ok(())
}

#[test]
fn random_runs(rt: HostRuntime) -> Result<(), Fail> {
    for case in CASES {
        assert_told(&rt, rt.alloc(), case)?;
    }
    Ok(())
}

/// When the segments become ready in a run that has as many times as segments.
fn ready_of(alloc: Global, graph: &Graph, times: &Times) -> Result<Vec<u64>, Fail> {
    if times.ends().len() != graph.len() as usize {
        return Err("not as many times as segments".into());
    }
    Ok(ready_moments(alloc, graph, times)?)
}

#[test]
fn when_segments_are_ready(rt: HostRuntime) -> Result<(), Fail> {
    let alloc = rt.alloc();
    let graph = graph_of(alloc, WORKED)?;
    let times = times_of(alloc, &[(0, 1, 6), (0, 6, 9), (1, 7, 11), (0, 12, 13)])?;
    let ready = ready_of(alloc, &graph, &times)?;
    assert_eq!(rt; ready.as_slice(), [0, 6, 6, 11].as_slice());
    Ok(())
}

/// The rows of a greedy run. A segment of cost 0, which has no thread there, runs at no moment.
fn greedy_rows(
    alloc: Global,
    graph: &Graph,
    threads: u32,
) -> Result<(u64, Vec<(u32, u64, u64)>), Fail> {
    let run = greedy(alloc, graph, threads)?;
    let mut rows = Vec::new(alloc);
    for segment in 0..graph.len() {
        let start = run.start(segment);
        let end = start.wrapping_add(graph.cost(segment));
        let thread = match run.thread(segment) {
            Some(thread) => thread,
            None => 0,
        };
        rows.push((thread, start, end))?;
    }
    Ok((run.end(), rows))
}

/// How long the greedy run of a text delays, or a fault.
fn greedy_delay(alloc: Global, text: &str, threads: u32) -> Result<Result<u64, TimesFault>, Fail> {
    let graph = graph_of(alloc, text)?;
    let (last, rows) = greedy_rows(alloc, &graph, threads)?;
    let times = times_of(alloc, rows.as_slice())?;
    let region = Region {
        threads,
        first: 0,
        last,
    };
    match account_of(alloc, &graph, region, &times) {
        Ok(found) => Ok(Ok(found.delayed())),
        Err(error) => Ok(Err(error)),
    }
}

/// A greedy run delays no segment.
#[test]
fn greedy_runs(rt: HostRuntime) -> Result<(), Fail> {
    for case in CASES {
        for threads in 1..4 {
            assert_eq!(rt; greedy_delay(rt.alloc(), case.0, threads)?, Ok(0));
        }
    }
    Ok(())
}
