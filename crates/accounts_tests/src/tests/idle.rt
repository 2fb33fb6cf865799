//! At which segments of runs of the worked program idle time counts, by hand.
use super::{WORKED, graph_of, times_of};
use dispatch_core::graph::Graph;
use std::alloc::Global;
use std::fmt::Write;
use std::test::Fail;
use time_accounts::account::account_of;
use time_accounts::by_segment::{busy_by_segment, delayed_by_segment, starved_by_segment};
use time_accounts::region::Region;
use time_accounts::times::Times;

/// The threads and the moments of a run, its times, and what counts at each segment.
type Run = ((u32, u64, u64), &'static [(u32, u64, u64)], &'static str);

const RUNS: &[Run] = &[
    // one thread starves while 0 runs, and from 8 on
    (
        (2, 0, 10),
        &[(0, 1, 6), (0, 6, 9), (1, 6, 8), (0, 9, 10)],
        "busy 5 3 2 1 delayed 0 0 0 0 starved 5 1 0 1",
    ),
    // 1 and 2 are ready from 5 on, and 3 from 11 on
    (
        (2, 0, 14),
        &[(0, 0, 5), (0, 6, 9), (0, 9, 11), (1, 12, 13)],
        "busy 5 3 2 1 delayed 0 2 3 2 starved 5 0 2 1",
    ),
    // 2 begins before 1, and has run longest from 7 on
    (
        (3, 0, 12),
        &[(0, 0, 5), (0, 7, 9), (1, 6, 10), (0, 11, 12)],
        "busy 5 2 4 1 delayed 0 5 0 3 starved 10 0 4 2",
    ),
];

/// Adds a number of each segment.
fn add_numbers(text: &mut String, name: &str, numbers: &[u64]) -> Result<(), Fail> {
    if !text.is_empty() {
        write!(text, " ")?;
    }
    write!(text, "{name}")?;
    for number in numbers {
        write!(text, " {number}")?;
    }
    Ok(())
}

/// Adds what counts at each segment of a legal run.
fn add_run(
    text: &mut String,
    alloc: Global,
    graph: &Graph,
    region: Region,
    times: &Times,
) -> Result<(), Fail> {
    match account_of(alloc, graph, region, times) {
        Ok(_) => {}
        Err(_) => return Err("not legal".into()),
    }
    add_numbers(text, "busy", busy_by_segment(alloc, times)?.as_slice())?;
    let delayed = delayed_by_segment(alloc, graph, region, times)?;
    add_numbers(text, "delayed", delayed.as_slice())?;
    let starved = starved_by_segment(alloc, graph, region, times)?;
    add_numbers(text, "starved", starved.as_slice())
}

#[test]
fn idle_by_segment(rt: HostRuntime) -> Result<(), Fail> {
    let alloc = rt.alloc();
    for (within, rows, wanted) in RUNS {
        let graph = graph_of(alloc, WORKED)?;
        let times = times_of(alloc, rows)?;
        let region = Region {
            threads: within.0,
            first: within.1,
            last: within.2,
        };
        let mut text = String::new(alloc);
        add_run(&mut text, alloc, &graph, region, &times)?;
        assert_eq!(&rt; text.as_str(), *wanted);
    }
    Ok(())
}
