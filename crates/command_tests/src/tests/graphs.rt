//! Tables of slacks and greedy runs, changed costs, and runs on workers.

use super::examples::WORKED;
use super::{all_answer, all_give, gives, repeated};
use spanprof_command::Status;
use std::alloc::AllocGlobal;
use std::process::Abort;
use std::sync::Wait;
use std::test::Fail;
use std::thread::Threads;

const THREE: &str = "omptasks 1\ntask { work 1 } task { work 1 } task { work 2 }";

/// A command with this option gives a table with this heading and each row's text.
fn all_give_tables<H: AllocGlobal + Threads + Wait + Abort + Sync>(
    rt: &H,
    (command, option): (&str, &str),
    heading: &str,
    rows: &[(&str, &str, &str)],
) -> Result<(), Fail> {
    for (number, input, text) in rows {
        let words = ["spanprof", command, option, number];
        let table = format!(in rt.alloc(); "{heading}\n{text}")?;
        assert!(rt;
            gives(rt, &words, input, table.as_str(), Status::Done)?,
            "{input}"
        );
    }
    Ok(())
}

/// A program, and its table of slacks.
const SLACKS: &[(&str, &str)] = &[
    (
        WORKED,
        "segment,task,cost,start,slack,chain\n0,0,5,0,0,1\n1,1,3,5,0,1\n2,0,2,5,1,0\n\
            3,0,1,8,0,1\n",
    ),
    (
        "omptasks 1",
        "segment,task,cost,start,slack,chain\n0,0,0,0,0,1\n",
    ),
    (
        "omptasks 1\nwork 5 task { work 3 } work 2 work 1",
        "segment,task,cost,start,slack,chain\n0,0,5,0,0,1\n1,1,3,5,0,1\n2,0,3,5,0,0\n",
    ),
    (
        "omptasks 1\ntaskgroup { } taskwait",
        "segment,task,cost,start,slack,chain\n0,0,0,0,0,1\n1,0,0,0,0,0\n2,0,0,0,0,0\n",
    ),
    (
        "omptasks 1\ntask depend(inoutset: x) { work 4 } task depend(inoutset: x) { work 6 } \
            task depend(in: x) { work 1 } task depend(inoutset: x) { work 2 } task depend(out: x) \
            { work 1 }",
        "segment,task,cost,start,slack,chain\n0,0,0,0,0,1\n1,1,4,0,2,0\n2,0,0,0,0,1\n\
            3,2,6,0,0,1\n4,0,0,0,6,0\n5,3,1,6,0,1\n6,0,0,0,7,0\n7,4,2,7,0,1\n8,0,0,0,9,0\n\
            9,5,1,9,0,1\n10,0,0,0,10,0\n",
    ),
];

#[test]
fn slacks(rt: HostRuntime) -> Result<(), Fail> {
    let words = ["spanprof", "slack"];
    all_give(&rt, &words, "", SLACKS, Status::Done)?;
    let line = "error: line 2: Unclosed\n";
    assert!(rt; gives(&rt, &words, "omptasks 1\ntask {", line, Status::Refused)?);
    Ok(())
}

/// A number of threads, a program, and the rows of its run.
const GREEDY_RUNS: &[(&str, &str, &str)] = &[
    (
        "2",
        THREE,
        "0,0,0,\n1,0,1,0\n2,0,0,\n3,0,1,1\n4,0,0,\n5,1,3,0\n6,0,0,\n",
    ),
    (
        "1",
        "omptasks 1\ntaskgroup { } taskwait",
        "0,0,0,\n1,0,0,\n2,0,0,\n",
    ),
    (
        "2",
        "omptasks 1\ntask { work 7 } taskgroup { task { work 1 } } work 1",
        "0,0,0,\n1,0,7,0\n2,0,0,\n3,0,1,1\n4,0,0,\n5,1,2,1\n",
    ),
    ("1024", WORKED, "0,0,5,0\n1,5,8,0\n2,5,7,1\n3,8,9,0\n"),
];

#[test]
fn greedy_runs(rt: HostRuntime) -> Result<(), Fail> {
    let heading = "segment,start,end,thread";
    all_give_tables(&rt, ("greedy", "--threads"), heading, GREEDY_RUNS)?;
    Ok(())
}

/// A number of threads, a program, and the rows of its curve.
const CURVES: &[(&str, &str, &str)] = &[
    ("3", THREE, "1,4,4,4\n2,3,2,3\n3,2,2,2\n"),
    ("2", "omptasks 1\nwork 7", "1,7,7,7\n2,7,7,7\n"),
    ("1", "omptasks 1\ntaskgroup { } taskwait", "1,0,0,0\n"),
];

#[test]
fn curves(rt: HostRuntime) -> Result<(), Fail> {
    let heading = "threads,end,least,bound";
    all_give_tables(&rt, ("curve", "--upto"), heading, CURVES)?;
    Ok(())
}

/// So many independent tasks of cost 1 on up to so many threads: as many threads as may be, and as
/// many tasks, with so many runs that several threads of the process make them.
#[test]
fn long_curves(rt: HostRuntime) -> Result<(), Fail> {
    for (count, most) in [(128, 1024), (4096, 16)] {
        let tasks = repeated(rt.alloc(), "task { work 1 }\n", count)?;
        let program = format!(in rt.alloc(); "omptasks 1\n{tasks}")?;
        let mut table = String::new(rt.alloc());
        table.push_str("threads,end,least,bound\n")?;
        for threads in 1..=most {
            let end = (count - 1) / threads + 1;
            let row = format!(in rt.alloc(); "{threads},{end},{end},{end}\n")?;
            table.push_str(row.as_str())?;
        }
        let upto = format!(in rt.alloc(); "{most}")?;
        let words = ["spanprof", "curve", "--upto", upto.as_str()];
        assert!(rt;
            gives(&rt, &words, program.as_str(), table.as_str(), Status::Done)?,
            "{count}"
        );
    }
    Ok(())
}

/// The words give each row's line on a program, and the text's own fault on another text.
fn all_refuse_after_text<H: AllocGlobal + Threads + Wait + Abort + Sync>(
    rt: &H,
    rows: &[(&[&str], &str)],
) -> Result<(), Fail> {
    let unopened = "error: line 2: Unopened\n";
    for (place, (words, line)) in rows.iter().enumerate() {
        assert!(rt; gives(rt, words, WORKED, line, Status::Refused)?, "{place}");
        let is_told = gives(rt, words, "omptasks 1\n}", unopened, Status::Refused)?;
        assert!(rt; is_told, "{place}");
    }
    Ok(())
}

/// Arguments, and the report.
const OUT_OF_RANGE: &[(&[&str], &str)] = &[
    (
        &["spanprof", "greedy", "--threads", "0"],
        "error: ThreadCount\n",
    ),
    (
        &["spanprof", "greedy", "--threads", "1025"],
        "error: ThreadCount\n",
    ),
    (
        &["spanprof", "greedy", "--threads", "4294967295"],
        "error: ThreadCount\n",
    ),
    (
        &["spanprof", "curve", "--upto", "0"],
        "error: ThreadCount\n",
    ),
    (
        &["spanprof", "curve", "--upto", "1025"],
        "error: ThreadCount\n",
    ),
    (
        &["spanprof", "run", "--workers", "0"],
        "error: WorkerCount\n",
    ),
    (
        &["spanprof", "run", "--workers", "65"],
        "error: WorkerCount\n",
    ),
    (&["spanprof", "whatif", "4=1"], "error: UnknownSegment\n"),
];

/// What is out of range is reported only of a text that is a program.
#[test]
fn out_of_range(rt: HostRuntime) -> Result<(), Fail> {
    all_refuse_after_text(&rt, OUT_OF_RANGE)?;
    Ok(())
}

/// Changes, the report on them, and the status.
const TRIED_COSTS: &[(&[&str], &str, Status)] = &[
    (&["2=4"], "work 13\nspan 10\nwas 9\n", Status::Done),
    (&["2=3"], "work 12\nspan 9\nwas 9\n", Status::Done),
    (&["2=4", "1=5"], "work 15\nspan 11\nwas 9\n", Status::Done),
    (&["2=4", "2=2"], "work 11\nspan 9\nwas 9\n", Status::Done),
    (
        &["2=4", "2=2", "0=0"],
        "work 6\nspan 4\nwas 9\n",
        Status::Done,
    ),
    (
        &["2=4", "2=2", "0=0", "1=9", "3=2", "1=3", "3=1"],
        "work 6\nspan 4\nwas 9\n",
        Status::Done,
    ),
    (&["4=1"], "error: UnknownSegment\n", Status::Refused),
    (&["2=4", "4=1"], "error: UnknownSegment\n", Status::Refused),
    (
        &["2=1000000000000001"],
        "error: CostTooLarge\n",
        Status::Refused,
    ),
    (
        &["2=1000000000000000"],
        "error: WorkTooLarge\n",
        Status::Refused,
    ),
    (
        &["9=1000000000000001", "2=1000000000000001"],
        "error: UnknownSegment\n",
        Status::Refused,
    ),
    (
        &["2=1000000000000000", "9=1"],
        "error: WorkTooLarge\n",
        Status::Refused,
    ),
    (
        &["1=2", "2=999999999999992"],
        "work 1000000000000000\nspan 999999999999998\nwas 9\n",
        Status::Done,
    ),
    (
        &["2=999999999999992", "1=2"],
        "error: WorkTooLarge\n",
        Status::Refused,
    ),
    (
        &["2=4", "2=1000000000000001", "9=1", "2=1000000000000000"],
        "error: CostTooLarge\n",
        Status::Refused,
    ),
];

/// Changes are made in their order, up to the first that is refused.
#[test]
fn tried_costs(rt: HostRuntime) -> Result<(), Fail> {
    all_answer(&rt, &["spanprof", "whatif"], WORKED, TRIED_COSTS)?;
    Ok(())
}

/// Changes of two segments, and back and forth.
const TURN: &[&str] = &["2=9", "1=999999999999000", "1=0", "2=4"];

/// Of a thousand changes each segment's last stays.
#[test]
fn many_tried_costs(rt: HostRuntime) -> Result<(), Fail> {
    let mut words = Vec::new(rt.alloc());
    words.push("spanprof")?;
    words.push("whatif")?;
    for _turn in 0..250 {
        for word in TURN {
            words.push(*word)?;
        }
    }
    let text = "work 10\nspan 10\nwas 9\n";
    assert!(rt; gives(&rt, words.as_slice(), WORKED, text, Status::Done)?);
    Ok(())
}

const WORKED_RUN: &str =
    "segments 4\nedges 4\ndigest 704969\npreds 0\npreds 1 0\npreds 2 0\npreds 3 1 2\n";

/// A number of workers, the report, and the status.
const WORKER_RUNS: &[(&[&str], &str, Status)] = &[
    (&["1"], WORKED_RUN, Status::Done),
    (&["2"], WORKED_RUN, Status::Done),
    (&["16"], WORKED_RUN, Status::Done),
    (&["64"], WORKED_RUN, Status::Done),
];

#[test]
fn worker_runs(rt: HostRuntime) -> Result<(), Fail> {
    all_answer(&rt, &["spanprof", "run", "--workers"], WORKED, WORKER_RUNS)?;
    Ok(())
}

/// Costs at, above and far above the most turns that the kernel makes.
const COSTLY: &str = "omptasks 1\nwork 4097 task { work 4096 } taskwait work 1000000000000\n";

const COSTLY_RUN: &str =
    "segments 4\nedges 4\ndigest 5853351162929840137\npreds 0\npreds 1 0\npreds 2 0\npreds 3 1 2\n";

/// The digest was computed apart from this program, with 4,096 turns for each greater cost.
#[test]
fn runs_of_great_costs(rt: HostRuntime) -> Result<(), Fail> {
    let rows: [(&[&str], &str, Status); 2] = [
        (&["1"], COSTLY_RUN, Status::Done),
        (&["2"], COSTLY_RUN, Status::Done),
    ];
    all_answer(&rt, &["spanprof", "run", "--workers"], COSTLY, &rows)?;
    Ok(())
}
