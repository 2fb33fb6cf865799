//! Texts of version 2, and what the commands write of them.

use super::{all_answer, all_give, gives};
use spanprof_command::Status;
use std::alloc::AllocGlobal;
use std::sync::Wait;
use std::test::Fail;
use std::thread::Threads;

const CHAIN: &str =
    "omptasks 2\nfor i 1 3 { task depend(in: x[i-1]) depend(out: x[i]) { work 2 } }";

const SHOWN: &str = "omptasks 2\ntask depend(in: x[0]) depend(out: x[1]) {\nwork 2\n}\n\
    task depend(in: x[1]) depend(out: x[2]) {\nwork 2\n}\ntask depend(in: x[2]) depend(out: x[3]) \
    {\nwork 2\n}\n";

const UNDER_FINAL: &str = "omptasks 2\ntask final(1) { task { work 3 } work 1 } work 2";

const CLAIM: &str =
    "---\nend 6\nstart 0 0\nstart 1 0\nstart 2 0\nstart 3 2\nstart 4 0\nstart 5 4\nstart 6 0\n\
    chain 0 1 3 5\n";

/// A body, and the report on it.
const MEASURES: &[(&str, &str)] = &[
    (
        "for i 1 3 { task depend(in: x[i-1]) depend(out: x[i]) { work 2 } }",
        "segments 7\nwork 6\nspan 6\n",
    ),
    ("for i 3 1 { work 5 }", "segments 1\nwork 0\nspan 0\n"),
    (
        "task final(1) { task { work 3 } work 1 } work 2",
        "segments 5\nwork 6\nspan 4\n",
    ),
    (
        "task final(0) { task { work 3 } work 1 } work 2",
        "segments 5\nwork 6\nspan 3\n",
    ),
    (
        "task final(1) { task if(1) { task { work 1 } work 1 } work 1 }",
        "segments 7\nwork 3\nspan 3\n",
    ),
    (
        "task { task if(1) { task { work 1 } work 1 } work 1 }",
        "segments 7\nwork 3\nspan 1\n",
    ),
    ("for i 0 65535 { }", "segments 1\nwork 0\nspan 0\n"),
    ("", "segments 1\nwork 0\nspan 0\n"),
    (
        "task depend(out: x[-1]) { }",
        "segments 3\nwork 0\nspan 0\n",
    ),
];

#[test]
fn measures_of_loops(rt: HostRuntime) -> Result<(), Fail> {
    all_give(
        &rt,
        &["spanprof", "span"],
        "omptasks 2\n",
        MEASURES,
        Status::Done,
    )?;
    Ok(())
}

/// A text, and the line that is printed.
const REFUSED_LOOPS: &[(&str, &str)] = &[
    (
        "omptasks 2\nfor i 0 65536 { }",
        "error: line 2: TooManyTurns\n",
    ),
    (
        "omptasks 2\ntask depend(in: x[j]) { }",
        "error: line 2: BadWord\n",
    ),
    (
        "omptasks 1\nfor i 1 3 { task depend(in: x[i-1]) depend(out: x[i]) { work 2 } }",
        "error: line 2: BadWord\n",
    ),
    ("omptasks 3\nfor i 1 3 { }", "error: line 1: BadHeader\n"),
];

/// The words of commands.
const COMMANDS: &[&[&str]] = &[
    &["spanprof", "span"],
    &["spanprof", "show"],
    &["spanprof", "slack"],
    &["spanprof", "certify"],
    &["spanprof", "check"],
    &["spanprof", "run", "--workers", "2"],
];

#[test]
fn refused_loops(rt: HostRuntime) -> Result<(), Fail> {
    for words in COMMANDS {
        all_give(&rt, *words, "", REFUSED_LOOPS, Status::Refused)?;
    }
    Ok(())
}

/// A text, and its canonical text.
const SHOWN_LOOPS: &[(&str, &str)] = &[
    (CHAIN, SHOWN),
    (SHOWN, SHOWN),
    (
        "omptasks 2\ntask depend(out: x[-1]) { }",
        "omptasks 2\ntask depend(out: x[-1]) {\n}\n",
    ),
    (
        UNDER_FINAL,
        "omptasks 2\ntask {\ntask if(0) {\nwork 3\n}\nwork 1\n}\nwork 2\n",
    ),
];

#[test]
fn shown_loops(rt: HostRuntime) -> Result<(), Fail> {
    all_give(&rt, &["spanprof", "show"], "", SHOWN_LOOPS, Status::Done)?;
    Ok(())
}

/// A `final(1)` makes its task's child undeferred, so segment 3 waits for it and segment 4 for
/// nothing.
#[test]
fn slack_under_final(rt: HostRuntime) -> Result<(), Fail> {
    let table =
        "segment,task,cost,start,slack,chain\n0,0,0,0,0,1\n1,1,0,0,0,1\n2,2,3,0,0,1\n3,1,1,3,0,1\n\
        4,0,2,0,2,0\n";
    let words = ["spanprof", "slack"];
    assert!(rt; gives(&rt, &words, UNDER_FINAL, table, Status::Done)?);
    Ok(())
}

/// Whether `certify` gives the claim after the text that is shown.
fn certifies<H: AllocGlobal + Threads + Wait + Sync>(rt: &H) -> Result<bool, Fail> {
    let certificate = format!(in rt.alloc(); "{SHOWN}{CLAIM}")?;
    let certify = ["spanprof", "certify"];
    gives(rt, &certify, CHAIN, certificate.as_str(), Status::Done)
}

/// Whether `check` accepts the claim after this program and this much between them.
fn accepts<H: AllocGlobal + Threads + Wait + Sync>(
    rt: &H,
    program: &str,
    between: &str,
) -> Result<bool, Fail> {
    let document = format!(in rt.alloc(); "{program}{between}{CLAIM}")?;
    let accepted = "accepted\nsegments 7\nend 6\n";
    gives(
        rt,
        &["spanprof", "check"],
        document.as_str(),
        accepted,
        Status::Done,
    )
}

#[test]
fn certified_loops(rt: HostRuntime) -> Result<(), Fail> {
    assert!(rt; certifies(&rt)?);
    assert!(rt; accepts(&rt, SHOWN, "")?);
    assert!(rt; accepts(&rt, CHAIN, "\n")?);
    Ok(())
}

#[test]
fn loops_run(rt: HostRuntime) -> Result<(), Fail> {
    let text =
        "segments 7\nedges 8\ndigest 23888\npreds 0\npreds 1 0\npreds 2 0\npreds 3 1 2\npreds 4 2\n\
        preds 5 3 4\npreds 6 4\n";
    let rows: [(&[&str], &str, Status); 2] = [
        (&["1"], text, Status::Done),
        (&["3"], text, Status::Done),
    ];
    all_answer(&rt, &["spanprof", "run", "--workers"], CHAIN, &rows)?;
    Ok(())
}

#[test]
fn runs_under_final(rt: HostRuntime) -> Result<(), Fail> {
    let text =
        "segments 5\nedges 5\ndigest 2564\npreds 0\npreds 1 0\npreds 2 1\npreds 3 1 2\npreds 4 0\n";
    let rows: [(&[&str], &str, Status); 3] = [
        (&["1"], text, Status::Done),
        (&["2"], text, Status::Done),
        (&["64"], text, Status::Done),
    ];
    all_answer(&rt, &["spanprof", "run", "--workers"], UNDER_FINAL, &rows)?;
    Ok(())
}
