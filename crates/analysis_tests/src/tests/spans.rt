//! Worked programs: their earliest schedules, slacks and chains, as they follow by hand from what
//! must precede what.
ghost use Rattle.std.specs.Prelude.{◌≡◌, length};

mod examples;
mod measured;

use crate::tests::graph_of;
use crate::tests::spans::examples::EXAMPLES;
use dispatch_core::graph::Graph;
use span_analysis::analysis::{Analysis, analyse};
use span_analysis::legal::is_legal;
use span_analysis::span::span_of;
use std::alloc::Global;
use std::fmt::Write;
use std::process::Abort;
use std::test::Fail;
use task_program::AllocFault;

const WORKED_PROGRAM: &str = "omptasks 1\nwork 5 task { work 3 } work 2 taskwait work 1";

/// A program and what is wanted of the analysis of its graph.
struct Worked {
    name: &'static str,
    text: &'static str,
    work: u64,
    span: u64,
    /// Of each segment, its earliest start.
    starts: &'static str,
    /// Of each segment, its slack.
    slacks: &'static str,
    chain: &'static str,
}

static WORKED: [Worked; 13] = [
    Worked {
        name: "an empty body",
        text: "omptasks 1\n",
        work: 0,
        span: 0,
        starts: "0 ",
        slacks: "0 ",
        chain: "0 ",
    },
    Worked {
        name: "the worked program",
        text: WORKED_PROGRAM,
        work: 11,
        span: 9,
        starts: "0 5 5 8 ",
        slacks: "0 0 1 0 ",
        chain: "0 1 3 ",
    },
    Worked {
        name: "the worked program without its wait, where two segments end last",
        text: "omptasks 1\nwork 5 task { work 3 } work 2 work 1",
        work: 11,
        span: 8,
        starts: "0 5 5 ",
        slacks: "0 0 0 ",
        chain: "0 1 ",
    },
    Worked {
        name: "a group and a wait, where nothing costs",
        text: "omptasks 1\ntaskgroup { } taskwait",
        work: 0,
        span: 0,
        starts: "0 0 0 ",
        slacks: "0 0 0 ",
        chain: "0 ",
    },
    Worked {
        name: "five siblings at one name",
        text: "omptasks 1\ntask depend(inoutset: x) { work 4 } task depend(inoutset: x) { work 6 } \
            task depend(in: x) { work 1 } task depend(inoutset: x) { work 2 } task depend(out: x) \
            { work 1 }",
        work: 14,
        span: 10,
        starts: "0 0 0 0 0 6 0 7 0 9 0 ",
        slacks: "0 2 0 0 6 0 7 0 9 0 10 ",
        chain: "0 2 3 5 7 9 ",
    },
    Worked {
        name: "two siblings that read and set",
        text: "omptasks 1\ntask depend(in: x) depend(inoutset: x) { work 3 } task depend(in: x) \
            depend(inoutset: x) { work 3 }",
        work: 6,
        span: 6,
        starts: "0 0 0 3 0 ",
        slacks: "0 0 3 0 6 ",
        chain: "0 1 3 ",
    },
    Worked {
        name: "an undeferred task that depends",
        text: "omptasks 1\ntask depend(out: x) { work 9 } task if(0) depend(in: x) { work 1 } work \
            1",
        work: 11,
        span: 11,
        starts: "0 0 0 9 10 ",
        slacks: "0 0 9 0 0 ",
        chain: "0 1 3 4 ",
    },
    Worked {
        name: "an undeferred task with a child",
        text: "omptasks 1\ntask if(0) { task { work 8 } work 1 } work 2",
        work: 11,
        span: 8,
        starts: "0 0 0 0 1 ",
        slacks: "0 0 0 5 5 ",
        chain: "0 1 2 ",
    },
    Worked {
        name: "a wait and a grandchild",
        text: "omptasks 1\ntask { task { work 8 } } taskwait work 2",
        work: 10,
        span: 8,
        starts: "0 0 0 0 0 0 ",
        slacks: "0 0 0 6 6 6 ",
        chain: "0 1 2 ",
    },
    Worked {
        name: "a group and a grandchild",
        text: "omptasks 1\ntaskgroup { task { task { work 8 } } } work 2",
        work: 10,
        span: 10,
        starts: "0 0 0 0 0 8 ",
        slacks: "0 0 0 8 8 0 ",
        chain: "0 1 2 5 ",
    },
    Worked {
        name: "a child from before the group",
        text: "omptasks 1\ntask { work 7 } taskgroup { task { work 1 } } work 1",
        work: 9,
        span: 7,
        starts: "0 0 0 0 0 1 ",
        slacks: "0 0 5 5 6 5 ",
        chain: "0 1 ",
    },
    Worked {
        name: "children of different parents",
        text: "omptasks 1\ntask { task depend(out: x) { work 5 } } task { task depend(in: x) { \
            work 5 } }",
        work: 10,
        span: 5,
        starts: "0 0 0 0 0 0 0 0 0 ",
        slacks: "0 0 0 5 0 0 0 5 5 ",
        chain: "0 1 2 ",
    },
    Worked {
        name: "three siblings",
        text: "omptasks 1\ntask { work 1 } task { work 1 } task { work 2 }",
        work: 4,
        span: 2,
        starts: "0 0 0 0 0 0 0 ",
        slacks: "0 1 0 1 0 0 2 ",
        chain: "0 2 4 5 ",
    },
];

fn list_of<T: Copy + Into<u64>>(alloc: Global, numbers: &[T]) -> Result<String, AllocFault> {
    let mut text = String::new(alloc);
    for number in numbers {
        let number: u64 = (*number).into();
        write!(text, "{number} ")?;
    }
    Ok(text)
}

/// Asserts that these numbers stand in a list.
fn assert_list<T: Copy + Into<u64>>(
    rt: &impl Abort,
    alloc: Global,
    numbers: &[T],
    wanted: &str,
) -> Result<(), Fail> {
    assert_eq!(rt; list_of(alloc, numbers)?.as_str(), wanted);
    Ok(())
}

/// Asserts that an analysis has these slacks.
fn assert_slacks(
    rt: &impl Abort,
    alloc: Global,
    graph: &Graph,
    found: &Analysis,
    wanted: &str,
) -> Result<(), Fail>
    requires { length found.now.slacks ≡ length graph.now.costs }
{
    let mut slacks = String::new(alloc);
    for segment in 0..graph.len() {
        write!(slacks, "{} ", found.slack(segment))?;
    }
    assert_eq!(rt; slacks.as_str(), wanted);
    Ok(())
}

/// Asserts that the span by itself is this one.
fn assert_span(
    rt: &impl Abort,
    alloc: Global,
    graph: &Graph,
    wanted: u64,
    name: &str,
) -> Result<(), Fail> {
    assert_eq!(rt; span_of(alloc, graph)?, wanted, "of {name}");
    Ok(())
}

/// Asserts that the analysis of a program finds what is wanted, and that its span by itself is the
/// same.
fn assert_found(rt: &impl Abort, alloc: Global, worked: &Worked) -> Result<(), Fail> {
    let name = worked.name;
    let graph = graph_of(alloc, worked.text)?;
    let found = analyse(alloc, &graph)?;
    assert_eq!(rt;
        (found.work(), found.span()),
        (worked.work, worked.span),
        "of {name}"
    );
    assert_span(rt, alloc, &graph, worked.span, name)?;
    assert_list(rt, alloc, found.starts(), worked.starts)?;
    assert_list(rt, alloc, found.chain(), worked.chain)?;
    assert_slacks(rt, alloc, &graph, &found, worked.slacks)?;
    assert!(rt; is_legal(&graph, found.starts()), "of {name}");
    Ok(())
}

#[test]
fn worked_programs(rt: HostRuntime) -> Result<(), Fail> {
    for worked in &WORKED {
        assert_found(&rt, rt.alloc(), worked)?;
    }
    Ok(())
}

#[test]
fn programs_of_examples(rt: HostRuntime) -> Result<(), Fail> {
    for worked in &EXAMPLES {
        assert_found(&rt, rt.alloc(), worked)?;
    }
    Ok(())
}

/// The starts of a schedule of the worked program, and whether it is legal.
const SCHEDULES: &[(&[u64], bool)] = &[
    (&[0, 5, 5, 8], true),
    (&[0, 6, 5, 9], true),
    (&[0, 5, 5, 7], false),
    (&[0, 5, 5], false),
    (&[0, 5, 5, 8, 0], false),
    (&[], false),
    (&[18446744073709551615, 0, 0, 0], false),
    (&[0, 18446744073709551612, 5, 18446744073709551615], true),
    (&[0, 18446744073709551613, 5, 18446744073709551615], false),
];

#[test]
fn schedules_of_the_worked_program(rt: HostRuntime) -> Result<(), Fail> {
    let graph = graph_of(rt.alloc(), WORKED_PROGRAM)?;
    for (starts, legal) in SCHEDULES {
        assert_eq!(rt; is_legal(&graph, *starts), *legal);
    }
    Ok(())
}
