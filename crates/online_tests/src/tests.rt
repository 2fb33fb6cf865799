//! Worked programs: how many tasks and segments they have, their work and their span, as they follow
//! by hand from what must precede what.
use online_span::{Meter, measure};
use std::alloc::Global;
use std::process::Abort;
use std::test::Fail;
use task_program::read::read_program;

mod loops;
mod pieces;
mod texts;

/// A text, and what is wanted of its program.
struct Worked {
    text: &'static str,
    /// Besides the root.
    tasks: u64,
    segments: u64,
    work: u64,
    span: u64,
}

static WORKED: [Worked; 14] = [
    Worked {
        text: "omptasks 1\n",
        tasks: 0,
        segments: 1,
        work: 0,
        span: 0,
    },
    Worked {
        text: "omptasks 1\nwork 5 task { work 3 } work 2 taskwait work 1",
        tasks: 1,
        segments: 4,
        work: 11,
        span: 9,
    },
    // it ends with a segment that is on no longest chain
    Worked {
        text: "omptasks 1\nwork 5 task { work 3 } work 2 work 1",
        tasks: 1,
        segments: 3,
        work: 11,
        span: 8,
    },
    Worked {
        text: "omptasks 1\ntask depend(inoutset: x) { work 4 } task depend(inoutset: x) { work 6 } \
            task depend(in: x) { work 1 } task depend(inoutset: x) { work 2 } task depend(out: x) \
            { work 1 }",
        tasks: 5,
        segments: 11,
        work: 14,
        span: 10,
    },
    Worked {
        text: "omptasks 1\ntask depend(out: x) { work 9 } task if(0) depend(in: x) { work 1 } work \
            1",
        tasks: 2,
        segments: 5,
        work: 11,
        span: 11,
    },
    Worked {
        text: "omptasks 1\ntask if(0) { task { work 8 } work 1 } work 2",
        tasks: 2,
        segments: 5,
        work: 11,
        span: 8,
    },
    // a wait is not for a grandchild, and the end of a group is
    Worked {
        text: "omptasks 1\ntask { task { work 8 } } taskwait work 2",
        tasks: 2,
        segments: 6,
        work: 10,
        span: 8,
    },
    Worked {
        text: "omptasks 1\ntaskgroup { task { task { work 8 } } } work 2",
        tasks: 2,
        segments: 6,
        work: 10,
        span: 10,
    },
    Worked {
        text: "omptasks 1\ntask { work 7 } taskgroup { task { work 1 } } work 1",
        tasks: 2,
        segments: 6,
        work: 9,
        span: 7,
    },
    // children of different parents do not depend on each other
    Worked {
        text: "omptasks 1\ntask { task depend(out: x) { work 5 } } task { task depend(in: x) { \
            work 5 } }",
        tasks: 4,
        segments: 9,
        work: 10,
        span: 5,
    }, // a group, and a task with work that stand for it: 13 in all, and 7 along the longest chain
    Worked {
        text: "omptasks 1\nwork 2 taskgroup { task { work 3 task { work 4 } work 1 taskwait } \
            work 5 } work 1",
        tasks: 2,
        segments: 7,
        work: 16,
        span: 10,
    },
    Worked {
        text: "omptasks 1\nwork 2 taskgroup { task { work 6 } work 7 } work 1",
        tasks: 1,
        segments: 4,
        work: 16,
        span: 10,
    },
    // they do not where the group waits for an earlier child, though it has work and span 5 by itself
    Worked {
        text: "omptasks 1\ntask { work 100 } taskgroup { taskwait work 5 }",
        tasks: 1,
        segments: 5,
        work: 105,
        span: 105,
    },
    Worked {
        text: "omptasks 1\ntask { work 100 } taskgroup { work 5 }",
        tasks: 1,
        segments: 4,
        work: 105,
        span: 100,
    },
];

/// Tasks, segments, work and span.
type Numbers = (u64, u64, u64, u64);

fn numbers_of(meter: &Meter) -> Numbers {
    (
        meter.tasks(),
        meter.segments(),
        meter.total_work(),
        meter.span(),
    )
}

/// The numbers of a text's program.
fn measured(alloc: Global, text: &str) -> Result<Numbers, Fail> {
    let program = read_program(alloc, text.as_bytes())?;
    Ok(numbers_of(&measure(alloc, &program)?))
}

/// Asserts that these are the numbers of a worked program.
fn assert_worked(rt: &impl Abort, worked: &Worked, numbers: Numbers) {
    assert_eq!(rt;
        numbers,
        (worked.tasks, worked.segments, worked.work, worked.span),
        "{}",
        worked.text
    );
}

#[test]
fn worked_programs(rt: HostRuntime) -> Result<(), Fail> {
    for worked in &WORKED {
        assert_worked(&rt, worked, measured(rt.alloc(), worked.text)?);
    }
    Ok(())
}
