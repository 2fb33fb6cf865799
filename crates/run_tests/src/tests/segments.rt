//! Worked programs: their tables and the pairs that must precede, as the rules of tasks give them
//! by hand.

use crate::tests::{table_of, table_of_body};
use std::alloc::Global;
use std::fmt::Write;
use std::process::Abort;
use std::test::Fail;
use task_program::AllocFault;
use task_program::statement::DependKind;
use task_segments::table::{Closing, SegTable};

/// A program and what is wanted of its table.
struct Worked {
    name: &'static str,
    text: &'static str,
    /// Of each segment: its task and place, its cost, how it ends and the next segment of its task.
    segments: &'static str,
    /// Of each task: its parent, its creator, whether it is undeferred, its first and last segment,
    /// its innermost group and its items.
    tasks: &'static str,
    /// The pairs of segments of which the first must precede the second.
    pairs: &'static str,
}

static WORKED: [Worked; 14] = [
    Worked {
        name: "an empty body",
        text: "omptasks 1\n",
        segments: "0.0 0 e -; ",
        tasks: " - - d 0 0 -;",
        pairs: "",
    },
    Worked {
        name: "the worked program",
        text: "omptasks 1\nwork 5 task { work 3 } work 2 taskwait work 1",
        segments: "0.0 5 c1 2; 1.0 3 e -; 0.1 2 w 3; 0.2 1 e -; ",
        tasks: " - - d 0 3 -; 0 0 d 1 1 -;",
        pairs: "0-1 0-2 1-3 2-3 ",
    },
    Worked {
        name: "the worked program without its wait",
        text: "omptasks 1\nwork 5 task { work 3 } work 2 work 1",
        segments: "0.0 5 c1 2; 1.0 3 e -; 0.1 3 e -; ",
        tasks: " - - d 0 2 -; 0 0 d 1 1 -;",
        pairs: "0-1 0-2 ",
    },
    Worked {
        name: "a group and a wait",
        text: "omptasks 1\ntaskgroup { } taskwait",
        segments: "0.0 0 g 1; 0.1 0 w 2; 0.2 0 e -; ",
        tasks: " - - d 0 2 -;",
        pairs: "0-1 1-2 ",
    },
    Worked {
        name: "five siblings at one name",
        text: "omptasks 1\ntask depend(inoutset: x) { work 4 } task depend(inoutset: x) { work 6 } \
            task depend(in: x) { work 1 } task depend(inoutset: x) { work 2 } task depend(out: x) \
            { work 1 }",
        segments: "0.0 0 c1 2; 1.0 4 e -; 0.1 0 c2 4; 2.0 6 e -; 0.2 0 c3 6; 3.0 1 e -; 0.3 0 c4 \
            8; 4.0 2 e -; 0.4 0 c5 10; 5.0 1 e -; 0.5 0 e -; ",
        tasks: " - - d 0 10 -; 0 0 d 1 1 - set0; 0 2 d 3 3 - set0; 0 4 d 5 5 - in0; 0 6 d 7 7 - \
            set0; 0 8 d 9 9 - out0;",
        pairs: "0-1 0-2 1-5 1-9 2-3 2-4 3-5 3-9 4-5 4-6 5-7 5-9 6-7 6-8 7-9 8-9 8-10 ",
    },
    Worked {
        name: "two siblings that read and set",
        text: "omptasks 1\ntask depend(in: x) depend(inoutset: x) { work 3 } task depend(in: x) \
            depend(inoutset: x) { work 3 }",
        segments: "0.0 0 c1 2; 1.0 3 e -; 0.1 0 c2 4; 2.0 3 e -; 0.2 0 e -; ",
        tasks: " - - d 0 4 -; 0 0 d 1 1 - in0 set0; 0 2 d 3 3 - in0 set0;",
        pairs: "0-1 0-2 1-3 2-3 2-4 ",
    },
    Worked {
        name: "an undeferred task that depends",
        text: "omptasks 1\ntask depend(out: x) { work 9 } task if(0) depend(in: x) { work 1 } work \
            1",
        segments: "0.0 0 c1 2; 1.0 9 e -; 0.1 0 c2 4; 2.0 1 e -; 0.2 1 e -; ",
        tasks: " - - d 0 4 -; 0 0 d 1 1 - out0; 0 2 u 3 3 - in0;",
        pairs: "0-1 0-2 1-3 2-3 2-4 3-4 ",
    },
    Worked {
        name: "an undeferred task with a child",
        text: "omptasks 1\ntask if(0) { task { work 8 } work 1 } work 2",
        segments: "0.0 0 c1 4; 1.0 0 c2 3; 2.0 8 e -; 1.1 1 e -; 0.1 2 e -; ",
        tasks: " - - d 0 4 -; 0 0 u 1 3 -; 1 1 d 2 2 -;",
        pairs: "0-1 0-4 1-2 1-3 3-4 ",
    },
    Worked {
        name: "a wait and a grandchild",
        text: "omptasks 1\ntask { task { work 8 } } taskwait work 2",
        segments: "0.0 0 c1 4; 1.0 0 c2 3; 2.0 8 e -; 1.1 0 e -; 0.1 0 w 5; 0.2 2 e -; ",
        tasks: " - - d 0 5 -; 0 0 d 1 3 -; 1 1 d 2 2 -;",
        pairs: "0-1 0-4 1-2 1-3 3-5 4-5 ",
    },
    Worked {
        name: "a group and a grandchild",
        text: "omptasks 1\ntaskgroup { task { task { work 8 } } } work 2",
        segments: "0.0 0 c1 4; 1.0 0 c2 3; 2.0 8 e -; 1.1 0 e -; 0.1 0 g 5; 0.2 2 e -; ",
        tasks: " - - d 0 5 -; 0 0 d 1 3 5; 1 1 d 2 2 5;",
        pairs: "0-1 0-4 1-2 1-3 2-5 3-5 4-5 ",
    },
    Worked {
        name: "a child from before the group",
        text: "omptasks 1\ntask { work 7 } taskgroup { task { work 1 } } work 1",
        segments: "0.0 0 c1 2; 1.0 7 e -; 0.1 0 c2 4; 2.0 1 e -; 0.2 0 g 5; 0.3 1 e -; ",
        tasks: " - - d 0 5 -; 0 0 d 1 1 -; 0 2 d 3 3 5;",
        pairs: "0-1 0-2 2-3 2-4 3-5 4-5 ",
    },
    Worked {
        name: "children of different parents",
        text: "omptasks 1\ntask { task depend(out: x) { work 5 } } task { task depend(in: x) { \
            work 5 } }",
        segments: "0.0 0 c1 4; 1.0 0 c2 3; 2.0 5 e -; 1.1 0 e -; 0.1 0 c3 8; 3.0 0 c4 7; 4.0 5 e \
            -; 3.1 0 e -; 0.2 0 e -; ",
        tasks: " - - d 0 8 -; 0 0 d 1 3 -; 1 1 d 2 2 - out0; 0 4 d 5 7 -; 3 5 d 6 6 - in0;",
        pairs: "0-1 0-4 1-2 1-3 4-5 4-8 5-6 5-7 ",
    },
    Worked {
        name: "three siblings",
        text: "omptasks 1\ntask { work 1 } task { work 1 } task { work 2 }",
        segments: "0.0 0 c1 2; 1.0 1 e -; 0.1 0 c2 4; 2.0 1 e -; 0.2 0 c3 6; 3.0 2 e -; 0.3 0 e \
            -; ",
        tasks: " - - d 0 6 -; 0 0 d 1 1 -; 0 2 d 3 3 -; 0 4 d 5 5 -;",
        pairs: "0-1 0-2 2-3 2-4 4-5 4-6 ",
    },
    Worked {
        name: "groups one inside another",
        text: "omptasks 1\ntask { } taskgroup { task { taskgroup { task { } } task { } taskwait } \
            taskgroup { } task { } } task { }",
        segments: "0.0 0 c1 2; 1.0 0 e -; 0.1 0 c2 10; 2.0 0 c3 5; 3.0 0 e -; 2.1 0 g 6; 2.2 0 c4 \
            8; 4.0 0 e -; 2.3 0 w 9; 2.4 0 e -; 0.2 0 g 11; 0.3 0 c5 13; 5.0 0 e -; 0.4 0 g 14; \
            0.5 0 c6 16; 6.0 0 e -; 0.6 0 e -; ",
        tasks: " - - d 0 16 -; 0 0 d 1 1 -; 0 2 d 3 9 14; 2 3 d 4 4 6; 2 6 d 7 7 14; 0 11 d 12 12 \
            14; 0 14 d 15 15 -;",
        pairs: "0-1 0-2 2-3 2-10 3-4 3-5 4-6 4-9 4-14 5-6 6-7 6-8 7-9 7-14 8-9 9-14 10-11 11-12 \
            11-13 12-14 13-14 14-15 14-16 ",
    },
];

fn write_number(text: &mut String, number: Option<u32>) -> Result<(), AllocFault> {
    match number {
        Some(number) => write!(text, " {number}"),
        None => text.push_str(" -"),
    }
}

fn write_closing(text: &mut String, closing: Closing) -> Result<(), AllocFault> {
    match closing {
        Closing::Creates(child) => write!(text, " c{child}"),
        Closing::Waits => text.push_str(" w"),
        Closing::EndsGroup => text.push_str(" g"),
        Closing::EndsTask => text.push_str(" e"),
    }
}

fn segments_of(alloc: Global, table: &SegTable) -> Result<String, AllocFault> {
    let mut text = String::new(alloc);
    for s in 0..table.len() {
        write!(
            text,
            "{}.{} {}",
            table.task_of(s),
            table.index(s),
            table.cost(s)
        )?;
        write_closing(&mut text, table.closing(s))?;
        write_number(&mut text, table.next(s))?;
        text.push_str("; ")?;
    }
    Ok(text)
}

fn kind_name(kind: DependKind) -> &'static str {
    match kind {
        DependKind::DependIn => "in",
        DependKind::DependOut => "out",
        DependKind::DependInOut => "inout",
        DependKind::DependInOutSet => "set",
    }
}

fn write_items(text: &mut String, table: &SegTable, t: u32) -> Result<(), AllocFault> {
    if t >= table.tasks() {
        return Ok(());
    }
    for item in table.items(t) {
        write!(text, " {}{}", kind_name(item.kind), item.name)?;
    }
    Ok(())
}

fn tasks_of(alloc: Global, table: &SegTable) -> Result<String, AllocFault> {
    let mut text = String::new(alloc);
    for t in 0..table.tasks() {
        write_number(&mut text, table.parent(t))?;
        write_number(&mut text, table.creator(t))?;
        let mode = if table.undeferred(t) { "u" } else { "d" };
        write!(text, " {mode} {} {}", table.first(t), table.last(t))?;
        write_number(&mut text, table.innermost_group(t))?;
        write_items(&mut text, table, t)?;
        text.push_str(";")?;
    }
    Ok(text)
}

fn pairs_of(alloc: Global, table: &SegTable) -> Result<String, AllocFault> {
    let mut text = String::new(alloc);
    for s in 0..table.len() {
        for t in 0..table.len() {
            if table.must_precede(s, t) {
                write!(text, "{s}-{t} ")?;
            }
        }
    }
    Ok(text)
}

/// The text is the wanted one, of the program of this name.
fn check_text(rt: &impl Abort, text: &str, wanted: &str, name: &str) {
    assert_eq!(rt; text, wanted, "{name}");
}

/// The table is the wanted one.
fn check_table(
    rt: &impl Abort,
    alloc: Global,
    table: &SegTable,
    worked: &Worked,
) -> Result<(), AllocFault> {
    let name = worked.name;
    check_text(
        rt,
        segments_of(alloc, table)?.as_str(),
        worked.segments,
        name,
    );
    check_text(rt, tasks_of(alloc, table)?.as_str(), worked.tasks, name);
    check_text(rt, pairs_of(alloc, table)?.as_str(), worked.pairs, name);
    Ok(())
}

#[test]
fn worked_programs(rt: HostRuntime) -> Result<(), Fail> {
    let alloc = rt.alloc();
    for worked in &WORKED {
        check_table(&rt, alloc, &table_of(alloc, worked.text)?, worked)?;
    }
    Ok(())
}

/// The two tables are the same, whichever is asked.
fn check_same(rt: &impl Abort, one: &SegTable, other: &SegTable, name: &str) {
    assert!(rt; one.same(other) && other.same(one), "{name}");
}

#[test]
fn copies_are_the_same(rt: HostRuntime) -> Result<(), Fail> {
    let alloc = rt.alloc();
    for worked in &WORKED {
        let table = table_of(alloc, worked.text)?;
        let copy = table.copy()?;
        check_same(&rt, &table, &copy, worked.name);
        check_table(&rt, alloc, &copy, worked)?;
    }
    Ok(())
}

/// The two tables are not the same, whichever is asked.
fn check_other(rt: &impl Abort, one: &SegTable, other: &SegTable) {
    assert!(rt; !one.same(other) && !other.same(one));
}

/// Two programs of which the tables differ.
const PAIRS: &[(&str, &str)] = &[
    (
        "work 5 task { work 3 } work 2 taskwait work 1",
        "work 5 task { work 3 } work 2 work 1",
    ),
    ("task depend(in: x) { }", "task depend(out: x) { }"),
    ("task depend(in: x) { }", "task depend(in: x, y) { }"),
    ("task { } work 1", "task if(0) { } work 1"),
    ("work 1 taskwait", "work 2 taskwait"),
    ("taskwait", "taskgroup { }"),
    ("task { } taskgroup { }", "taskgroup { task { } }"),
];

#[test]
fn other_programs_are_not_the_same(rt: HostRuntime) -> Result<(), Fail> {
    let alloc = rt.alloc();
    for (one, other) in PAIRS {
        check_other(
            &rt,
            &table_of_body(alloc, one)?,
            &table_of_body(alloc, other)?,
        );
    }
    Ok(())
}
