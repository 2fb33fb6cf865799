//! Texts that are measured in one pass: tasks and segments are those of the table, work and span
//! those of the analysis, also of the table that the pass makes.
ghost use Rattle.std.specs.Prelude.{◌≤◌, length};
ghost use Rattle.large_text.specs.declared.limits.TheConstants.{LARGEST_PIECE};

use super::WORKED;
use super::examples::EXAMPLES;
use dispatch_core::replay::in_order;
use large_text::fault::LargeFault;
use large_text::{TextMeter, measure_text};
use span_analysis::analysis::analyse;
use std::alloc::Global;
use std::process::Abort;
use std::test::Fail;
use task_program::name_key::NameKey;
use task_program::read::read_program;
use task_segments::cut;
use task_segments::table::{BoundedTable, LargeTable, SegTable};

static TEXTS: [&str; 10] = [
    "omptasks 1 taskgroup { task { work 2 taskwait work 3 } work 1 } task { work 4 } taskwait",
    "omptasks 1 task if(0) { work 2 task { work 7 } taskwait } task if(1) { work 1 } work 3",
    "omptasks 1 taskgroup { taskgroup { task { work 5 } } task { work 1 } work 2 } work 1",
    "omptasks 1 task { taskgroup { task { task { work 9 } } } work 1 } taskwait taskwait work 2",
    "omptasks 1 task depend(out: a, b) { work 3 } task depend(in: b) depend(out: c) { work 4 } \
        task depend(in: a, c) { work 5 } taskwait work 1",
    "omptasks 1 task depend(inoutset: a) { work 1 } task depend(inoutset: a) { work 2 } task \
        depend(inout: a) { work 3 } task depend(inoutset: a) { work 4 } task depend(in: a) { work 5 }",
    "omptasks 1 task depend(out: a) { task depend(out: a) { work 8 } work 1 } task depend(in: a) \
        { task depend(in: a) { work 8 } work 2 } taskwait",
    "omptasks 1 task depend(out: a) { work 6 } taskgroup { task depend(in: a) { work 1 } task \
        depend(in: a) if(0) { work 2 } work 3 } task depend(out: a) { work 4 }",
    "omptasks 1 task depend(in: a, a) depend(out: a) { work 2 } task depend(out: a, a) { work 2 } \
        task if(0) depend(in: a) { taskwait work 1 } work 1",
    "omptasks 1 work 1 task { work 2 task { work 3 task { work 4 } taskwait work 5 } work 6 } work \
        7 taskwait work 8 task { } taskgroup { } work 9",
];

/// Tasks besides the root, segments, work and span.
type Numbers = (u64, u64, u64, u64);

fn by_meter(alloc: Global, text: &str) -> Result<Numbers, Fail> {
    if text.len() > 1_000_000 {
        return Err("a longer text".into());
    }
    let meter = measure_text(alloc, text.as_bytes())?;
    Ok((
        meter.tasks(),
        meter.segments(),
        meter.total_work(),
        meter.span(),
    ))
}

fn table_of(alloc: Global, text: &str) -> Result<SegTable, Fail> {
    let program = read_program(alloc, text.as_bytes())?;
    Ok(cut(alloc, &program)?)
}

/// Work and span of a table's graph.
fn analysed<const SEGMENTS: u32, const TASKS: u32>(
    alloc: Global,
    table: BoundedTable<SEGMENTS, TASKS>,
) -> Result<(u64, u64), Fail> {
    let Ok(graph) = in_order(alloc, table) else {
        return Err("memory".into());
    };
    let found = analyse(alloc, &graph)?;
    Ok((found.work(), found.span()))
}

fn by_analysis(alloc: Global, text: &str) -> Result<Numbers, Fail> {
    let table = table_of(alloc, text)?;
    let tasks = u64::from(table.tasks()).saturating_sub(1);
    let segments = u64::from(table.len());
    let (work, span) = analysed(alloc, table)?;
    Ok((tasks, segments, work, span))
}

/// The table of a text that comes in one piece, whatever its size.
fn large_table_of(alloc: Global, text: &[u8]) -> Result<Option<LargeTable>, LargeFault>
    requires { length text.now ≤ LARGEST_PIECE }
{
    let mut pieces = TextMeter::with_rows(alloc, NameKey::fixed())?;
    pieces.take(text)?;
    pieces.finish_table()
}

fn by_rows(alloc: Global, text: &str) -> Result<Numbers, Fail> {
    if text.len() > 1_000_000 {
        return Err("a longer text".into());
    }
    let Some(table) = large_table_of(alloc, text.as_bytes())? else {
        return Err("no table".into());
    };
    let tasks = u64::from(table.tasks()).saturating_sub(1);
    let segments = u64::from(table.len());
    let (work, span) = analysed(alloc, table)?;
    Ok((tasks, segments, work, span))
}

fn assert_alike(rt: &impl Abort, alloc: Global, text: &str) -> Result<(), Fail> {
    let wanted = by_analysis(alloc, text)?;
    assert_eq!(rt; by_meter(alloc, text)?, wanted, "{text}");
    assert_eq!(rt; by_rows(alloc, text)?, wanted, "{text}");
    Ok(())
}

#[test]
fn as_analysed(rt: HostRuntime) -> Result<(), Fail> {
    for worked in &WORKED {
        assert_alike(&rt, rt.alloc(), worked.text)?;
    }
    for worked in &EXAMPLES {
        assert_alike(&rt, rt.alloc(), worked.text)?;
    }
    for text in &TEXTS {
        assert_alike(&rt, rt.alloc(), text)?;
    }
    Ok(())
}
