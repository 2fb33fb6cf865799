//! The tests, a module for each crate, and what several of them need.
mod depend_tables;
mod dispatch;
mod segments;
mod workers;

use dispatch_core::graph::Graph;
use dispatch_core::replay::in_order;
use std::alloc::Global;
use std::fmt::Write;
use std::process::Abort;
use std::test::Fail;
use task_program::AllocFault;
use task_program::program::Program;
use task_program::read::read_program;
use task_segments::cut;
use task_segments::table::SegTable;

/// The program of a text.
fn program_of(alloc: Global, text: &str) -> Result<Program, Fail> {
    match read_program(alloc, text.as_bytes()) {
        Ok(program) => Ok(program),
        Err(_) => Err("refused".into()),
    }
}

/// The table of a program.
fn table_of(alloc: Global, text: &str) -> Result<SegTable, Fail> {
    Ok(cut(alloc, &program_of(alloc, text)?)?)
}

/// The table of a program, by its body.
fn table_of_body(alloc: Global, body: &str) -> Result<SegTable, Fail> {
    let text = format!(in alloc; "omptasks 1\n{body}")?;
    table_of(alloc, text.as_str())
}

/// The graph of a run in order, of a program by its body.
fn graph_of_body(alloc: Global, body: &str) -> Result<Graph, Fail> {
    match in_order(alloc, table_of_body(alloc, body)?) {
        Ok(graph) => Ok(graph),
        Err(_) => Err("out of memory".into()),
    }
}

/// Each segment with its predecessors.
fn preds_text(alloc: Global, graph: &Graph) -> Result<String, AllocFault> {
    let mut text = String::new(alloc);
    for segment in 0..graph.len() {
        write!(text, "{segment}:")?;
        write_preds(&mut text, graph, segment)?;
        text.push_str("; ")?;
    }
    Ok(text)
}

fn write_preds(text: &mut String, graph: &Graph, segment: u32) -> Result<(), AllocFault> {
    if segment >= graph.len() {
        return Ok(());
    }
    for pred in graph.preds(segment) {
        write!(text, " {pred}")?;
    }
    Ok(())
}

/// The graph's segments have these predecessors.
fn check_graph(
    rt: &impl Abort,
    alloc: Global,
    graph: &Graph,
    preds: &str,
) -> Result<(), AllocFault> {
    assert_eq!(rt; preds_text(alloc, graph)?.as_str(), preds);
    Ok(())
}
