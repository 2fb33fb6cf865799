//! The tests, a module for each crate, and what several of them need.
mod certificates;
mod greedy;
mod messages;
mod spans;
mod what_if;

use dispatch_core::graph::Graph;
use dispatch_core::replay::in_order;
use std::alloc::Global;
use std::test::Fail;
use task_program::read::read_program;
use task_segments::cut;

/// The graph of a text's program.
fn graph_of(alloc: Global, text: &str) -> Result<Graph, Fail> {
    let program = read_program(alloc, text.as_bytes())?;
    match in_order(alloc, cut(alloc, &program)?) {
        Ok(graph) => Ok(graph),
        Err(_) => Err("memory".into()),
    }
}
