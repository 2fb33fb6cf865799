//! The dispatch core: which segments may start, what each computes on, and the record of a run. The
//! record is a graph, so `graph` stands here, and makes a program's graph without a run too.
#![tactic(auto)]

pub mod dispatch;
pub mod event;
pub mod graph;
pub mod kernel;
pub mod laws;
pub mod replay;
mod run_state;
pub mod successors;
mod waiting;
