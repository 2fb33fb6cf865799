//! Where the time of a run's threads went.
//!
//! A timed run has of each segment its thread, its begin and its end. At each moment a thread runs
//! a segment, or it is idle while one is ready, or it is idle while none is ready; before all begins
//! and after all ends it is outside.
#![tactic(auto)]

pub mod account;
mod apart;
pub mod by_segment;
mod changes;
pub mod checks;
pub mod fault;
pub mod laws;
pub mod path;
pub mod ready;
pub mod region;
mod sweep;
pub mod times;
