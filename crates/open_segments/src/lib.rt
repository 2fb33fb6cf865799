//! What opens each segment of a program, and its kept predecessors. It knows nothing of runs.
#![tactic(auto)]

mod beginning;
mod continuing;
pub mod entries;
mod families;
pub mod filling;
pub mod flat_lists;
pub mod laws;
pub mod opener;
pub mod picked;
pub mod predecessors;
mod waiting_groups;
