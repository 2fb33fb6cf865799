//! The first pass over a text of version 2: what follows its header, as a tree in which loops
//! stand as loops.
#![tactic(auto)]

pub mod first_pass;
mod loop_forms;
pub mod loop_place;
pub mod loop_reader;
pub mod loops;
pub mod open_loops;
