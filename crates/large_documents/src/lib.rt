//! Reports on documents of any size: a text, its divider, and the rest.
#![tactic(auto)]

mod accounts;
mod change_list;
mod changed;
pub mod laws;
mod listed;
mod places;
mod read_text;
mod rest;
mod run_tables;
mod time_refusals;
mod timed_places;

pub use read_text::read_table;
pub use rest::{MOST_LARGE_EVENTS, tell_rest};
