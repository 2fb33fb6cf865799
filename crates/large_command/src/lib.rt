//! The program `spanprof_large`: what is asked of a text of any size, from words and bytes to a text
//! and a status.
#![tactic(auto)]

mod about;
mod bound_rows;
mod document_input;
mod documents;
mod engine;
mod entry;
mod graph_rows;
pub mod laws;
mod meter_answers;
mod room;
mod table_answers;
mod text_answers;
mod text_input;

pub use engine::command;
pub use entry::start;
pub use large_text::limits::{LARGEST_LINE, LARGEST_TEXT};
