//! Texts of any size, in either version: their marks, one after another, and their work and span. In
//! version 1 what is kept grows with the nesting of tasks and groups and with the names, and not with
//! the text. A text of version 2 is kept whole, and its expansion is not.
#![tactic(auto)]

pub mod fault;
mod forms;
mod large_texts;
pub mod laws;
pub mod limits;
mod loop_marks;
pub mod marks;
mod measure;
mod place_tests;
mod plain_stream;
pub mod printer;
pub mod reader;
mod stream;
pub mod tally;
mod version_known;
mod words;

pub use measure::measure_text;
pub use stream::TextMeter;
