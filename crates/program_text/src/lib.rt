//! What texts of both versions are made of: tokens, words and numbers, statements and when two
//! tasks' depend items conflict, the faults of a text, and documents in their two parts.
#![tactic(auto)]

pub mod document;
pub mod fault;
pub mod laws;
pub mod limits;
pub mod plain_words;
pub mod scanner;
pub mod statement;
pub mod words;

/// Out of memory, and nothing else.
pub use std::alloc::AllocError as AllocFault;
