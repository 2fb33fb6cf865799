//! The tests, a module for each crate.
mod documents;
mod programs;
