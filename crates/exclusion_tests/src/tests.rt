//! The tests, a module for each public call. What is wanted was worked out by hand.
mod logs;
mod overlaps;
mod texts;
mod verdicts;
