//! Tests of spans and slacks, changed costs, greedy schedules and certificates. They are a crate of
//! their own, since a crate with tests is proved twice.
#![tactic(auto)]

#[cfg(test)]
mod tests;
