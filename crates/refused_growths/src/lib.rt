//! Tests of each call that allocates, while memory is short. They are a crate of their own, so
//! that the memory of a process is taken in one way for all.
#![tactic(auto)]

#[cfg(test)]
mod tests;
