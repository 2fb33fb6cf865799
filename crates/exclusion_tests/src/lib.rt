//! Tests of tasks that exclude one another. They are a crate of their own, since a crate with tests
//! is proved twice.
#![tactic(auto)]

#[cfg(test)]
mod tests;
