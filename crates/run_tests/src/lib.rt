//! Tests of segments, depend tables, the dispatch core and the workers. They are a crate of their
//! own, since a crate with tests is proved twice.
#![tactic(auto)]

#[cfg(test)]
mod tests;
