//! Tests of where the time of a run's threads went.
#![tactic(auto)]

#[cfg(test)]
mod tests;
