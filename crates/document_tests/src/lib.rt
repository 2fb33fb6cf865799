//! Tests of timed documents: the worked run, and each fault once.
#![tactic(auto)]

#[cfg(test)]
mod tests;
