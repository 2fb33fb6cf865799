//! Tests of the commands on inputs near their limits: an answer that is always out of memory from
//! some size on, or a limit that is met too early, would show here. They are a crate of their own,
//! since they take some seconds.
#![tactic(auto)]

#[cfg(test)]
mod tests;
