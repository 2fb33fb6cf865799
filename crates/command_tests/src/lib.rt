//! Tests of counted devices, of what words ask for, of tables, and of the commands over devices in
//! memory. They are a crate of their own, since a crate with tests is proved twice.
#![tactic(auto)]

#[cfg(test)]
mod tests;
