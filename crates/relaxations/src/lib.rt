//! Whether one program is a relaxation of another: the same segments, with no more to wait for.
#![tactic(auto)]

mod judging;
pub mod laws;
mod segments;
mod verdict;

pub use judging::judge;
pub use verdict::Verdict;
