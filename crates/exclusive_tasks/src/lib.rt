//! Whether tasks that exclude one another ran one at a time, as siblings with `mutexinoutset` items
//! on one location have to.
#![tactic(auto)]

mod claim;
pub mod laws;
mod line;
mod log;
mod overlap;
mod verdict;

pub use claim::{Claim, Event, Overlap};
pub use line::{LARGEST_NUMBER, Said};
pub use log::{Log, Reading, read_log};
pub use overlap::first_overlap;
pub use verdict::{Verdict, judge, verdict_text};
