//! The times of a run, read from a text of lines.
//!
//! One line has the threads and the two moments between which the run took place. Each other line
//! has the thread, the begin and the end of one segment, in any order.
#![tactic(auto)]

mod fault;
pub mod laws;
mod line;
mod reader;

pub use fault::TimeTextFault;
pub use line::{LARGEST_MOMENT, LARGEST_NUMBER, RegionTimes, SegmentTimes, TimeLine, first_words};
pub use reader::{TimesText, read_times};
