//! `spanprof_exclusion`: reads a log from standard input, and reports whether tasks that exclude one
//! another ran one at a time.
//!
//! The exit status is 0 where they did, 1 where two of them overlap or the input is no log, and 3
//! where memory ran out, a read failed or a write failed.
#![tactic(auto)]

mod entry;

use counted_io::Counted;
use entry::{Ended, start};
use std::io;

fn main(rt: HostRuntime) -> Ended {
    let mut reader = Counted::new(rt.reader());
    let mut writer = Counted::new(io::writer(&rt));
    start(rt.alloc(), &mut reader, &mut writer)
}
