//! Bounds of schedules on a number of threads, by work and span.
ghost use Rattle.std.specs.Prelude.{◌≡◌, ◌≤◌};
ghost use Rattle.spanprof_command.specs.GreedyRuns.{bound_of, least_of};

/// An end before which no schedule on so many threads ends: the greater of the span, and of the
/// work on each thread, rounded up.
pub fn least(work: u64, span: u64, threads: u32) -> u64
    requires { 1 ≤ threads }
    ensures { result ≡ least_of work span threads }
{
    span.max(work.div_ceil(u64::from(threads)))
}

/// An end after which no greedy schedule on so many threads ends: the work and one span less than
/// there are threads, on each thread, rounded down.
pub fn bound(work: u64, span: u64, threads: u32) -> u64
    requires some { 1 ≤ threads }
    requires within { span ≤ work }
    ensures { result ≡ bound_of work span threads }
{
    span + (work - span) / u64::from(threads)
}
