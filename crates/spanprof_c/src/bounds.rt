//! Bounds of schedules on a number of threads, by work and span.
ghost use Rattle.std.specs.Prelude.{ℕ, ◌*◌, ◌≤◌};

/// The least T with `work <= threads * T` and `span <= T`: no schedule on so many threads ends
/// sooner.
pub(crate) fn least(work: u64, span: u64, threads: u32) -> u64
    requires { 1 ≤ threads }
    ensures work { work ≤ threads * result }
    ensures span { span ≤ result }
    ensures least { (end : ℕ) → work ≤ threads * end → span ≤ end → result ≤ end }
{
    span.max(work.div_ceil(u64::from(threads)))
}
